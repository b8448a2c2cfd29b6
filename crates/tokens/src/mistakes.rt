// What is wrong with a text, and where.
ghost use Rattle.std.specs.Prelude.{◌≤◌};

use std::alloc::AllocError;
use std::fmt;
use thiserror::Error;

// Whether a character begins with the byte: those that carry one on begin with the bits 10.
pub fn begins_character(byte: u8) -> bool {
    byte & 0xc0 != 0x80
}

// A place in a text: its line, and its column in characters, both counted from 1.
#[derive(Clone, Copy, Debug, PartialEq)]
pub struct Place {
    pub line: usize,
    pub column: usize,
}

impl Place {
    // The place that has `offset` bytes of the text before it.
    pub fn of(text: &[u8], offset: usize) -> Place
        ensures line { 1 ≤ result.line }
        ensures column { 1 ≤ result.column }
    {
        let before = text.get(..offset).unwrap_or(text);
        let ends = before.iter().filter(|byte| **byte == b'\n').count();
        let line = before
            .rsplit(|byte| *byte == b'\n')
            .next()
            .unwrap_or(before);
        let characters = line.iter().filter(|byte| begins_character(**byte)).count();
        Place {
            line: ends.saturating_add(1),
            column: characters.saturating_add(1),
        }
    }
}

impl fmt::Display for Place {
    fn fmt<W: fmt::Write>(&self, f: &mut fmt::Formatter<W>) -> fmt::Result {
        let line = self.line;
        let column = self.column;
        write!(f, "{line}:{column}")
    }
}

// What a name stands for.
#[derive(Clone, Copy, Debug, PartialEq, Eq)]
pub enum Sort {
    Mark,
    Kind,
    State,
}

impl fmt::Display for Sort {
    fn fmt<W: fmt::Write>(&self, f: &mut fmt::Formatter<W>) -> fmt::Result {
        f.write_str(match self {
            Sort::Mark => "mark",
            Sort::Kind => "kind",
            Sort::State => "state",
        })
    }
}

#[derive(Debug, Drop, Error)]
pub enum Mistake {
    // A character that begins no token.
    #[error("unexpected character `{found}`")]
    Character {
        found: String,
    },
    // Another token than the grammar has here.
    #[error("expected {expected}, found `{found}`")]
    Token {
        found: String,
        expected: String,
    },
    // The text ends too early.
    #[error("expected {expected}, but the text ends")]
    Ended {
        expected: String,
    },
    // Something stands behind the end.
    #[error("expected the end of the text, found `{found}`")]
    Behind {
        found: String,
    },
    // A name that is not declared.
    #[error("unknown {sort} `{name}`")]
    Unknown {
        sort: Sort,
        name: String,
    },
    // A number that is not below the number of such things.
    #[error("number too large: `{number}` is not below {count}, the number of {sort}s")]
    Number {
        sort: Sort,
        number: String,
        count: u32,
    },
    // A name that is declared, or listed, twice.
    #[error("the {sort} `{name}` is given twice")]
    NameTwice {
        sort: Sort,
        name: String,
    },
    // None, or more than 64.
    #[error("the number of {sort}s must be 1 to 64")]
    Count {
        sort: Sort,
    },
    // The pattern of a leaf uses a part.
    #[error("the pattern of a leaf cannot use a part: a leaf has none")]
    PartOfLeaf,
    // A pattern of more than 64 levels.
    #[error("the pattern is more than 64 deep")]
    Deep,
    // An earlier rule, which begins on `line`, has the case too.
    #[error("`{case}` is given twice, first by the rule on line {line}")]
    CaseTwice {
        case: String,
        line: usize,
    },
    #[error("no rule gives `{case}`")]
    CaseMissing {
        case: String,
    },
    // What is read has more words than it may have.
    #[error("more than {most} words")]
    TooLong {
        most: usize,
    },
}

// Why a text gives nothing.
#[derive(Debug, Drop, Error)]
pub enum Fault {
    #[error(transparent)]
    Memory(#[from(alloc)] AllocError),
    #[error("{place}: {mistake}")]
    Wrong { place: Place, mistake: Mistake },
}
