// The section of a turn: its states, and for each state and mark a pattern for leaves and one for nodes.
ghost use Rattle.std.specs.Prelude.{◌<◌, ◌≤◌, OnOk};
ghost use Rattle.tokens.specs.Progress.{ahead};

use crate::parser::Parser;
use crate::table::{Table, crossed};
use std::alloc::{AllocError, Global};
use tokens::{Fault, Keyword, Mistake, Names, Sort, TokenKind, Word};

// A pattern is at most so deep; a leaf is 1 deep. (`rows` has its own limit: it checks words, and a text has a place to tell.)
const DEEPEST: u32 = 64;

// A part of a node, by its number in a row. (`rows` has one that it reads from words; texts don't stand on it.)
#[derive(Clone, Copy)]
enum Side {
    Left = 0,
    Right = 1,
}

// What a pattern is made from, in the order of its row.
#[derive(Clone, Copy)]
enum Piece {
    // A leaf, or a node before its parts, with its mark, or with that of the case where the rule has `_`.
    Leaf(Option<u32>),
    Node(Option<u32>),
    // What a state makes of a part.
    Part { state: u32, side: Side },
}

// What the names in a pattern stand for.
#[derive(Clone, Copy)]
struct Scope<'n> {
    marks: &'n Names,
    states: &'n Names,
    // Whether the rule is for nodes, which have parts.
    is_node: bool,
}

// A turn as far as it is read. Its cases: a leaf by the state and the mark, the mark fastest; then a node likewise.
#[derive(Drop)]
struct Transducer<'n> {
    marks: &'n Names,
    states: Names,
    patterns: Table<Vec<Piece>>,
}

// The left side of a rule.
#[derive(Drop)]
struct LeftSide {
    states: Vec<u32>,
    marks: Vec<u32>,
    is_node: bool,
}

impl Transducer<'_> {
    // How many cases are of leaves.
    fn leaves(&self) -> usize
        ensures some { 0 < result }
        ensures few { result ≤ 4096 }
    {
        self.states.count() as usize * self.marks.count() as usize
    }

    // The cases that a rule gives.
    fn cases(&self, heap: Global, rule: &LeftSide) -> Result<Vec<usize>, AllocError> {
        let first = if rule.is_node { self.leaves() } else { 0 };
        let rows = crossed(heap, 0, &[0], 1, &rule.states)?;
        crossed(heap, first, &rows, self.marks.count() as usize, &rule.marks)
    }

    fn case_name(&self, heap: Global, case: usize) -> Result<String, AllocError> {
        let leaves = self.leaves();
        let count = self.marks.count() as usize;
        let state = self.states.name(heap, case % leaves / count)?;
        let mark = self.marks.name(heap, case % count)?;
        if case < leaves {
            format!(in heap; "{state}({mark})")
        } else {
            format!(in heap; "{state}({mark}(left, right))")
        }
    }
}

impl<'t> Parser<'t> {
    // Reads a turn, writes its row, and gives its states.
    pub fn transducer(&mut self, marks: &Names) -> Result<Names, Fault> {
        let states = self.section(Keyword::Turn, Keyword::States, Sort::State)?;
        let leaves = states.count() as usize * marks.count() as usize;
        let patterns = Table::new(self.cursor.heap, 2 * leaves)?;
        let mut transducer = Transducer {
            marks,
            states,
            patterns,
        };
        self.transducer_rules(&mut transducer)?;
        self.transducer_row(&transducer)?;
        self.cursor.advance()?;
        Ok(transducer.states)
    }

    // (The section of a type has such a loop too: the rules differ in all but that they end.)
    fn transducer_rules(&mut self, transducer: &mut Transducer<'_>) -> Result<(), Fault> {
        while self.cursor.kind() != TokenKind::CloseBrace {
            self.transducer_rule(transducer)?;
        }
        Ok(())
    }

    // `STATES(MARKS) -> PATTERN`, or `STATES(MARKS(left, right)) -> PATTERN`.
    fn transducer_rule(&mut self, transducer: &mut Transducer<'_>) -> Result<(), Fault>
        ensures { OnOk result (ahead self.new.cursor < ahead self.old.cursor) }
    {
        let start = self.cursor.offset();
        let side = self.left_side(transducer)?;
        let mut pattern = Vec::new(self.cursor.heap);
        let scope = Scope {
            marks: transducer.marks,
            states: &transducer.states,
            is_node: side.is_node,
        };
        self.pattern(scope, DEEPEST, &mut pattern)?;
        let cases = transducer.cases(self.cursor.heap, &side)?;
        if let Some(clash) = transducer.patterns.clash(&cases) {
            let case = transducer.case_name(self.cursor.heap, clash.case)?;
            return Err(self.given_twice(start, clash.start, case));
        }
        transducer.patterns.add(&cases, start, pattern)?;
        Ok(())
    }

    // The left side of a rule, with the arrow.
    fn left_side(&mut self, transducer: &Transducer<'_>) -> Result<LeftSide, Fault>
        ensures { OnOk result (ahead self.new.cursor < ahead self.old.cursor) }
    {
        let states = self.choice(&transducer.states, "a rule or `}`")?;
        self.cursor.expect(TokenKind::OpenParen)?;
        let marks = self.choice(transducer.marks, "a mark")?;
        let is_node = self.parts()?;
        self.cursor.expect(TokenKind::CloseParen)?;
        self.cursor.expect(TokenKind::Arrow)?;
        Ok(LeftSide {
            states,
            marks,
            is_node,
        })
    }

    // Whether `(left, right)` stands here, which is then read. The answer is what was asked, not how the reading went.
    fn parts(&mut self) -> Result<bool, Fault>
        ensures { OnOk result (ahead self.new.cursor ≤ ahead self.old.cursor) }
    {
        match self.cursor.kind() {
            TokenKind::CloseParen => Ok(false),
            TokenKind::OpenParen => {
                self.cursor.advance()?;
                self.cursor.expect(TokenKind::Reserved(Keyword::Left))?;
                self.cursor.expect(TokenKind::Comma)?;
                self.cursor.expect(TokenKind::Reserved(Keyword::Right))?;
                self.cursor.expect(TokenKind::CloseParen)?;
                Ok(true)
            }
            _ => Err(self.cursor.unexpected("`(` or `)`")),
        }
    }

    // The name or number that a pattern begins with, or none for `_`.
    fn head(&mut self) -> Result<Option<Word<'t>>, Fault>
        ensures { OnOk result (ahead self.new.cursor < ahead self.old.cursor) }
    {
        if self.cursor.kind() == TokenKind::Underscore {
            self.cursor.advance()?;
            return Ok(None);
        }
        let word = self.cursor.word("a pattern")?;
        Ok(Some(word))
    }

    // The mark of a leaf or a node, or none for that of the case.
    fn mark(&self, head: Option<Word<'t>>, marks: &Names) -> Result<Option<u32>, Fault> {
        head.map(|word| word.resolve(&self.cursor, marks))
            .transpose()
    }

    // Reads a pattern that may be `depth_left` deep, and writes its pieces behind `pattern`.
    fn pattern(
        &mut self,
        scope: Scope<'_>,
        depth_left: u32,
        pattern: &mut Vec<Piece>,
    ) -> Result<(), Fault>
        ensures { OnOk result (ahead self.new.cursor < ahead self.old.cursor) }
    {
        if depth_left == 0 {
            return Err(self.cursor.fault(Mistake::Deep));
        }
        let head = self.head()?;
        if self.cursor.kind() != TokenKind::OpenParen {
            let mark = self.mark(head, scope.marks)?;
            pattern.push(Piece::Leaf(mark))?;
            return Ok(());
        }
        self.cursor.advance()?;
        if let Some(side) = self.side() {
            self.part(head, side, scope, pattern)?;
        } else {
            let mark = self.mark(head, scope.marks)?;
            pattern.push(Piece::Node(mark))?;
            self.pattern(scope, depth_left - 1, pattern)?;
            self.cursor.expect(TokenKind::Comma)?;
            self.pattern(scope, depth_left - 1, pattern)?;
        }
        self.cursor.expect(TokenKind::CloseParen)
    }

    // Which part the token names.
    fn side(&self) -> Option<Side> {
        match self.cursor.kind() {
            TokenKind::Reserved(Keyword::Left) => Some(Side::Left),
            TokenKind::Reserved(Keyword::Right) => Some(Side::Right),
            _ => None,
        }
    }

    // What a state makes of a part, whose side is the token.
    fn part(
        &mut self,
        head: Option<Word<'t>>,
        side: Side,
        scope: Scope<'_>,
        pattern: &mut Vec<Piece>,
    ) -> Result<(), Fault>
        ensures { OnOk result (ahead self.new.cursor < ahead self.old.cursor) }
    {
        let Some(word) = head else {
            return Err(self.cursor.unexpected("a pattern"));
        };
        if !scope.is_node {
            return Err(self.cursor.fault_at(word.offset, Mistake::PartOfLeaf));
        }
        let state = word.resolve(&self.cursor, scope.states)?;
        pattern.push(Piece::Part { state, side })?;
        self.cursor.advance()
    }

    // Writes a pattern for a case with the mark, if there may be so many words more. (Asked once, not at each piece: a rule may stand for
    // millions of words.)
    fn pattern_row(&mut self, pattern: &[Piece], mark: u32) -> Result<(), Fault> {
        let parts = pattern
            .iter()
            .filter(|piece| matches!(piece, Piece::Part { .. }))
            .count();
        self.reserve(pattern.len().saturating_mul(2).saturating_add(parts))?;
        for piece in pattern {
            match piece {
                Piece::Leaf(own) => self.put(&[0, own.unwrap_or(mark)])?,
                Piece::Node(own) => self.put(&[1, own.unwrap_or(mark)])?,
                Piece::Part { state, side } => self.put(&[2, *state, *side as u32])?,
            }
        }
        Ok(())
    }

    // Writes the number of states and the pattern of each case.
    fn transducer_row(&mut self, transducer: &Transducer<'_>) -> Result<(), Fault> {
        self.words.push(transducer.states.count())?;
        let count = transducer.marks.count() as usize;
        // a case is its number, which a message names and whose mark is worked out from it
        for case in 0..transducer.patterns.len() {
            let Some(pattern) = transducer.patterns.result(case) else {
                let case = transducer.case_name(self.cursor.heap, case)?;
                return Err(self.cursor.fault(Mistake::CaseMissing { case }));
            };
            self.pattern_row(pattern, (case % count) as u32)?;
        }
        Ok(())
    }
}
