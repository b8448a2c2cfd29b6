// The section of a type: its kinds, a rule for each kind of leaf and node, and the kinds that are wanted.
ghost use Rattle.std.specs.Prelude.{◌<◌, ◌≤◌, length, OnOk};
ghost use Rattle.tokens.specs.Progress.{ahead};

use crate::parser::Parser;
use crate::table::{Table, crossed};
use std::alloc::{AllocError, Global};
use tokens::{Fault, Keyword, Mistake, Names, Sort, TokenKind};

// A type as far as it is read. Its cases: a leaf by its mark; then a node by its mark and the kinds of its left and
// its right part, the right part's fastest.
#[derive(Drop)]
struct Automaton<'n> {
    marks: &'n Names,
    kinds: Names,
    results: Table<u32>,
}

impl<'n> Automaton<'n> {
    fn new(heap: Global, marks: &'n Names, kinds: Names) -> Result<Automaton<'n>, AllocError> {
        let leaves = marks.count() as usize;
        let count = kinds.count() as usize;
        let results = Table::new(heap, leaves + leaves * count * count)?;
        Ok(Automaton {
            marks,
            kinds,
            results,
        })
    }

    fn case_name(&self, heap: Global, case: usize) -> Result<String, AllocError> {
        let leaves = self.marks.count() as usize;
        if case < leaves {
            return self.marks.name(heap, case);
        }
        let count = self.kinds.count() as usize;
        let pair = (case - leaves) / count;
        let mark = self.marks.name(heap, pair / count)?;
        let left = self.kinds.name(heap, pair % count)?;
        let right = self.kinds.name(heap, (case - leaves) % count)?;
        format!(in heap; "{mark}({left}, {right})")
    }

    // The cases of a node with one of the marks, and parts of the kinds.
    fn node_cases(
        &self,
        heap: Global,
        marks: &[u32],
        left: &[u32],
        right: &[u32],
    ) -> Result<Vec<usize>, AllocError> {
        let leaves = self.marks.count() as usize;
        let count = self.kinds.count() as usize;
        let rows = crossed(heap, 0, &[0], 1, marks)?;
        let pairs = crossed(heap, 0, &rows, count, left)?;
        crossed(heap, leaves, &pairs, count, right)
    }
}

impl Parser<'_> {
    // Reads a type, writes its row, and gives its kinds.
    pub fn automaton(&mut self, keyword: Keyword, marks: &Names) -> Result<Names, Fault> {
        let kinds = self.section(keyword, Keyword::Kinds, Sort::Kind)?;
        let count = kinds.count() as usize;
        self.reserve(marks.count() as usize * count * count)?;
        let mut automaton = Automaton::new(self.cursor.heap, marks, kinds)?;
        self.automaton_rules(&mut automaton)?;
        self.automaton_end(&automaton)?;
        Ok(automaton.kinds)
    }

    fn automaton_rules(&mut self, automaton: &mut Automaton<'_>) -> Result<(), Fault> {
        while self.cursor.kind() != TokenKind::Reserved(Keyword::Wanted) {
            self.automaton_rule(automaton)?;
        }
        self.cursor.advance()
    }

    // `MARKS -> KIND`, or `MARKS(KINDS, KINDS) -> KIND`.
    fn automaton_rule(&mut self, automaton: &mut Automaton<'_>) -> Result<(), Fault>
        ensures { OnOk result (ahead self.new.cursor < ahead self.old.cursor) }
    {
        let start = self.cursor.offset();
        let cases = self.cases(automaton)?;
        self.cursor.expect(TokenKind::Arrow)?;
        let kind = self.cursor.pick(&automaton.kinds)?;
        if let Some(clash) = automaton.results.clash(&cases) {
            let case = automaton.case_name(self.cursor.heap, clash.case)?;
            return Err(self.given_twice(start, clash.start, case));
        }
        automaton.results.add(&cases, start, kind)?;
        Ok(())
    }

    // The cases of the left side of a rule.
    fn cases(&mut self, automaton: &Automaton<'_>) -> Result<Vec<usize>, Fault>
        ensures { OnOk result (ahead self.new.cursor < ahead self.old.cursor) }
    {
        let marks = self.choice(automaton.marks, "a rule or `wanted`")?;
        match self.cursor.kind() {
            TokenKind::Arrow => Ok(crossed(self.cursor.heap, 0, &[0], 1, &marks)?),
            TokenKind::OpenParen => {
                let (left, right) = self.pair(&automaton.kinds)?;
                Ok(automaton.node_cases(self.cursor.heap, &marks, &left, &right)?)
            }
            _ => Err(self.cursor.unexpected("`->` or `(`")),
        }
    }

    // The kinds of the parts of a node: `(KINDS, KINDS)`.
    fn pair(&mut self, kinds: &Names) -> Result<(Vec<u32>, Vec<u32>), Fault>
        ensures { OnOk result (ahead self.new.cursor < ahead self.old.cursor) }
    {
        self.cursor.expect(TokenKind::OpenParen)?;
        let left = self.choice(kinds, "a kind")?;
        self.cursor.expect(TokenKind::Comma)?;
        let right = self.choice(kinds, "a kind")?;
        self.cursor.expect(TokenKind::CloseParen)?;
        Ok((left, right))
    }

    // Reads which kinds are wanted, and writes the row of the type.
    fn automaton_end(&mut self, automaton: &Automaton<'_>) -> Result<(), Fault> {
        let wanted = self.listed(&automaton.kinds, "a kind or the end of the line")?;
        if self.cursor.kind() != TokenKind::CloseBrace {
            return Err(self.cursor.unexpected(TokenKind::CloseBrace));
        }
        self.automaton_row(automaton, &wanted)?;
        self.cursor.advance()
    }

    // Writes the number of kinds, the kind of each case, and the number of wanted kinds and these.
    fn automaton_row(&mut self, automaton: &Automaton<'_>, wanted: &[u32]) -> Result<(), Fault>
        requires { length wanted.now ≤ 64 }
    {
        self.words.push(automaton.kinds.count())?;
        // a case is its number, which a message names
        for case in 0..automaton.results.len() {
            let Some(kind) = automaton.results.result(case) else {
                let case = automaton.case_name(self.cursor.heap, case)?;
                return Err(self.cursor.fault(Mistake::CaseMissing { case }));
            };
            self.words.push(*kind)?;
        }
        self.words.push(wanted.len() as u32)?;
        self.words.extend_from_slice(wanted)?;
        Ok(())
    }
}
