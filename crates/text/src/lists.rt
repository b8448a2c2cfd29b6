// Lists of names. One behind a keyword ends with its line; one in the left side of a rule has `|` between its names.
ghost use Rattle.std.specs.Prelude.{◌≡◌, ◌+◌, ◌<◌, ◌≤◌, IfOk, vec_len, OnOk};
ghost use Rattle.tokens.specs.Progress.{ahead};

use crate::parser::Parser;
use tokens::{Fault, Keyword, MOST, Mistake, Names, Sort, TokenKind};

impl Parser<'_> {
    // The beginning of a section: its keyword, a brace, and the things that it declares.
    pub fn section(
        &mut self,
        keyword: Keyword,
        declares: Keyword,
        sort: Sort,
    ) -> Result<Names, Fault>
        ensures { IfOk result (λ names. names.sort ≡ sort) }
    {
        self.cursor.expect(TokenKind::Reserved(keyword))?;
        self.cursor.expect(TokenKind::OpenBrace)?;
        self.declared(declares, sort)
    }

    // The things that a keyword declares: their number, or their names.
    pub fn declared(&mut self, keyword: Keyword, sort: Sort) -> Result<Names, Fault>
        ensures { IfOk result (λ names. names.sort ≡ sort) }
    {
        self.cursor.expect(TokenKind::Reserved(keyword))?;
        match self.cursor.kind() {
            TokenKind::Number(count) if !self.cursor.starts_line() => self.numbered(count, sort),
            _ => self.named(sort),
        }
    }

    fn end_line(&self, expected: &'static str) -> Result<(), Fault> {
        if self.cursor.starts_line() {
            Ok(())
        } else {
            Err(self.cursor.unexpected(expected))
        }
    }

    fn numbered(&mut self, count: u32, sort: Sort) -> Result<Names, Fault>
        ensures { IfOk result (λ names. names.sort ≡ sort) }
    {
        let names = Names::numbered(sort, count).ok_or_else(|| self
            .cursor
            .fault(Mistake::Count { sort }))?;
        self.cursor.advance()?;
        self.end_line("the end of the line")?;
        Ok(names)
    }

    fn named(&mut self, sort: Sort) -> Result<Names, Fault>
        ensures { IfOk result (λ names. names.sort ≡ sort) }
    {
        let mut names = Vec::new(self.cursor.heap);
        while self.cursor.kind() == TokenKind::Name && !self.cursor.starts_line() {
            self.declare(&mut names, sort)?;
        }
        if names.is_empty() {
            return Err(
                self.cursor
                    .unexpected("a number or a name on the same line"),
            );
        }
        self.end_line("a name or the end of the line")?;
        Names::named(sort, names).ok_or_else(|| self.cursor.fault(Mistake::Count { sort }))
    }

    // Adds the token, a name, to those before it.
    fn declare(&mut self, names: &mut Vec<String>, sort: Sort) -> Result<(), Fault>
        ensures { OnOk result (ahead self.new.cursor < ahead self.old.cursor) }
    {
        let lexeme = self.cursor.lexeme();
        let name = self.cursor.shown(lexeme)?;
        if names.len() >= MOST as usize {
            return Err(self.cursor.fault(Mistake::Count { sort }));
        }
        if names.iter().any(|other| other.as_bytes() == lexeme) {
            return Err(self.cursor.fault(Mistake::NameTwice { sort, name }));
        }
        names.push(name)?;
        self.cursor.advance()
    }

    // One thing more, which is not yet among those that are listed.
    fn choose(
        &mut self,
        chosen: &mut Vec<u32>,
        names: &Names,
        expected: &'static str,
    ) -> Result<(), Fault>
        ensures { OnOk result ((ahead self.new.cursor < ahead self.old.cursor) × (vec_len chosen.new ≡ vec_len chosen.old + 1)) }
    {
        let word = self.cursor.word(expected)?;
        let index = word.resolve(&self.cursor, names)?;
        if chosen.contains(&index) {
            let sort = names.sort();
            let name = self.cursor.shown(word.text)?;
            return Err(
                self.cursor
                    .fault_at(word.offset, Mistake::NameTwice { sort, name }),
            );
        }
        chosen.push(index)?;
        Ok(())
    }

    // The things that are listed to the end of the line, perhaps none.
    pub fn listed(&mut self, names: &Names, expected: &'static str) -> Result<Vec<u32>, Fault>
        ensures { IfOk result (λ chosen. vec_len chosen ≤ names.now.count) }
    {
        let mut chosen = Vec::new(self.cursor.heap);
        let count = names.count() as usize;
        while !self.cursor.starts_line() && chosen.len() < count {
            self.choose(&mut chosen, names, expected)?;
        }
        self.end_line("the end of the line")?;
        Ok(chosen)
    }

    // A place in the left side of a rule: `_` for all, or one or more with `|` between them.
    pub fn choice(&mut self, names: &Names, expected: &'static str) -> Result<Vec<u32>, Fault>
        ensures { OnOk result (ahead self.new.cursor < ahead self.old.cursor) }
    {
        if self.cursor.kind() == TokenKind::Underscore {
            self.cursor.advance()?;
            return Ok((0..names.count()).collect(self.cursor.heap)?);
        }
        let mut chosen = Vec::new(self.cursor.heap);
        self.choose(&mut chosen, names, expected)?;
        while self.cursor.kind() == TokenKind::Bar {
            self.cursor.advance()?;
            self.choose(&mut chosen, names, expected)?;
        }
        Ok(chosen)
    }
}
