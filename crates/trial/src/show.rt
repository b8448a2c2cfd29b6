// A job in its readable form, with numbers for marks, kinds and states.
use crate::jobs::{Job, Pattern, Side, Type};
use crate::trees::Tree;
use std::fmt;

impl fmt::Display for Pattern {
    fn fmt<W: fmt::Write>(&self, f: &mut fmt::Formatter<W>) -> fmt::Result {
        match self {
            Pattern::Leaf(mark) => write!(f, "{mark}"),
            Pattern::Node(mark, left, right) => write!(f, "{mark}({left}, {right})"),
            Pattern::Part(state, Side::Left) => write!(f, "{state}(left)"),
            Pattern::Part(state, Side::Right) => write!(f, "{state}(right)"),
        }
    }
}

// The rules of a state at a mark.
fn show_state<W: fmt::Write>(
    job: &Job,
    state: u32,
    mark: u32,
    f: &mut fmt::Formatter<W>,
) -> fmt::Result {
    if let Some(pattern) = job.pattern(state, Tree::Leaf(mark)) {
        write!(f, "  {state}({mark}) -> {pattern}")?;
    }
    if let Some(pattern) = job.pattern(state, Tree::Node(mark, 0, 0)) {
        write!(f, "\n  {state}({mark}(left, right)) -> {pattern}")?;
    }
    f.write_str("\n")
}

impl Type {
    // The rules of a type at a mark and a left part of this kind.
    fn show_kinds<W: fmt::Write>(
        &self,
        mark: usize,
        left: u32,
        f: &mut fmt::Formatter<W>,
    ) -> fmt::Result {
        let mark = u32::try_from(mark).unwrap_or(u32::MAX);
        for right in 0..self.kinds {
            let kind = self.node(mark, left, right).unwrap_or(0);
            writeln!(f, "  {mark}({left}, {right}) -> {kind}")?;
        }
        Ok(())
    }
}

impl fmt::Display for Type {
    fn fmt<W: fmt::Write>(&self, f: &mut fmt::Formatter<W>) -> fmt::Result {
        let kinds = self.kinds;
        writeln!(f, " {{\n  kinds {kinds}")?;
        for (mark, kind) in self.leaves.iter().enumerate() {
            writeln!(f, "  {mark} -> {kind}")?;
            for left in 0..kinds {
                self.show_kinds(mark, left, f)?;
            }
        }
        f.write_str("  wanted")?;
        for kind in &self.wanted {
            write!(f, " {kind}")?;
        }
        f.write_str("\n}\n")
    }
}

impl fmt::Display for Job {
    fn fmt<W: fmt::Write>(&self, f: &mut fmt::Formatter<W>) -> fmt::Result {
        let (marks, states) = (self.marks, self.turn.states);
        let (from, to) = (&self.from, &self.to);
        write!(f, "marks {marks}\nfrom{from}turn {{\n  states {states}\n")?;
        for state in 0..states {
            for mark in 0..marks {
                show_state(self, state, mark, f)?;
            }
        }
        write!(f, "}}\nto{to}")
    }
}
