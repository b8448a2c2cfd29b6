// What all the sections of a job are read with: the text that is left, and the words that are read.
use std::alloc::Global;
use tokens::{Cursor, Fault, Mistake};

#[derive(Drop)]
pub struct Parser<'t> {
    pub cursor: Cursor<'t>,
    pub words: Vec<u32>,
    // The job has at most so many words.
    pub most: usize,
}

impl<'t> Parser<'t> {
    ghost use Rattle.std.specs.Prelude.{◌≡◌, ◌+◌, ◌≤◌, ◌++◌, [], vec_len, length, OnOk};

    pub fn new(heap: Global, text: &'t str, most: usize) -> Parser<'t>
        ensures words { result.words.items ≡ [] }
        ensures most { result.most ≡ most }
    {
        Parser {
            cursor: Cursor::new(heap, text.as_bytes()),
            words: Vec::new(heap),
            most,
        }
    }

    // Whether there may be so many words more.
    pub fn reserve(&self, more: usize) -> Result<(), Fault>
        ensures { OnOk result (vec_len self.now.words + more ≤ self.now.most) }
    {
        match self.words.len().checked_add(more) {
            Some(len) if len <= self.most => Ok(()),
            _ => Err(self.cursor.fault(Mistake::TooLong { most: self.most })),
        }
    }

    // Writes words, of which it was asked before whether there may be so many.
    #[inline(always)]
    pub fn put(&mut self, words: &[u32]) -> Result<(), Fault>
        ensures { OnOk result (self.new.words.items ≡ self.old.words.items ++ words.now) }
    {
        self.words.extend_from_slice(words)?;
        Ok(())
    }

    // The fault of a rule that gives a case which an earlier one gives.
    pub fn given_twice(&self, start: usize, earlier: usize, case: String) -> Fault {
        let line = self.cursor.place(earlier).line;
        self.cursor
            .fault_at(start, Mistake::CaseTwice { case, line })
    }
}
