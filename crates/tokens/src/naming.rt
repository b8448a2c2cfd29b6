// The names of the marks, kinds or states of a job.
ghost use Rattle.std.specs.Prelude.{◌≡◌, ◌<◌, ◌≤◌, IfSome, vec_len};

use crate::mistakes::Sort;
use std::alloc::{AllocError, Global};

// There are at most so many marks, kinds and states. (`rows` has limits of its own: it checks words, and a text has a place to tell.)
pub const MOST: u32 = 64;

// 1 to 64 things, counted from 0. They have names, or are written as numbers: then their count is all there is.
#[derive(Drop)]
pub struct Names {
    sort: Sort,
    count: u32,
    // The names in order; none where the things are written as numbers.
    names: Option<Vec<String>>,
    ghost some: { 1 ≤ count },
    ghost few: { count ≤ 64 },
    ghost named: { ∥ IfSome names (λ all. vec_len all ≡ count) ∥₁ },
}

impl Names {
    // So many things without names, if there may be so many.
    pub fn numbered(sort: Sort, count: u32) -> Option<Names>
        ensures sort { IfSome result (λ names. names.sort ≡ sort) }
        ensures count { IfSome result (λ names. names.count ≡ count) }
    {
        if !(1..=MOST).contains(&count) {
            return None;
        }
        Some(Names {
            sort,
            count,
            names: None,
        })
    }

    // Things with these names, if there may be so many.
    pub fn named(sort: Sort, names: Vec<String>) -> Option<Names>
        ensures sort { IfSome result (λ all. all.sort ≡ sort) }
        ensures count { IfSome result (λ all. all.count ≡ vec_len names) }
    {
        let count = u32::try_from(names.len()).ok()?;
        if !(1..=MOST).contains(&count) {
            return None;
        }
        Some(Names {
            sort,
            count,
            names: Some(names),
        })
    }

    pub fn sort(&self) -> Sort
        ensures { result ≡ self.now.sort }
    {
        self.sort
    }

    pub fn count(&self) -> u32
        ensures value { result ≡ self.now.count }
        ensures some { 1 ≤ result }
        ensures few { result ≤ 64 }
    {
        self.count
    }

    pub fn find(&self, name: &[u8]) -> Option<u32>
        ensures { IfSome result (λ i. i < self.now.count) }
    {
        let names = self.names.as_ref()?;
        names
            .iter()
            .position(|other| other.as_bytes() == name)
            .map(|i| i as u32)
    }

    // The name of a thing, or its number.
    pub fn name(&self, heap: Global, index: usize) -> Result<String, AllocError> {
        match self.names.as_ref().and_then(|names| names.get(index)) {
            Some(name) => name.clone(),
            None => format!(in heap; "{index}"),
        }
    }
}
