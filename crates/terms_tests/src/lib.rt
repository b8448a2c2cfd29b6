// Tests of what `terms` reads and writes. They stand in a crate of their own, so that a change of a test leaves `terms`
// proved.
#![tactic(auto)]

use std::alloc::{AllocError, Global};
use terms::{Unwritten, read_term, write_term};
use tokens::{Fault, Names, Sort};

// The marks `zero` and `one`.
pub fn zero_one(heap: Global) -> Result<Names, AllocError> {
    let mut names = Vec::new(heap);
    names.push(String::from_str(heap, "zero")?)?;
    names.push(String::from_str(heap, "one")?)?;
    Names::named(Sort::Mark, names).ok_or(AllocError)
}

// The term that is written of what is read, or what is wrong.
pub fn told(heap: Global, text: &str, most: usize) -> Result<String, AllocError> {
    let marks = zero_one(heap)?;
    let mut words = Vec::new(heap);
    match read_term(heap, text.as_bytes(), &marks, most, &mut words) {
        Err(Fault::Wrong { place, mistake }) => format!(in heap; "{place}: {mistake}"),
        Err(Fault::Memory(error)) => Err(error),
        Ok(()) => written(heap, &words, 100),
    }
}

// The term that is written of words, in at most so many bytes, or why none is.
pub fn written(heap: Global, words: &[u32], most: usize) -> Result<String, AllocError> {
    let marks = zero_one(heap)?;
    let mut text = Vec::new(heap);
    match write_term(heap, words, &marks, most, &mut text) {
        Ok(()) => String::from_utf8_lossy(heap, &text),
        Err(Unwritten::Memory(error)) => Err(error),
        Err(Unwritten::NoTree) => String::from_str(heap, "no tree"),
        Err(Unwritten::TooLong) => String::from_str(heap, "too long"),
    }
}

#[cfg(test)]
mod tests;
