// Tests of what `text` reads. They stand in a crate of their own, so that a change of a test leaves `text` proved.
#![tactic(auto)]

use std::alloc::{AllocError, Global};
use text::{Fault, read_job};

// The place and the message of the mistake in a text, or `none`. (The tests of `terms` have one for their own reader.)
pub fn told(heap: Global, text: &str) -> Result<String, AllocError> {
    match read_job(heap, text) {
        Err(Fault::Wrong { place, mistake }) => format!(in heap; "{place}: {mistake}"),
        Err(Fault::Memory(error)) => Err(error),
        Ok(_) => String::from_str(heap, "none"),
    }
}

#[cfg(test)]
mod tests;
