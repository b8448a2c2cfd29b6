// A tree turned: patterns are filled in one step at a time, with frames in lent words.
#![tactic(auto)]

pub mod frames;
pub mod sinks;
pub mod source;
pub mod walks;
