// Reads a job that is written in a readable form, and gives its words, or says where it is wrong.
#![tactic(auto)]

mod automaton;
mod lists;
mod parser;
mod reader;
mod table;
mod transducer;

pub use reader::{Job, read_job, read_job_within};
pub use tokens::{Fault, Mistake, Names, Place, Sort};
