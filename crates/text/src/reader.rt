// Reads a whole job.
ghost use Rattle.std.specs.Prelude.{◌≤◌, IfOk, vec_len};

use crate::parser::Parser;
use std::alloc::Global;
use tokens::{Fault, Keyword, Mistake, Names, Sort};

// A job: what its words say, and what its marks, kinds and states are called.
#[derive(Drop)]
pub struct Job {
    pub marks: Names,
    // The kinds of what comes in.
    pub from: Names,
    pub states: Names,
    // The kinds of what is to come out.
    pub to: Names,
    pub words: Vec<u32>,
}

// Reads a job of at most `most` words. What is needed to read it is of the size of the text and of `most`.
pub fn read_job_within(heap: Global, text: &str, most: usize) -> Result<Job, Fault>
    ensures { IfOk result (λ job. vec_len job.words ≤ most) }
{
    let mut parser = Parser::new(heap, text, most);
    let marks = parser.declared(Keyword::Marks, Sort::Mark)?;
    parser.words.push(marks.count())?;
    let from = parser.automaton(Keyword::From, &marks)?;
    let states = parser.transducer(&marks)?;
    let to = parser.automaton(Keyword::To, &marks)?;
    parser.cursor.expect_end()?;
    if parser.words.len() > most {
        return Err(parser.cursor.fault(Mistake::TooLong { most }));
    }
    Ok(Job {
        marks,
        from,
        states,
        to,
        words: parser.words,
    })
}

pub fn read_job(heap: Global, text: &str) -> Result<Job, Fault> {
    read_job_within(heap, text, usize::MAX)
}
