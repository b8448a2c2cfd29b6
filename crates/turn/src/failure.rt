// Why the program stops, or ends with an error.
use sources::JobError;
use std::alloc::AllocError;
use std::io;
use thiserror::Error;

pub const USAGE: &str = "usage: turn JOB [TREES]
Turns trees by the job in the file JOB. The trees are terms, one to a line, of the file TREES or of standard input.
For each line it writes a line: the result, or `-` where there is none. Standard error then has the line's number and
the reason, and the status is 1.";

#[derive(Debug, Drop, Error)]
pub enum Failure {
    #[error("{usage}", usage = USAGE)]
    Usage,
    #[error("turn: not enough memory")]
    Memory(#[from(alloc)] AllocError),
    // There is none for the block of input: all that a reader that is being made says wrong.
    #[error("turn: not enough memory")]
    Block(io::Error),
    #[error(transparent)]
    Job(JobError),
    // The file of the trees cannot be opened.
    #[error("{file}: {error}")]
    Trees { file: String, error: io::Error },
    // Standard input or output failed, or the file of the trees.
    #[error("turn: {0}")]
    Stream(#[from] io::Error),
}

impl From<JobError> for Failure {
    fn from(error: JobError) -> Failure {
        match error {
            JobError::Memory(error) => Failure::Memory(error),
            error => Failure::Job(error),
        }
    }
}
