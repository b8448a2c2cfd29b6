// Reads a job from a file, and says how large it is, or where it is wrong.
#![tactic(auto)]

use rows::jobs::JobPlaces;
use sources::{JobError, Limits, read_job};
use std::alloc::AllocError;
use std::process::ExitCode;
use std::{env, fmt, io};
use thiserror::Error;

const USAGE: &str =
    "usage: judge JOB\nReads the job in the file JOB, and says how large it is, or where it is wrong.";

// A larger file is refused; what is read from it may have as many words as it has.
const LIMITS: Limits = Limits {
    bytes: 1 << 20,
    words: usize::MAX,
};

// Why there is no answer.
#[derive(Debug, Drop, Error)]
enum Failure {
    #[error("{usage}", usage = USAGE)]
    Usage,
    #[error("judge: not enough memory")]
    Memory(#[from(alloc)] AllocError),
    #[error(transparent)]
    Job(JobError),
    // in MiB here, and in bytes elsewhere
    #[error("{file}: the file is larger than 1 MiB")]
    TooLarge { file: String },
    // The words that were read from a file are no job.
    #[error("{file}: no job")]
    NoJob { file: String },
    #[error("judge: {0}")]
    Input(#[from] io::Error),
}

impl From<JobError> for Failure {
    fn from(error: JobError) -> Failure {
        match error {
            JobError::Memory(error) => Failure::Memory(error),
            JobError::TooLarge { file, most: _ } => Failure::TooLarge { file },
            error => Failure::Job(error),
        }
    }
}

// So many things: `1 state`, `2 states`.
#[derive(Drop)]
struct Counted(usize, &'static str);

impl fmt::Display for Counted {
    fn fmt<W: fmt::Write>(&self, f: &mut fmt::Formatter<W>) -> fmt::Result {
        let count = self.0;
        let thing = self.1;
        if count == 1 {
            write!(f, "{count} {thing}")
        } else {
            write!(f, "{count} {thing}s")
        }
    }
}

// Where the parts of the job stand in its words.
fn read_words(rt: &HostRuntime, file: String, words: &[u32]) -> Result<JobPlaces, Failure> {
    let mut index = vec![in rt.alloc(); 0u32; words.len()]?;
    rows::jobs::read_job(words, index.as_mut_slice()).map_err(|_| Failure::NoJob { file })
}

fn describe(rt: &HostRuntime, job: JobPlaces, words: usize) -> io::Result<()> {
    let marks = Counted(job.marks as usize, "mark");
    let from = Counted(job.from.kinds as usize, "kind");
    let states = Counted(job.turn.states as usize, "state");
    let to = Counted(job.to.kinds as usize, "kind");
    let words = Counted(words, "word");
    println!(rt; "job: {marks}, {from} in, {states}, {to} out, {words}")
}

fn run(rt: &HostRuntime) -> Result<(), Failure> {
    let mut args = env::args(rt)?.skip(1);
    let file = args.next().ok_or(Failure::Usage)?;
    if args.next().is_some() {
        return Err(Failure::Usage);
    }
    if file.as_str() == "--help" {
        println!(rt; "{USAGE}")?;
        return Ok(());
    }
    let job = read_job(rt, file.clone()?, LIMITS)?;
    let words = job.words.as_slice();
    let places = read_words(rt, file, words)?;
    describe(rt, places, words.len())?;
    Ok(())
}

fn main(rt: HostRuntime) -> ExitCode {
    match run(&rt) {
        Ok(()) => ExitCode::SUCCESS,
        Err(failure) => {
            let _ = eprintln!(rt; "{failure}");
            ExitCode::FAILURE
        }
    }
}
