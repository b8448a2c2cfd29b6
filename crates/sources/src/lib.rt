// A job, from its file.
#![tactic(auto)]

ghost use Rattle.std.specs.Prelude.{◌≤◌, length, vec_len, IfOk, OnOk};

use std::alloc::{AllocError, Global};
use std::io::Read;
use std::rt::Files;
use std::{fs, io};
use text::{Fault, Job, Mistake, Place, read_job_within};
use thiserror::Error;

// How large a job may be.
#[derive(Clone, Copy, Debug, PartialEq, Eq)]
pub struct Limits {
    // The bytes of its file.
    pub bytes: usize,
    // The words that are read from them.
    pub words: usize,
}

// Why a file gives no job.
#[derive(Debug, Drop, Error)]
pub enum JobError {
    #[error("not enough memory")]
    Memory(#[from(alloc)] AllocError),
    #[error("{file}: {error}")]
    File {
        file: String,
        error: io::Error,
    },
    #[error("{file}: the job's text is larger than {most} bytes")]
    TooLarge {
        file: String,
        most: usize,
    },
    #[error("{file}:{place}: the file is not UTF-8")]
    NotText {
        file: String,
        place: Place,
    },
    #[error("{file}:{place}: {mistake}")]
    Wrong {
        file: String,
        place: Place,
        mistake: Mistake,
    },
}

// The job that the bytes of a file say.
pub fn parse_job(heap: Global, file: String, bytes: &[u8], limits: Limits) -> Result<Job, JobError>
    ensures bytes { OnOk result (length bytes.now ≤ limits.bytes) }
    ensures words { IfOk result (λ job. vec_len job.words ≤ limits.words) }
{
    if bytes.len() > limits.bytes {
        return Err(JobError::TooLarge {
            file,
            most: limits.bytes,
        });
    }
    // a match, here and below: both ways need `file`, which the closure of a `map_err` would take
    let text = match std::str::from_utf8(bytes) {
        Ok(text) => text,
        Err(error) => {
            let place = Place::of(bytes, error.valid_up_to());
            return Err(JobError::NotText { file, place });
        }
    };
    read_job_within(heap, text, limits.words).map_err(|fault| match fault {
        Fault::Memory(error) => JobError::Memory(error),
        Fault::Wrong { place, mistake } => JobError::Wrong {
            file,
            place,
            mistake,
        },
    })
}

// The bytes of a file, and no more than one byte more than it may have.
fn read_bytes(rt: &HostRuntime, file: &str, most: usize) -> io::Result<Vec<u8>> {
    let mut bytes = Vec::new(rt.alloc());
    let mut input = fs::open(rt, file)?.take((most as u64).saturating_add(1));
    input.read_to_end(&mut bytes)?;
    Ok(bytes)
}

// Reads a job from a file.
pub fn read_job(rt: &HostRuntime, file: String, limits: Limits) -> Result<Job, JobError>
    ensures { IfOk result (λ job. vec_len job.words ≤ limits.words) }
{
    match read_bytes(rt, file.as_str(), limits.bytes) {
        Ok(bytes) => parse_job(rt.alloc(), file, &bytes, limits),
        Err(error) => Err(JobError::File { file, error }),
    }
}

#[cfg(test)]
mod tests;
