// Turns trees, one to a line, by the job in a file.
#![tactic(auto)]

mod buffers;
mod failure;
mod lines;
mod refusal;

use buffers::{Buffers, LIMITS};
use failure::{Failure, USAGE};
use lines::Lines;
use refusal::RefusedLine;
use sources::read_job;
use std::io::{Read, Write};
use std::process::ExitCode;
use std::{env, fs, io};
use text::Job;

// What the words after the program's name ask for.
#[derive(Drop)]
enum Request {
    Help,
    Turn {
        job: String,
        // Standard input, where no file is named.
        trees: Option<String>,
    },
}

fn asked(rt: &HostRuntime) -> Result<Request, Failure> {
    let mut args = env::args(rt)?.skip(1);
    let job = args.next().ok_or(Failure::Usage)?;
    if job.as_str() == "--help" {
        return Ok(Request::Help);
    }
    let trees = args.next();
    if args.next().is_some() {
        return Err(Failure::Usage);
    }
    Ok(Request::Turn { job, trees })
}

fn put(rt: &HostRuntime, line: &[u8]) -> io::Result<()> {
    let mut out = rt.stdout();
    out.write_all(line)?;
    out.flush()
}

// Answers each line before it reads the next: with its result, or with `-` and why there is none. Succeeds if all had one.
fn turn_lines<R: Read + Drop>(rt: &HostRuntime, job: &Job, input: R) -> Result<ExitCode, Failure> {
    let mut buffers = Buffers::new(rt.alloc())?;
    let mut lines = Lines::new(rt.alloc(), input).map_err(Failure::Block)?;
    let mut status = ExitCode::SUCCESS;
    // by number, which a refusal tells; `Lines` is no iterator, since it reads into a buffer that is lent
    for number in 1..u64::MAX {
        let Some(line) = lines.next(&mut buffers.line)? else {
            break;
        };
        match line.and_then(|()| buffers.turn(rt.alloc(), job)) {
            Ok(()) => put(rt, &buffers.text)?,
            Err(reason) => {
                status = ExitCode::FAILURE;
                put(rt, b"-\n")?;
                let line = RefusedLine { number, reason };
                eprintln!(rt; "{line}")?;
            }
        }
    }
    Ok(status)
}

fn turn_file(rt: &HostRuntime, job: &Job, file: String) -> Result<ExitCode, Failure> {
    let input = fs::open(rt, file.as_str()).map_err(|error| Failure::Trees { file, error })?;
    turn_lines(rt, job, input)
}

fn run(rt: &HostRuntime) -> Result<ExitCode, Failure> {
    match asked(rt)? {
        Request::Help => {
            println!(rt; "{USAGE}")?;
            Ok(ExitCode::SUCCESS)
        }
        Request::Turn { job, trees } => {
            let mut job = read_job(rt, job, LIMITS)?;
            job.words.shrink_to_fit();
            match trees {
                Some(file) => turn_file(rt, &job, file),
                None => turn_lines(rt, &job, rt.stdin()),
            }
        }
    }
}

fn main(rt: HostRuntime) -> ExitCode {
    match run(&rt) {
        Ok(status) => status,
        Err(failure) => {
            let _ = eprintln!(rt; "{failure}");
            ExitCode::FAILURE
        }
    }
}
