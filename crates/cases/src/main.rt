// Runs the readers and the calls on the worked case, on jobs and trees at their limits, and on bad input of every sort.
#![tactic(auto)]

mod jobs;
mod turns;

use jobs::{LARGEST, SAMPLE, Sizes, left_comb, right_comb};
use made_jobs::SWAP;
use rows::jobs::{JobPlaces, JobRefusal, KnownJob, read_job};
use rows::trees::read_tree;
use std::alloc::{AllocError, Global};

// What the reader says of a job.
fn read(heap: Global, job: &[u32]) -> Result<Result<JobPlaces, JobRefusal>, AllocError> {
    let mut index = vec![in heap; 0u32; job.len()]?;
    Ok(read_job(job, &mut index))
}

// The same, in the words of this program's output.
fn job_answer(heap: Global, job: &[u32]) -> Result<&'static str, AllocError> {
    match read(heap, job)? {
        Ok(_) => Ok("a job"),
        Err(JobRefusal::NoJob) => Ok("no job"),
        Err(JobRefusal::NoRoom) => Ok("no room"),
    }
}

// The kind of a tree in the job's first type.
fn tree_kind(heap: Global, job: &[u32], tree: &[u32]) -> Result<Option<u32>, AllocError> {
    let mut index = vec![in heap; 0u32; job.len()]?;
    let mut ends = vec![in heap; 0u32; tree.len()]?;
    let mut kinds = vec![in heap; 0u32; tree.len()]?;
    // no `and_then`: the reader's promise, which `KnownJob` asks for, is of this match
    let Ok(places) = read_job(job, &mut index) else {
        return Ok(None);
    };
    let known = KnownJob {
        words: job,
        index: &index,
        places,
    };
    Ok(read_tree(known.from_type(), tree, &mut ends, &mut kinds))
}

fn show_job(rt: &HostRuntime, name: &str, job: &[u32]) -> anyhow::Result<()> {
    let answer = job_answer(rt.alloc(), job)?;
    let words = job.len();
    println!(rt; "{name}: {words} words, {answer}")?;
    Ok(())
}

fn show_tree(rt: &HostRuntime, name: &str, tree: &[u32]) -> anyhow::Result<()> {
    match tree_kind(rt.alloc(), &SWAP, tree)? {
        Some(kind) => println!(rt; "{name}: kind {kind}")?,
        None => println!(rt; "{name}: no tree")?,
    }
    Ok(())
}

// How many beginnings of a job are jobs themselves. (Counted in a `for`, here and below: each reading may fail, and a `try_fold` would
// be no plainer.)
fn beginnings(heap: Global, job: &[u32]) -> Result<u32, AllocError> {
    let mut jobs = 0u32;
    for n in 0..job.len() {
        if read(heap, &job[0..n])?.is_ok() {
            jobs = jobs.saturating_add(1);
        }
    }
    Ok(jobs)
}

// Some words with others put in at a place, in the stead of `gone` words.
fn spliced(
    heap: Global,
    job: &[u32],
    at: usize,
    gone: usize,
    words: &[u32],
) -> Result<Vec<u32>, AllocError> {
    let behind = job.iter().skip(at).skip(gone);
    job.iter()
        .take(at)
        .chain(words)
        .chain(behind)
        .copied()
        .collect(heap)
}

// How many jobs come of a job when the word at a place is given any other value up to 70, or the largest.
fn changed_at(heap: Global, job: &[u32], at: usize, word: u32) -> Result<u32, AllocError> {
    let mut jobs = 0u32;
    for v in (0..=70).chain([u32::MAX]) {
        if v != word && read(heap, &spliced(heap, job, at, 1, &[v])?)?.is_ok() {
            jobs = jobs.saturating_add(1);
        }
    }
    Ok(jobs)
}

fn changed(heap: Global, job: &[u32]) -> Result<u32, AllocError> {
    let mut jobs = 0u32;
    for (at, word) in job.iter().enumerate() {
        jobs = jobs.saturating_add(changed_at(heap, job, at, *word)?);
    }
    Ok(jobs)
}

fn show_sizes(rt: &HostRuntime, s: Sizes) -> anyhow::Result<()> {
    let job = s.job(rt.alloc())?;
    let answer = job_answer(rt.alloc(), &job)?;
    let words = job.len();
    println!(rt; "{s}: {words} words, {answer}")?;
    Ok(())
}

// Each number at its limits, and one past them.
fn limits(rt: &HostRuntime) -> anyhow::Result<()> {
    let small = Sizes {
        marks: 1,
        kinds: 1,
        states: 1,
        depth: 1,
    };
    for n in [0, 1, 64, 65] {
        show_sizes(rt, Sizes { marks: n, ..small })?;
        show_sizes(rt, Sizes { kinds: n, ..small })?;
        show_sizes(rt, Sizes { states: n, ..small })?;
    }
    for n in [2, 64, 65] {
        show_sizes(rt, Sizes { depth: n, ..small })?;
    }
    show_sizes(rt, LARGEST)
}

fn bad_jobs(rt: &HostRuntime) -> anyhow::Result<()> {
    let heap = rt.alloc();
    show_job(rt, "empty", &[])?;
    let behind = spliced(heap, &SWAP, 48, 0, &[0])?;
    show_job(rt, "a word behind the end", &behind)?;
    let lists = spliced(heap, &SWAP, 12, 1, &[u32::MAX])?;
    show_job(rt, "2^32 - 1 wanted kinds announced", &lists)?;
    let part = spliced(heap, &SWAP, 15, 2, &[2, 0, 0])?;
    show_job(rt, "a leaf pattern that uses a part", &part)?;
    let n = beginnings(heap, &SWAP)?;
    println!(rt; "beginnings of swap that are jobs: {n}")?;
    let n = changed(heap, &SWAP)?;
    println!(rt; "changes of one word of swap that are jobs: {n}")?;
    Ok(())
}

// What is written as a tree, and what only looks like one.
const TREES: [(&str, &[u32]); 11] = [
    ("sample", &SAMPLE),
    ("leaf 1", &[0, 1]),
    ("no words", &[]),
    ("one word", &[0]),
    ("a mark that is not below 2", &[0, 2]),
    ("a node's mark that is not below 2", &[1, 2, 0, 0, 0, 0]),
    ("a node without parts", &[1, 0]),
    ("a node without its right part", &[1, 0, 0, 0]),
    ("two trees", &[0, 0, 0, 0]),
    ("a tree and a word", &[0, 0, 0]),
    ("neither leaf nor node", &[2, 0, 0, 0, 0, 0]),
];

fn trees(rt: &HostRuntime) -> anyhow::Result<()> {
    for (name, tree) in TREES {
        show_tree(rt, name, tree)?;
    }
    let right = right_comb(rt.alloc(), 1_000_000)?;
    show_tree(rt, "a million nodes to the right", &right)?;
    let left = left_comb(rt.alloc(), 1_000_001)?;
    show_tree(rt, "a million and one nodes to the left", &left)
}

fn run(rt: &HostRuntime) -> anyhow::Result<()> {
    show_job(rt, "swap", &SWAP)?;
    bad_jobs(rt)?;
    limits(rt)?;
    trees(rt)?;
    turns::show_turns(rt)
}

fn main(rt: HostRuntime) -> anyhow::Result<()> {
    run(&rt)
}
