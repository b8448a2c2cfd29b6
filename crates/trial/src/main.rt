// Holds the calls to trying: on worked cases and on jobs made at random it tries all small trees, by plain recursion and
// tables of its own, and compares what it finds with what `judge` and `turn` answer. It stops at the first difference.
#![tactic(auto)]

mod cases;
mod counts;
mod jobs;
mod judging;
mod kinds;
mod making;
mod random;
mod show;
mod trees;
mod tried;
mod turning;

use anyhow::{Context, bail};
use cases::check_cases;
use counts::Counts;
use jobs::Job;
use judging::judge_job;
use kinds::kinds_of;
use random::Random;
use std::env;
use trees::Forest;
use tried::try_trees;
use turning::turn_trees;

// Compares all answers on one job, and gives the tree that breaks it, if one does.
fn compare(
    rt: &HostRuntime,
    job: &Job,
    forest: &Forest,
    counts: &mut Counts,
) -> anyhow::Result<Option<Vec<u32>>> {
    let heap = rt.alloc();
    let words = job.row(heap)?;
    let rows = kinds_of(heap, job, &forest.trees)?;
    let tried = try_trees(heap, job, &rows)?;
    let verdict = judge_job(heap, job, &words, forest, tried)?;
    turn_trees(heap, job, &words, forest, &rows, counts)?;
    counts.judged(tried, verdict.as_deref(), forest.longest);
    counts.trees = counts.trees.saturating_add(rows.len() as u64);
    Ok(verdict)
}

// The same; a difference is told with the job.
pub fn compared(
    rt: &HostRuntime,
    job: &Job,
    forests: &[Forest],
    counts: &mut Counts,
) -> anyhow::Result<Option<Vec<u32>>> {
    let place = (job.marks as usize).saturating_sub(1);
    let forest = forests
        .get(place)
        .context("more marks than were thought of")?;
    let verdict = compare(rt, job, forest, counts);
    if let Err(error) = &verdict {
        let words = job.row(rt.alloc())?;
        println!(rt; "{error}\n{words:?}\n{job}")?;
    }
    verdict
}

// All trees of at most nine leaves and nodes with one, two or three marks; with one mark, of at most 21.
fn forests(rt: &HostRuntime) -> anyhow::Result<Vec<Forest>> {
    let mut forests = Vec::new(rt.alloc());
    forests.push(Forest::new(rt.alloc(), 1, 10)?)?;
    forests.push(Forest::new(rt.alloc(), 2, 4)?)?;
    forests.push(Forest::new(rt.alloc(), 3, 4)?)?;
    Ok(forests)
}

// The seed and the number of jobs, from the words after the program's name.
fn asked(rt: &HostRuntime) -> anyhow::Result<(u64, u32)> {
    let mut args = env::args(rt)?.skip(1);
    let (Some(seed), Some(jobs)) = (args.next(), args.next()) else {
        bail!("usage: trial SEED JOBS");
    };
    Ok((seed.as_str().parse::<u64>()?, jobs.as_str().parse::<u32>()?))
}

fn run(rt: &HostRuntime) -> anyhow::Result<()> {
    let (seed, jobs) = asked(rt)?;
    let forests = forests(rt)?;
    check_cases(rt, forests.as_slice())?;
    let mut random = Random::new(seed);
    let mut counts = Counts::default();
    for _ in 0..jobs {
        let job = random.job(rt.alloc())?;
        compared(rt, &job, forests.as_slice(), &mut counts)?;
    }
    print!(rt; "{counts}")?;
    Ok(())
}

fn main(rt: HostRuntime) -> anyhow::Result<()> {
    run(&rt)
}
