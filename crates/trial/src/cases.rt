// Worked cases, with the answers that are known of them.
use crate::compared;
use crate::counts::Counts;
use crate::jobs::{Job, Pattern, Side, Turn, Type};
use crate::making::{MARKS, turn_by, type_by};
use crate::trees::Forest;
use anyhow::ensure;
use std::alloc::{AllocError, Global};
use turned::{Unturned, turn};

// The job, all trees of at most nine leaves and nodes tried, breaks by this tree, or fits if there is none.
fn check(
    rt: &HostRuntime,
    forests: &[Forest],
    name: &str,
    job: &Job,
    known: Option<&[u32]>,
) -> anyhow::Result<()> {
    let mut counts = Counts::default();
    let verdict = compared(rt, job, forests, &mut counts)?;
    let classes = counts.most_classes;
    let words = job.row(rt.alloc())?.len();
    match &verdict {
        None => {
            println!(rt; "{name}: {words} words, {classes} classes, fits")?;
            ensure!(known.is_none(), "it is known to break");
        }
        Some(tree) => {
            let size = tree.len() / 2;
            println!(rt;
                "{name}: {words} words, {classes} classes, breaks by {size} leaves and nodes"
            )?;
            ensure!(
                known == Some(tree.as_slice()),
                "it is known to break by another tree"
            );
        }
    }
    Ok(())
}

// What state 0 makes of the part on a side.
fn part(side: Side) -> Pattern {
    Pattern::Part(0, side)
}

// Kind 0 of all.
fn any(heap: Global, wanted: &[u32]) -> Result<Type, AllocError> {
    type_by(heap, 1, |_| 0, |_, _, _| 0, wanted)
}

// 0 if the number of leaves marked 1 is even, else 1.
fn parity(heap: Global, wanted: &[u32]) -> Result<Type, AllocError> {
    type_by(heap, 2, |mark| mark, |_, left, right| left ^ right, wanted)
}

// 0 if no leaf is marked 1, else 1.
fn no_ones(heap: Global, wanted: &[u32]) -> Result<Type, AllocError> {
    type_by(heap, 2, |mark| mark, |_, left, right| left | right, wanted)
}

// 0 if it is the leaf 0, else 1.
fn zero_leaf(heap: Global, wanted: &[u32]) -> Result<Type, AllocError> {
    type_by(heap, 2, |mark| mark, |_, _, _| 1, wanted)
}

// 0 if all marks are 0, else 1.
fn zeros(heap: Global, wanted: &[u32]) -> Result<Type, AllocError> {
    type_by(
        heap,
        2,
        |mark| mark,
        |mark, left, right| mark | left | right,
        wanted,
    )
}

// 0 the leaf 0; 1 the leaf 1; 2 a list, that is nodes 0 whose left part is a leaf, ending in a leaf 0; else 3.
fn list(heap: Global, wanted: &[u32]) -> Result<Type, AllocError> {
    type_by(
        heap,
        4,
        |mark| mark,
        |mark, left, right| {
            if mark == 0 && left < 2 && right % 2 == 0 {
                2
            } else {
                3
            }
        },
        wanted,
    )
}

// The number of leaves modulo 60.
fn modulo(heap: Global, wanted: &[u32]) -> Result<Type, AllocError> {
    type_by(
        heap,
        60,
        |_| 1,
        |_, left, right| left.saturating_add(right) % 60,
        wanted,
    )
}

// The number of leaves, up to 59.
fn up_to(heap: Global, wanted: &[u32]) -> Result<Type, AllocError> {
    type_by(
        heap,
        60,
        |_| 1,
        |_, left, right| left.saturating_add(right).min(59),
        wanted,
    )
}

// A leaf stays, and of a node a(l, r) comes a(l, r).
fn same(heap: Global) -> Result<Turn, AllocError> {
    turn_by(
        heap,
        1,
        |mark| Pattern::Leaf(mark),
        |mark| Pattern::node(heap, mark, part(Side::Left), part(Side::Right)),
    )
}

// A leaf stays, and of every node a(l, r) comes the node with this mark over these parts.
fn joining(heap: Global, mark: u32, left: Side, right: Side) -> Result<Turn, AllocError> {
    turn_by(
        heap,
        1,
        |mark| Pattern::Leaf(mark),
        |_| Pattern::node(heap, mark, part(left), part(right)),
    )
}

fn job_of(from: Type, turn: Turn, to: Type) -> Job {
    Job {
        marks: MARKS,
        from,
        turn,
        to,
    }
}

// So many nodes 0 in a row to the right, every left part a leaf 0.
fn comb(heap: Global, nodes: usize) -> Result<Vec<u32>, AllocError> {
    let mut tree = [1, 0, 0, 0].repeat(heap, nodes)?;
    tree.extend_from_slice(&[0, 0])?;
    Ok(tree)
}

// Of a node a(l, r) comes 1(r, l).
fn exchanged(heap: Global) -> Result<Job, AllocError> {
    let turn = joining(heap, 1, Side::Right, Side::Left)?;
    Ok(job_of(parity(heap, &[0])?, turn, parity(heap, &[0])?))
}

// Of a node a(l, r) comes 1(l, l).
fn left_twice(heap: Global) -> Result<Job, AllocError> {
    let turn = joining(heap, 1, Side::Left, Side::Left)?;
    Ok(job_of(parity(heap, &[0])?, turn, no_ones(heap, &[0])?))
}

// Of everything comes a leaf 0.
fn zero(heap: Global) -> Result<Job, AllocError> {
    let turn = turn_by(heap, 1, |_| Pattern::Leaf(0), |_| Ok(Pattern::Leaf(0)))?;
    Ok(job_of(any(heap, &[0])?, turn, zero_leaf(heap, &[0])?))
}

// Of a node a(l, r) comes a(0, r), the 0 by a second state.
fn left_zero(heap: Global) -> Result<Job, AllocError> {
    let turn = turn_by(
        heap,
        2,
        |mark| Pattern::Leaf(mark),
        |mark| Pattern::node(heap, mark, Pattern::Part(1, Side::Left), part(Side::Right)),
    )?;
    Ok(job_of(list(heap, &[0, 2])?, turn, zeros(heap, &[0])?))
}

fn nothing_in(heap: Global) -> Result<Job, AllocError> {
    Ok(job_of(any(heap, &[])?, same(heap)?, no_ones(heap, &[0])?))
}

fn nothing_out(heap: Global) -> Result<Job, AllocError> {
    Ok(job_of(any(heap, &[0])?, same(heap)?, any(heap, &[])?))
}

fn counting(heap: Global) -> Result<Job, AllocError> {
    let below: Vec<u32> = (0..59u32).collect(heap)?;
    Ok(job_of(modulo(heap, &[59])?, same(heap)?, up_to(heap, &below)?))
}

// Of a node a(l, r) comes 0(r, r).
fn right_twice(heap: Global) -> Result<Job, AllocError> {
    let turn = joining(heap, 0, Side::Right, Side::Right)?;
    Ok(job_of(any(heap, &[0])?, turn, any(heap, &[0])?))
}

// On 200 nodes in a row every room is too short.
fn check_doubling(heap: Global, job: &Job) -> anyhow::Result<()> {
    let words = job.row(heap)?;
    let tree = comb(heap, 200)?;
    let mut work = vec![in heap; 0u32; 100_000]?;
    for room in [0, 1, 1_000_000] {
        let mut out = vec![in heap; 0u32; room]?;
        let done = turn(&words, &tree, out.as_mut_slice(), work.as_mut_slice());
        ensure!(
            done == Err(Unturned::Full),
            "a result of more than 2^200 words"
        );
    }
    Ok(())
}

pub fn check_cases(rt: &HostRuntime, forests: &[Forest]) -> anyhow::Result<()> {
    let heap = rt.alloc();
    check(
        rt,
        forests,
        "1: parts exchanged, even to even",
        &exchanged(heap)?,
        None,
    )?;
    let name = "2: left part twice, even to no 1";
    check(
        rt,
        forests,
        name,
        &left_twice(heap)?,
        Some(&[1, 0, 0, 1, 0, 1]),
    )?;
    check(rt, forests, "3: everything a leaf 0", &zero(heap)?, None)?;
    check(
        rt,
        forests,
        "4: lists, left leaves made 0",
        &left_zero(heap)?,
        None,
    )?;
    check(rt, forests, "5: nothing comes in", &nothing_in(heap)?, None)?;
    check(
        rt,
        forests,
        "5: nothing is to come out",
        &nothing_out(heap)?,
        Some(&[0, 0]),
    )?;
    let name = "6: leaves counted modulo 60 and up to 59";
    check(
        rt,
        forests,
        name,
        &counting(heap)?,
        Some(comb(heap, 58)?.as_slice()),
    )?;
    let doubling = right_twice(heap)?;
    check(rt, forests, "7: right part twice", &doubling, None)?;
    check_doubling(heap, &doubling)
}
