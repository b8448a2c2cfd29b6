// What trying tells of a job: the least tree that breaks it among those tried, and its classes.
use crate::jobs::Job;
use crate::kinds::{KindRows, NO_KIND, breaks, tree_kinds};
use crate::trees::Tree;
use anyhow::Context;
use std::alloc::{AllocError, Global};
use std::collections::HashSet;

#[derive(Clone, Copy)]
pub struct Tried {
    // the first of the trees that breaks the job
    pub least: Option<usize>,
    // how many classes have a tree among them
    pub seen: u32,
    // how many classes there are
    pub classes: u32,
    // whether some tree, however large, breaks the job
    pub some_breaks: bool,
}

const NO_NUMBER: &str = "kinds that make no number";

fn counted(classes: usize) -> u32 {
    u32::try_from(classes).unwrap_or(u32::MAX)
}

// Which rows of kinds have been met. Each is kept as a number, so that no row is copied.
#[derive(Drop)]
struct Met {
    // above all kinds
    base: u64,
    numbers: HashSet<u64>,
}

impl Met {
    fn new(heap: Global, job: &Job) -> Met {
        Met {
            base: u64::from(job.from.kinds.max(job.to.kinds)),
            numbers: HashSet::new(heap),
        }
    }

    // The number whose digits are the kinds of a row: no two rows of a job have the same. None where a kind is no digit, or the number
    // is too large.
    fn number(&self, kinds: &[u32]) -> Option<u64> {
        let mut number = 0u64;
        for kind in kinds {
            let digit = u64::from(*kind);
            if digit >= self.base {
                return None;
            }
            number = number.checked_mul(self.base)?.checked_add(digit)?;
        }
        Some(number)
    }

    // Meets a row, and says whether it is met for the first time.
    fn meet(&mut self, kinds: &[u32]) -> anyhow::Result<bool> {
        let number = self.number(kinds).context(NO_NUMBER)?;
        let first = self.numbers.insert(number).map_err(AllocError::from)?;
        Ok(first)
    }
}

// How many different rows of kinds there are among these.
fn different(heap: Global, job: &Job, rows: &KindRows) -> anyhow::Result<usize> {
    let mut met = Met::new(heap, job);
    for kinds in rows.iter() {
        met.meet(kinds)?;
    }
    Ok(met.numbers.len())
}

// By the kinds of trees in their order.
pub fn try_trees(heap: Global, job: &Job, rows: &KindRows) -> anyhow::Result<Tried> {
    let all = Closure::of(heap, job)?;
    Ok(Tried {
        least: rows.iter().position(|kinds| breaks(job, kinds)),
        seen: counted(different(heap, job, rows)?),
        classes: counted(all.rows.len()),
        some_breaks: all.rows.iter().any(|kinds| breaks(job, kinds)),
    })
}

// The classes of trees of any size, one row of kinds for each: those of the leaves, and with any two those of the nodes. (By place,
// and once more to look up: the order in which they come is what the loop goes by.)
#[derive(Drop)]
struct Closure {
    rows: KindRows,
    met: Met,
    // those of the tree that is looked at
    kinds: Vec<u32>,
}

impl Closure {
    fn of(heap: Global, job: &Job) -> anyhow::Result<Closure> {
        let mut closure = Closure {
            rows: KindRows::new(heap, job, 0)?,
            met: Met::new(heap, job),
            kinds: Vec::new(heap),
        };
        for mark in 0..job.marks {
            closure.add(job, Tree::Leaf(mark))?;
        }
        closure.add_all(job)?;
        Ok(closure)
    }

    // The class of a tree whose parts are classes, unless it is there.
    fn add(&mut self, job: &Job, tree: Tree) -> anyhow::Result<()> {
        tree_kinds(job, tree, &self.rows, &mut self.kinds).context(NO_KIND)?;
        if self.met.meet(&self.kinds)? {
            self.rows.push(&self.kinds)?;
        }
        Ok(())
    }

    // A class may bring others, and the loop goes on as long as there are some: a range as long as any gives it its end.
    fn add_all(&mut self, job: &Job) -> anyhow::Result<()> {
        for at in 0..usize::MAX {
            if at >= self.rows.len() {
                break;
            }
            self.add_nodes(job, at)?;
        }
        Ok(())
    }

    // The nodes of one class with each up to it, on both sides.
    fn add_nodes(&mut self, job: &Job, at: usize) -> anyhow::Result<()> {
        for other in 0..=at {
            for mark in 0..job.marks {
                self.add(job, Tree::Node(mark, at, other))?;
                self.add(job, Tree::Node(mark, other, at))?;
            }
        }
        Ok(())
    }
}
