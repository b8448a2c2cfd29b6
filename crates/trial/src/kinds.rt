// The kinds of trees: of a tree its own in the first type and, for each state, that of what the state makes of it in the
// second. Trees are alike if they have the same kinds.
ghost use Rattle.std.specs.Prelude.{◌<◌};
ghost use Rattle.std.specs.Slice.Iter.{chunks_exact_size};

use crate::jobs::{Job, Pattern, Side, Type};
use crate::trees::Tree;
use anyhow::Context;
use std::alloc::{AllocError, Global};
use std::slice::ChunksExact;

pub const NO_KIND: &str = "a tree without kinds";

// The kind of a pattern that is filled in, by the kinds of the two parts.
fn pattern_kind(pattern: &Pattern, to: &Type, left: &[u32], right: &[u32]) -> Option<u32> {
    match pattern {
        Pattern::Leaf(mark) => to.leaf(*mark),
        Pattern::Node(mark, x, y) => {
            let x = pattern_kind(x, to, left, right)?;
            let y = pattern_kind(y, to, left, right)?;
            to.node(*mark, x, y)
        }
        Pattern::Part(state, side) => {
            let part = match side {
                Side::Left => left,
                Side::Right => right,
            };
            part.get((*state as usize).saturating_add(1)).copied()
        }
    }
}

// The kinds of trees by their places, one row behind the other: there are many trees, and a row is a few words.
#[derive(Drop)]
pub struct KindRows {
    // a row has one kind for each, behind the tree's own
    states: usize,
    kinds: Vec<u32>,
}

impl KindRows {
    // None, and room for so many.
    pub fn new(heap: Global, job: &Job, rows: usize) -> Result<KindRows, AllocError> {
        let states = job.turn.states as usize;
        let words = rows.saturating_mul(states.saturating_add(1));
        Ok(KindRows {
            states,
            kinds: Vec::with_capacity(heap, words)?,
        })
    }

    pub fn iter(&self) -> ChunksExact<'_, u32>
        ensures { 0 < chunks_exact_size result }
    {
        self.kinds.chunks_exact(self.states.saturating_add(1))
    }

    pub fn len(&self) -> usize {
        self.iter().len()
    }

    pub fn row(&self, place: usize) -> Option<&[u32]> {
        let width = self.states.saturating_add(1);
        let start = place.saturating_mul(width);
        self.kinds.get(start..start.saturating_add(width))
    }

    pub fn push(&mut self, row: &[u32]) -> Result<(), AllocError> {
        self.kinds.extend_from_slice(row)
    }
}

// The kinds of a tree, by those of the trees that its parts are, put into `kinds` in the stead of what stands there. (An Option: that
// a kind is missing and that memory ends are one failure here, which the callers name.)
pub fn tree_kinds(job: &Job, tree: Tree, rows: &KindRows, kinds: &mut Vec<u32>) -> Option<()> {
    let (own, left, right): (u32, &[u32], &[u32]) = match tree {
        Tree::Leaf(mark) => (job.from.leaf(mark)?, &[], &[]),
        Tree::Node(mark, left, right) => {
            let left = rows.row(left)?;
            let right = rows.row(right)?;
            (
                job.from.node(mark, *left.first()?, *right.first()?)?,
                left,
                right,
            )
        }
    };
    kinds.clear();
    kinds.push(own).ok()?;
    for state in 0..job.turn.states {
        let pattern = job.pattern(state, tree)?;
        kinds
            .push(pattern_kind(pattern, &job.to, left, right)?)
            .ok()?;
    }
    Some(())
}

// The kinds of each tree, parts before the trees that they are of.
pub fn kinds_of(heap: Global, job: &Job, trees: &[Tree]) -> anyhow::Result<KindRows> {
    let mut rows = KindRows::new(heap, job, trees.len())?;
    let mut kinds = Vec::new(heap);
    for tree in trees {
        tree_kinds(job, *tree, &rows, &mut kinds).context(NO_KIND)?;
        rows.push(&kinds)?;
    }
    Ok(rows)
}

// Whether a tree with these kinds is of the first type.
pub fn comes(job: &Job, kinds: &[u32]) -> bool {
    match kinds {
        [own, ..] => job.from.wants(*own),
        [] => false,
    }
}

// Whether a tree with these kinds breaks the job.
pub fn breaks(job: &Job, kinds: &[u32]) -> bool {
    match kinds {
        [own, made, ..] => job.from.wants(*own) && !job.to.wants(*made),
        _ => false,
    }
}
