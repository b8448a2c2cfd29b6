// Turning by plain recursion, and the call `turn` held to it.
use crate::counts::Counts;
use crate::jobs::{Job, Pattern, Side};
use crate::kinds::{KindRows, comes};
use crate::trees::{Forest, Tree};
use anyhow::{Context, ensure};
use std::alloc::{AllocError, Global};
use turned::{Done, Unturned, turn};

// The room for a result. A longer one is filled in up to here, and is `full`.
const ROOM: usize = 128;

// What stands in lent words before a call.
pub const UNTOUCHED: u32 = u32::MAX;

// Deeper than any filled pattern gets before its words are too many.
const DEEPEST: u32 = 10_000;

const NOT_TURNED: &str = "a tree could not be turned";

pub fn untouched(words: &[u32]) -> bool {
    words.iter().all(|word| *word == UNTOUCHED)
}

// A job, and trees that it is used on.
#[derive(Clone, Copy)]
pub struct Filling<'a> {
    pub job: &'a Job,
    pub trees: &'a [Tree],
}

impl<'a> Filling<'a> {
    fn part(self, tree: Tree, side: Side) -> Option<Tree> {
        match (tree, side) {
            (Tree::Leaf(_), _) => None,
            (Tree::Node(_, left, _), Side::Left) => self.trees.get(left).copied(),
            (Tree::Node(_, _, right), Side::Right) => self.trees.get(right).copied(),
        }
    }

    // Puts out a pattern filled in at a tree, or so much of it that it is more than there is room for. (An Option: that a pattern is
    // missing and that memory ends are one failure here, which the caller names.)
    fn fill(self, pattern: &Pattern, tree: Tree, depth: u32, out: &mut Vec<u32>) -> Option<()> {
        if depth == 0 {
            return None;
        }
        if out.len() > ROOM {
            return Some(());
        }
        match pattern {
            Pattern::Leaf(mark) => out.extend_from_slice(&[0, *mark]).ok(),
            Pattern::Node(mark, left, right) => {
                out.extend_from_slice(&[1, *mark]).ok()?;
                self.fill(left, tree, depth - 1, out)?;
                self.fill(right, tree, depth - 1, out)
            }
            Pattern::Part(state, side) => {
                let part = self.part(tree, *side)?;
                self.fill(self.job.pattern(*state, part)?, part, depth - 1, out)
            }
        }
    }

    // The row of what state 0 makes of a tree, into `out`; none where memory ends.
    pub fn result(self, tree: usize, out: &mut Vec<u32>) -> Option<()> {
        let tree = self.trees.get(tree).copied()?;
        out.clear();
        self.fill(self.job.pattern(0, tree)?, tree, DEEPEST, out)
    }
}

// The buffers of calls of `turn` on one job.
#[derive(Drop)]
pub struct Turning<'a> {
    words: &'a [u32],
    mine: Vec<u32>,
    out: Vec<u32>,
    work: Vec<u32>,
}

impl<'a> Turning<'a> {
    // For trees of at most so many words.
    pub fn new(heap: Global, words: &'a [u32], longest: usize) -> Result<Turning<'a>, AllocError> {
        Ok(Turning {
            words,
            mine: Vec::new(heap),
            out: vec![in heap; UNTOUCHED; ROOM]?,
            work: vec![in heap; 0u32; work_words(words.len(), longest)]?,
        })
    }

    // One call with so many words of room and just the work words that are asked for.
    fn call(&mut self, tree: &[u32], room: usize) -> anyhow::Result<Done> {
        self.out.as_mut_slice().fill(UNTOUCHED);
        let need = work_words(self.words.len(), tree.len());
        let out = self
            .out
            .as_mut_slice()
            .get_mut(0..room)
            .context(NOT_TURNED)?;
        let work = self
            .work
            .as_mut_slice()
            .get_mut(0..need)
            .context(NOT_TURNED)?;
        Ok(turn(self.words, tree, out, work))
    }

    // Whether out begins with the result, and goes on untouched.
    fn written(&self) -> bool {
        self.out
            .strip_prefix(self.mine.as_slice())
            .is_some_and(|rest| untouched(rest))
    }

    // Whether the answer at a tree that comes in, or doesn't, is what the recursion says.
    fn is_right(&self, done: Done, comes: bool) -> bool {
        let fits = self.mine.len() <= ROOM;
        match done {
            Ok(words) => comes && fits && words == self.mine.len() && self.written(),
            Err(Unturned::NotOf) => !comes && untouched(&self.out),
            Err(Unturned::Full) => comes && !fits && untouched(&self.out),
            Err(_) => false,
        }
    }

    // Whether a room of one word less than the result is full.
    fn refuses(&mut self, tree: &[u32], words: usize) -> anyhow::Result<bool> {
        let room = words.checked_sub(1).context(NOT_TURNED)?;
        let done = self.call(tree, room)?;
        Ok(done == Err(Unturned::Full) && untouched(&self.out))
    }
}

// The work words that `turn` asks for, by a formula of its own: a program that tries a call shares no code with it.
fn work_words(job: usize, tree: usize) -> usize {
    let words = 4096 + 4 * job as u128 + 8 * tree as u128;
    usize::try_from(words).unwrap_or(usize::MAX)
}

// Holds `turn` to the recursion at each tree; and at some of those that have a result, with a room that is too short. (`words` and
// `rows` are worked out of the job once, for both calls.)
pub fn turn_trees(
    heap: Global,
    job: &Job,
    words: &[u32],
    forest: &Forest,
    rows: &KindRows,
    counts: &mut Counts,
) -> anyhow::Result<()> {
    let filling = Filling {
        job,
        trees: &forest.trees,
    };
    let mut turning = Turning::new(heap, words, forest.longest)?;
    for (tree, kinds) in rows.iter().enumerate() {
        let row = forest.row(tree);
        let comes = comes(job, kinds);
        if comes {
            filling.result(tree, &mut turning.mine).context(NOT_TURNED)?;
        }
        let done = turning.call(row, ROOM)?;
        let mut right = turning.is_right(done, comes);
        if let Ok(words) = done
            && tree % 16 == 3
        {
            right = right && turning.refuses(row, words)?;
            counts.short = counts.short.saturating_add(1);
        }
        ensure!(right, "turn answers otherwise at {row:?}");
        counts.turned(done);
    }
    Ok(())
}
