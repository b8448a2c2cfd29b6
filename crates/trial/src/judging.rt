// The call `judge` held to what trying tells.
use crate::jobs::Job;
use crate::kinds::{breaks, kinds_of};
use crate::trees::{Forest, read_tree};
use crate::tried::Tried;
use crate::turning::{UNTOUCHED, untouched};
use anyhow::{Context, bail, ensure};
use std::alloc::{AllocError, Global};
use turned::{Judged, Unjudged, Verdict, judge};

// The room for a tree that breaks a job.
const ROOM: usize = 16_384;

// How often a job is judged with fewer classes allowed than it has.
pub const MANY_CALLS: u64 = 3;

const NO_CALL: &str = "a buffer is too small";

// The work words that `judge` asks for, by a formula of its own: a program that tries a call shares no code with it.
fn work_words(job: usize, most: u32) -> usize {
    let n = u128::from(most);
    let words = 4096 + 4 * job as u128 + (n + 1) * (256 + n);
    usize::try_from(words).unwrap_or(usize::MAX)
}

// What is allowed and lent in one call: so many classes, so many words of room, and the work words that are asked for but
// for so many.
#[derive(Clone, Copy)]
struct Lent {
    most: u32,
    room: usize,
    lacks: usize,
}

impl Lent {
    fn with(most: u32) -> Lent {
        Lent {
            most,
            room: ROOM,
            lacks: 0,
        }
    }
}

// The buffers of calls of `judge` on one job. (`Turning` is the like of `turn`, which is held to other things.)
#[derive(Drop)]
struct Judging<'a> {
    words: &'a [u32],
    tree: Vec<u32>,
    work: Vec<u32>,
}

impl<'a> Judging<'a> {
    // For at most so many classes.
    fn new(heap: Global, words: &'a [u32], most: u32) -> Result<Judging<'a>, AllocError> {
        Ok(Judging {
            words,
            tree: vec![in heap; UNTOUCHED; ROOM]?,
            work: vec![in heap; 0u32; work_words(words.len(), most)]?,
        })
    }

    fn call(&mut self, lent: Lent) -> anyhow::Result<Judged> {
        self.tree.as_mut_slice().fill(UNTOUCHED);
        let need = work_words(self.words.len(), lent.most).saturating_sub(lent.lacks);
        let tree = self
            .tree
            .as_mut_slice()
            .get_mut(0..lent.room)
            .context(NO_CALL)?;
        let work = self.work.as_mut_slice().get_mut(0..need).context(NO_CALL)?;
        Ok(judge(self.words, lent.most, tree, work))
    }

    // Holds the call to a refusal.
    fn refuses(&mut self, lent: Lent, refusal: Unjudged) -> anyhow::Result<()> {
        let answer = self.call(lent)?;
        ensure!(
            answer == Err(refusal) && untouched(&self.tree),
            "judge does not say {refusal}"
        );
        Ok(())
    }

    // The tree that breaks the job, if `judge` does not say that it fits, with so many classes allowed.
    fn verdict(&mut self, heap: Global, most: u32) -> anyhow::Result<Option<Vec<u32>>> {
        match self.call(Lent::with(most))? {
            Ok(Verdict::Fits) => {
                ensure!(untouched(&self.tree), "judge says fits, and writes");
                Ok(None)
            }
            Ok(Verdict::Breaks(words)) => {
                let (tree, rest) = self.tree.split_at_checked(words).context(NO_CALL)?;
                ensure!(untouched(rest), "judge writes behind the tree");
                Ok(Some(Vec::from_slice(heap, tree)?))
            }
            Err(_) => bail!("judge gives no verdict"),
        }
    }
}

// Whether these words are a tree that breaks the job, by its kinds.
fn tree_breaks(heap: Global, job: &Job, words: &[u32]) -> anyhow::Result<bool> {
    let Some(trees) = read_tree(heap, words)? else {
        return Ok(false);
    };
    let rows = kinds_of(heap, job, &trees)?;
    Ok(rows.iter().last().is_some_and(|kinds| breaks(job, kinds)))
}

// Holds the tree that `judge` gives to the least one that was found, if one was. (`heap`, `job` and `forest` go through three functions
// as they are: a value of its own would have no other use.)
fn check_tree(
    heap: Global,
    job: &Job,
    tree: &[u32],
    least: Option<usize>,
    forest: &Forest,
) -> anyhow::Result<()> {
    if let Some(place) = least {
        ensure!(tree == forest.row(place), "another tree is the least");
        return Ok(());
    }
    ensure!(
        tree.len() > forest.longest,
        "a tree that was tried, and does not break"
    );
    ensure!(
        tree_breaks(heap, job, tree)?,
        "the tree does not break the job"
    );
    Ok(())
}

// Holds a verdict to what was found by trying.
fn check_verdict(
    heap: Global,
    job: &Job,
    forest: &Forest,
    tried: Tried,
    verdict: Option<&[u32]>,
) -> anyhow::Result<()> {
    match verdict {
        None => {
            ensure!(tried.least.is_none(), "a tree that was tried breaks it");
            ensure!(!tried.some_breaks, "some tree breaks it");
            Ok(())
        }
        Some(tree) => {
            ensure!(tried.some_breaks, "no tree breaks it");
            check_tree(heap, job, tree, tried.least, forest)
        }
    }
}

// Holds each answer of `judge` to what was found by trying, and gives the tree that breaks the job, if one does. There are
// as many classes as the least number for which it does not say many.
pub fn judge_job(
    heap: Global,
    job: &Job,
    words: &[u32],
    forest: &Forest,
    tried: Tried,
) -> anyhow::Result<Option<Vec<u32>>> {
    let classes = tried.classes;
    let mut judging = Judging::new(heap, words, classes)?;
    ensure!(tried.seen <= classes, "fewer classes than were met");
    for most in [0, tried.seen.saturating_sub(1), classes.saturating_sub(1)] {
        judging.refuses(Lent::with(most), Unjudged::Many)?;
    }
    let whole = Lent::with(classes);
    judging.refuses(Lent { lacks: 1, ..whole }, Unjudged::Few)?;
    let verdict = judging.verdict(heap, classes)?;
    check_verdict(heap, job, forest, tried, verdict.as_deref())?;
    if let Some(tree) = &verdict {
        let room = tree.len().saturating_sub(1);
        judging.refuses(Lent { room, ..whole }, Unjudged::OutFull)?;
    }
    Ok(verdict)
}
