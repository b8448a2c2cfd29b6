// The public calls: `judge` says of a job whether it fits, `turn` turns one tree.
#![tactic(auto)]

ghost use Rattle.std.specs.Prelude.{◌≡◌, ◌+◌, ◌*◌, ◌≤◌, length, ◌≢◌, Err};
ghost use Rattle.transduce.specs.Framed.{SourceKnown};
ghost use Rattle.turned.specs.Putting.{PutSays};
ghost use Rattle.turned.specs.declared.Unturned.TheVariants.{Small};
ghost use Rattle.turned.specs.declared.Unjudged.TheVariants.{Few};
ghost use Rattle.turned.specs.Turning.{DonePost, DoneSays};
ghost use Rattle.turned.specs.Judging.{JudgedPost, JudgedSays, CallsTogether};

use rows::jobs::{KnownJob, read_job};
use rows::trees::read_tree;
use std::error::Error;
use std::fmt;
use transduce::sinks::{Counter, Writer};
use transduce::source::Source;
use transduce::walks::walk;
pub use verdict::Verdict;
use verdict::{Undecided, decide};

// What came of a tree: a result of so many words, which stand first in what was lent for it, or why there is none.
pub type Done = Result<usize, Unturned>;

// Why a tree has no result.
#[derive(Clone, Copy, Debug, PartialEq, Eq)]
pub enum Unturned {
    // the tree is not of the first type
    NotOf,
    // the words are no job
    NoSuch,
    // the words are no tree with the job's marks
    NoTree,
    // the result has more words than there is room for
    Full,
    // fewer work words were lent than are asked for
    Small,
}

// By hand, so that the words are promised (`output`): of what a derive prints no contract says them.
impl fmt::Display for Unturned {
    ghost use Rattle.std.specs.Prelude.{Some};
    ghost use Rattle.turned.specs.Words.{unturned_words};

    ghost output = { λ why. Some (unturned_words why) };

    fn fmt<W: fmt::Write>(&self, f: &mut fmt::Formatter<W>) -> fmt::Result {
        match self {
            Unturned::NotOf => f.write_str("not of"),
            Unturned::NoSuch => f.write_str("no such"),
            Unturned::NoTree => f.write_str("no tree"),
            Unturned::Full => f.write_str("full"),
            Unturned::Small => f.write_str("small"),
        }
    }
}

impl Error for Unturned {}

// What is said of a job: that it fits, or the least tree that breaks it, or why neither is said.
pub type Judged = Result<Verdict, Unjudged>;

// Why nothing is said of a job.
#[derive(Clone, Copy, Debug, PartialEq, Eq)]
pub enum Unjudged {
    // the words are no job
    NoJob,
    // there are more classes than were allowed
    Many,
    // the least tree that breaks the job has more words than there is room for
    OutFull,
    // fewer work words were lent than are asked for
    Few,
}

// By hand, as those of `Unturned`.
impl fmt::Display for Unjudged {
    ghost use Rattle.std.specs.Prelude.{Some};
    ghost use Rattle.turned.specs.Words.{unjudged_words};

    ghost output = { λ why. Some (unjudged_words why) };

    fn fmt<W: fmt::Write>(&self, f: &mut fmt::Formatter<W>) -> fmt::Result {
        match self {
            Unjudged::NoJob => f.write_str("no job"),
            Unjudged::Many => f.write_str("many"),
            Unjudged::OutFull => f.write_str("out full"),
            Unjudged::Few => f.write_str("few"),
        }
    }
}

impl Error for Unjudged {}

impl From<Undecided> for Unjudged {
    ghost use Rattle.turned.specs.Undecided.{unjudged};

    ghost from_gives = { λ why e. e ≡ unjudged why };

    fn from(why: Undecided) -> Unjudged {
        match why {
            Undecided::Many => Unjudged::Many,
            Undecided::TooLong => Unjudged::OutFull,
        }
    }
}

// The work words that `turn` asks for: 4096, 4 for each of the job's words and 8 for each of the tree's.
pub fn turn_words(job: usize, tree: usize) -> u128
    ensures { result ≡ 4096 + (4 * job + 8 * tree) }
{
    4096 + (4 * job as u128 + 8 * tree as u128)
}

// The work words that `judge` asks for: 4096, 4 for each of the job's words and, with n classes allowed, (n + 1) × (256 + n).
pub fn judge_words(job: usize, most: u32) -> u128
    ensures { result ≡ 4096 + (4 * job + (most + 1) * (256 + most)) }
{
    let n = u128::from(most);
    4096 + (4 * job as u128 + (n + 1) * (256 + n))
}

// The result into out: counted first, then written if there is room. Gives the number of its words.
fn put_out(src: Source, frames: &mut [u32], out: &mut [u32]) -> Option<usize>
    requires { 3 * length src.tree.now ≤ length frames.old }
    ensures { (k : SourceKnown src.entry) → PutSays src.entry k out.old out.new result }
{
    let most = out.len();
    let mut counter = Counter { words: 0 };
    walk(src, most, frames, &mut counter).ok()?;
    let words = counter.words;
    if words > most {
        return None;
    }
    let mut writer = Writer { out, used: 0 };
    // all of it, since the first walk counted it and it has room
    let _whole = walk(src, most, frames, &mut writer);
    Some(words)
}

// The tree turned, with the work words apart: an index of the job, ends and kinds of the tree's parts, and frames. (Each slice by
// itself, since each has a length of its own to keep.)
fn turn_with<'a>(
    words: &'a [u32],
    tree: &'a [u32],
    out: &mut [u32],
    index: &'a mut [u32],
    ends: &'a mut [u32],
    kinds: &mut [u32],
    frames: &mut [u32],
) -> Done
    requires index { length words.now ≤ length index.old }
    requires ends { length tree.now ≤ length ends.old }
    requires kinds { length tree.now ≤ length kinds.old }
    requires frames { 3 * length tree.now ≤ length frames.old }
    ensures says { DoneSays words.now tree.now out.old out.new result }
    ensures large { result ≢ Err Small }
{
    // there is index enough, so that the reader refuses only what is no job
    let places = read_job(words, index).map_err(|_| Unturned::NoSuch)?;
    let job = KnownJob {
        words,
        index,
        places,
    };
    let from = job.from_type();
    let kind = read_tree(from, tree, ends, kinds).ok_or(Unturned::NoTree)?;
    if !from.wants(kind) {
        return Err(Unturned::NotOf);
    }
    let src = Source { job, tree, ends };
    put_out(src, frames, out).ok_or(Unturned::Full)
}

// Turns one tree: what state 0 of the job's turn makes of it, whatever comes of it, exactly if it is of the first type.
// Whatever is refused, out stays as it was; only the work words are free.
pub fn turn(job: &[u32], tree: &[u32], out: &mut [u32], work: &mut [u32]) -> Done
    ensures { DonePost job.now tree.now out.old out.new (length work.old) result }
{
    if (work.len() as u128) < turn_words(job.len(), tree.len()) {
        return Err(Unturned::Small);
    }
    let (index, rest) = work.split_at_mut(job.len());
    let (ends, rest) = rest.split_at_mut(tree.len());
    let (kinds, frames) = rest.split_at_mut(tree.len());
    turn_with(job, tree, out, index, ends, kinds, frames)
}

// The job judged, with the work words apart: an index of the job, and room for its classes.
fn judge_with<'a>(
    words: &'a [u32],
    most: u32,
    tree: &mut [u32],
    index: &'a mut [u32],
    work: &mut [u32],
) -> Judged
    requires index { length words.now ≤ length index.old }
    requires work { (most + 1) * (256 + most) ≤ length work.old }
    ensures says { JudgedSays words.now most tree.old tree.new result }
    ensures large { result ≢ Err Few }
{
    // there is index enough, so that the reader refuses only what is no job
    let places = read_job(words, index).map_err(|_| Unjudged::NoJob)?;
    let job = KnownJob {
        words,
        index,
        places,
    };
    Ok(decide(job, most as usize, tree, work)?)
}

// Judges a job with at most so many classes: it fits, or the least tree that breaks it stands first in `tree`, and the rest
// of `tree` is as it was. Whatever else is answered, `tree` stays as it was; only the work words are free.
pub fn judge(job: &[u32], most: u32, tree: &mut [u32], work: &mut [u32]) -> Judged
    ensures { JudgedPost job.now most tree.old tree.new (length work.old) result }
{
    if (work.len() as u128) < judge_words(job.len(), most) {
        return Err(Unjudged::Few);
    }
    let (index, rest) = work.split_at_mut(job.len());
    judge_with(job, most, tree, index, rest)
}

// A job that `judge` says fits and a tree that `turn` gives a result for: the result is of the second type.
pub fn calls_together()
    ensures { CallsTogether }
{}
