// What is decided of a job: it fits, or the least tree that breaks it.
#![tactic(auto)]

pub mod trees;

ghost use Rattle.std.specs.Prelude.{◌≡◌, ℕ, ◌+◌, ◌^◌, ◌<◌, ◌≤◌, length};
ghost use Rattle.model.specs.Jobs.{Job};
ghost use Rattle.model.specs.Rows.{Rows};
ghost use Rattle.table.specs.Layout.{words_for};
ghost use Rattle.table.specs.Tables.{ranked_at};
ghost use Rattle.reach.specs.Promise.{AllFound};
ghost use Rattle.signatures.specs.Parsing.{job_of};
ghost use Rattle.signatures.specs.Signatures.{job_automaton};
ghost use Rattle.verdict.specs.Verdicts.{breaks_by, FirstBreak, Decides};

use reach::TooMany;
use rows::jobs::KnownJob;
use signatures::evaluate::JobAutomaton;
use std::fmt;
use table::{Regions, Table, lay_out};
use trees::LeastTrees;

// What is decided of a job.
#[derive(Clone, Copy, Debug, PartialEq, Eq)]
pub enum Verdict {
    // every tree of the first type becomes one of the second
    Fits,
    // the least tree that breaks the job, of so many words
    Breaks(usize),
}

// By hand, so that the words are promised (`output`): of what a derive prints no contract says them.
impl fmt::Display for Verdict {
    ghost use Rattle.std.specs.Prelude.{Some};
    ghost use Rattle.verdict.specs.Words.{verdict_words};

    ghost output = { λ v. Some (verdict_words v) };

    fn fmt<W: fmt::Write>(&self, f: &mut fmt::Formatter<W>) -> fmt::Result {
        match self {
            Verdict::Fits => f.write_str("fits"),
            Verdict::Breaks(_) => f.write_str("breaks"),
        }
    }
}

// Why nothing is decided of a job.
#[derive(Clone, Copy, Debug, PartialEq, Eq)]
pub enum Undecided {
    // there are more classes than were allowed
    Many,
    // the least tree that breaks the job has more words than there is room for
    TooLong,
}

impl From<TooMany> for Undecided {
    ghost use Rattle.std.specs.Prelude.{◌≡◌};
    ghost use Rattle.verdict.specs.declared.Undecided.TheVariants.{Many};

    ghost from_gives = { λ _ why. why ≡ Many };

    fn from(_: TooMany) -> Undecided {
        Undecided::Many
    }
}

// Whether trees with this signature come in, and what becomes of them is not of the second type.
fn breaks(job: KnownJob, signature: &[u32]) -> bool
    requires { 1 < length signature.now }
    ensures { result ≡ breaks_by (job_of job.entry) signature.now }
{
    job.from_type().wants(signature[0]) && !job.to_type().wants(signature[1])
}

// The first rank whose tree breaks the job.
fn first_break(job: KnownJob, table: &Table) -> Option<usize>
    requires wide { 1 < table.now.shape.width }
    requires few { table.now.settled ≤ table.now.shape.most }
    requires rows { (r : ℕ) → r < table.now.settled → ranked_at table.now r < table.now.shape.most }
    ensures { FirstBreak (job_of job.entry) table.now result }
{
    (0..table.settled).find(|&r| breaks(job, table.signature(table.ranked(r))))
}

// What follows once all classes are found. `stack` is room for as many ranks as there are.
fn conclude(
    job: KnownJob,
    table: &Table,
    stack: &mut [u32],
    tree: &mut [u32],
) -> Result<Verdict, Undecided>
    requires wide { 1 < table.now.shape.width }
    requires found { AllFound (job_automaton (job_of job)) table.now }
    requires stack { table.now.shape.most ≤ length stack.old }
    ensures { Decides (job_of job.entry) table.now.shape.most tree.old tree.new result }
{
    let Some(rank) = first_break(job, table) else {
        return Ok(Verdict::Fits);
    };
    let words = LeastTrees { table }
        .show(rank, stack, tree)
        .ok_or(Undecided::TooLong)?;
    Ok(Verdict::Breaks(words))
}

// Decides whether a known job with at most so many classes fits; where it does not, the least tree that breaks it stands
// first in `tree`, if there is room for it.
pub fn decide(
    job: KnownJob,
    most: usize,
    tree: &mut [u32],
    work: &mut [u32],
) -> Result<Verdict, Undecided>
    requires most { most < 2 ^ 32 }
    requires work { words_for (job.places.turn.states + 1) most + most ≤ length work.old }
    ensures { (j : Job) → Rows job.entry.words.now j → Decides j most tree.old tree.new result }
{
    let width = job.places.turn.states as usize + 1;
    let Regions {
        mut table,
        key,
        size,
        rest,
    } = lay_out(work, width, most);
    reach::search(&JobAutomaton { job }, &mut table, key, size)?;
    conclude(job, &table, rest, tree)
}
