// The signatures of trees under a job, worked out from the leaves up: patterns are evaluated on kinds, and no tree is made.
ghost use Rattle.std.specs.Prelude.{◌≡◌, ℕ, ◌+◌, ◌<◌, List, length, slice_index};
ghost use Rattle.model.specs.Turns.{Pattern};
ghost use Rattle.rows.specs.Stepwise.{side_of};
ghost use Rattle.signatures.specs.Parsing.{job_of};
ghost use Rattle.signatures.specs.Signatures.{job_automaton, part_kind};
ghost use Rattle.signatures.specs.Evaluating.{Evaluable, Evaluates, Signable, item_signature};

use reach::Automaton;
use rows::jobs::KnownJob;
use rows::patterns::MOST_DEEP;
use rows::steps::{Part, Step, step_at};
use rows::trees::Item;

// A job that was read, as the automaton of its signatures.
#[derive(Clone, Copy)]
pub struct JobAutomaton<'a> {
    pub job: KnownJob<'a>,
}

// The kind of a pattern, and where its row ends.
#[derive(Clone, Copy, Debug, PartialEq, Eq)]
pub struct Valued {
    pub kind: u32,
    pub end: usize,
}

// A word of a signature, and 0 past its end.
fn word(signature: &[u32], at: usize) -> u32
    ensures { result ≡ slice_index signature.now at }
{
    signature.get(at).copied().unwrap_or(0)
}

// The signatures of the parts of a node; a leaf has none.
#[derive(Clone, Copy)]
struct Parts<'a> {
    left: &'a [u32],
    right: &'a [u32],
}

impl<'a> Parts<'a> {
    // The kind that a part has for a state.
    fn kind(self, part: Part, state: u32) -> u32
        ensures { result ≡ part_kind self.entry.left.now self.entry.right.now state (side_of part) }
    {
        match part {
            Part::Left => word(self.left, state as usize + 1),
            Part::Right => word(self.right, state as usize + 1),
        }
    }
}

// The kind in the second type of the pattern at a place, filled in with parts of these signatures.
fn evaluate(job: KnownJob, at: usize, deep: u32, parts: Parts) -> Valued
    requires { (p : Pattern) × Evaluable job at deep parts.left.now parts.right.now p }
    ensures { (p : Pattern) → Evaluable job.entry at deep parts.entry.left.now parts.entry.right.now p → Evaluates job.entry at parts.entry.left.now parts.entry.right.now p result }
{
    let to = job.to_type();
    match step_at(job.words, at).unwrap() {
        Step::Leaf(mark) => Valued {
            kind: to.leaf_kind(mark),
            end: at + 2,
        },
        Step::Made(state, part) => Valued {
            kind: parts.kind(part, state),
            end: at + 3,
        },
        Step::Node(mark) => {
            let x = evaluate(job, at + 2, deep - 1, parts);
            let y = evaluate(job, x.end, deep - 1, parts);
            Valued {
                kind: to.node_kind(mark, x.kind, y.kind),
                end: y.end,
            }
        }
    }
}

// The kind in the first type.
fn first_kind(job: KnownJob, item: Item, parts: Parts) -> u32
    requires { Signable job item parts.left.now parts.right.now }
    ensures { result ≡ slice_index (item_signature job.entry item parts.entry.left.now parts.entry.right.now) 0 }
{
    let from = job.from_type();
    match item {
        Item::Leaf(mark) => from.leaf_kind(mark),
        Item::Node(mark) => from.node_kind(mark, word(parts.left, 0), word(parts.right, 0)),
    }
}

// Writes the signature of a leaf or a node, from those of its parts.
fn sign(job: KnownJob, item: Item, parts: Parts, out: &mut [u32])
    requires signable { Signable job item parts.left.now parts.right.now }
    requires wide { length out.old ≡ job.places.turn.states + 1 }
    ensures { out.new ≡ item_signature job.entry item parts.entry.left.now parts.entry.right.now }
{
    out[0] = first_kind(job, item, parts);
    // by number, not over `out` as it is written: behind an adapter of `iter_mut` nothing is known of what was written
    for q in 0..job.places.turn.states {
        let value = evaluate(job, job.pattern(item, q), MOST_DEEP, parts);
        out[q as usize + 1] = value.kind;
    }
}

impl<'a> Automaton for JobAutomaton<'a> {
    ghost meaning = { λ a. job_automaton (job_of a.job) };

    ghost wide = { λ a. a.job.places.turn.states + 1 };

    ghost alphabet = { λ a. a.job.places.marks };

    fn letters(&self) -> u32 {
        self.job.places.marks
    }

    fn mark(&self, letter: u32) -> u32 {
        letter
    }

    fn leaf(&self, mark: u32, out: &mut [u32]) {
        let parts = Parts {
            left: &[],
            right: &[],
        };
        sign(self.job, Item::Leaf(mark), parts, out);
    }

    fn node(&self, mark: u32, left: &[u32], right: &[u32], out: &mut [u32]) {
        sign(self.job, Item::Node(mark), Parts { left, right }, out);
    }
}
