// The walk over patterns, from frame to frame: every leaf and node that stands in a pattern is put out, and a
// part is walked where a pattern asks for it.
ghost use Rattle.std.specs.Prelude.{◌≡◌, ℕ, ◌+◌, ◌*◌, ◌<◌, ◌≤◌, List, ◌++◌, length};
ghost use Rattle.std.specs.Borrow.{MutBor};
ghost use Rattle.rows.specs.declared.steps.Step.TheVariants.{Leaf, Made, Node};
ghost use Rattle.transduce.specs.Framed.{SourceKnown};
ghost use Rattle.transduce.specs.Walks.{AfterLeaf, AfterNode, Begun, Descended, Pending, Ready, Walked};

use crate::frames::{Frame, Frames};
use crate::sinks::Sink;
use crate::source::Source;
use rows::steps::{Part, Step, step_at};
use rows::trees::Item;

// The step with which the pattern of this frame begins. (`Ready` is no invariant of a type: it is of a source, the frames that wait
// and the frame in hand, of which each step changes one before the others.)
fn step(src: Source, here: Frame, frames: &Frames) -> Step
    requires { Ready src frames.now here }
    ensures { Begun src.entry here result }
{
    step_at(src.job.words, here.at).unwrap()
}

// Into a part: the frame waits below, unless this was its last pattern. (That the frames have room stays a clause: it is of the tree
// and of the frames, and no type holds both.)
fn descend(src: Source, here: Frame, state: u32, part: Part, frames: &mut Frames) -> Frame
    requires room { 3 * length src.tree.now ≤ length frames.old.words.now }
    requires ready { Ready src frames.old here }
    requires begun { Begun src here (Made state part) }
    ensures { Descended src.entry frames.old frames.new here result }
{
    let entered = src.enter(src.part(here.node, part), state);
    if here.count == 1 {
        return entered;
    }
    let waits = Frame {
        at: here.at + 3,
        count: here.count - 1,
        ..here
    };
    frames.push(waits);
    entered
}

// Behind a node: its two patterns come first.
fn after_node(src: Source, here: Frame, frames: &Frames, mark: u32) -> Frame
    requires ready { Ready src frames.now here }
    requires begun { Begun src here (Node mark) }
    ensures { (k : SourceKnown src.entry) (rest : List ℕ) → Pending src.entry k frames.now here rest → AfterNode src.entry k frames.now result mark rest }
{
    Frame {
        at: here.at + 2,
        count: here.count + 1,
        ..here
    }
}

// Behind a leaf: the next pattern of the frame, or the frame below, or the end.
fn after_leaf(src: Source, here: Frame, frames: &mut Frames, mark: u32) -> Option<Frame>
    requires room { 3 * length src.tree.now ≤ length frames.old.words.now }
    requires ready { Ready src frames.old here }
    requires begun { Begun src here (Leaf mark) }
    ensures long { length frames.new.words.now ≡ length frames.old.words.now }
    ensures goes_on { (k : SourceKnown src.entry) (rest : List ℕ) → Pending src.entry k frames.old here rest → AfterLeaf src.entry k frames.new result mark rest }
{
    if here.count > 1 {
        return Some(Frame {
            at: here.at + 2,
            count: here.count - 1,
            ..here
        });
    }
    frames.pop()
}

// What a state makes of a tree has more leaves and nodes than were allowed.
#[derive(Clone, Copy, Debug, PartialEq, Eq)]
pub struct TooLong;

// Puts out what state 0 makes of the whole tree: all of it, or, where it has more leaves and nodes than `most`, only
// so many.
pub fn walk<S: Sink>(
    src: Source,
    most: usize,
    frames: &mut [u32],
    sink: &mut S,
) -> Result<(), TooLong>
    requires { 3 * length src.tree.now ≤ length frames.old }
    ensures { (k : SourceKnown src.entry) → Walked src.entry k most (λ us. (lent : MutBor (List ℕ)) (ws : List ℕ) → S.holds sink.old lent ws → S.holds sink.new lent (ws ++ us)) result }
{
    let mut stack = Frames {
        words: frames,
        depth: 0,
    };
    let mut here = src.enter(0, 0);
    let mut left = most;
    'steps: loop {
        match step(src, here, &stack) {
            Step::Made(q, part) => {
                here = descend(src, here, q, part, &mut stack);
            }
            Step::Node(a) => {
                if left == 0 {
                    return Err(TooLong);
                }
                left -= 1;
                sink.put(Item::Node(a));
                here = after_node(src, here, &stack, a);
            }
            Step::Leaf(a) => {
                if left == 0 {
                    return Err(TooLong);
                }
                left -= 1;
                sink.put(Item::Leaf(a));
                let Some(next) = after_leaf(src, here, &mut stack, a) else {
                    return Ok(());
                };
                here = next;
            }
        }
    }
}
