// A job and a tree that were read: subtrees by their numbers, patterns by their places.
ghost use Rattle.std.specs.Prelude.{◌≡◌, ℕ, ◌+◌, ◌*◌, ◌<◌, [], ◌∷◌, length};
ghost use Rattle.model.specs.Trees.{Tree, Marked, node as join};
ghost use Rattle.model.specs.Rows.{tree_row};
ghost use Rattle.rows.specs.Jobs.{Begins};
ghost use Rattle.transduce.specs.Sources.{TreeOfJob};
ghost use Rattle.transduce.specs.Tasks.{pattern_for};

use crate::frames::Frame;
use rows::jobs::KnownJob;
use rows::numbered::number_at;
use rows::steps::Part;
use rows::trees::item_at;

#[derive(Clone, Copy)]
pub struct Source<'a> {
    pub job: KnownJob<'a>,
    pub tree: &'a [u32],
    // where each subtree ends
    pub ends: &'a [u32],
    pub ghost known: { ∥ TreeOfJob job tree.now ends.now ∥₁ },
}

impl<'a> Source<'a> {
    ghost use Rattle.transduce.specs.Framed.{FrameKnown, SourceKnown, part_tree};

    // What a state makes of a subtree begins with its pattern.
    pub fn enter(self, node: usize, state: u32) -> Frame
        requires here { 2 * node < length self.tree.now }
        requires state { state < self.job.places.turn.states }
        ensures same { result.node ≡ node }
        ensures frame { (k : SourceKnown self.entry) (x : Tree) → Marked self.entry.job.places.marks x → Begins self.entry.tree.now (2 * node) (tree_row x) → FrameKnown self.entry k result (record { tree = x; patterns = pattern_for self.entry.job.places.marks k.job.turns x state ∷ [] }) }
    {
        let item = item_at(self.tree, node).unwrap();
        let at = self.job.pattern(item, state);
        Frame { node, at, count: 1 }
    }

    // The number of a node's part.
    pub fn part(self, node: usize, part: Part) -> usize
        requires { 2 * (node + 1) < length self.tree.now }
        ensures { (k : SourceKnown self.entry) (a : ℕ) (x y : Tree) → Begins self.entry.tree.now (2 * node) (tree_row (join a x y)) → Begins self.entry.tree.now (2 * result) (tree_row (part_tree part x y)) × (node < result) }
    {
        match part {
            Part::Left => node + 1,
            Part::Right => number_at(self.ends, node + 1),
        }
    }
}
