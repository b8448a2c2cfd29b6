// The least trees of a table, written out.
ghost use Rattle.std.specs.Prelude.{◌≡◌, ◌<◌, ◌≤◌, List, length, drop};
ghost use Rattle.model.specs.Trees.{Tree};
ghost use Rattle.model.specs.Rows.{tree_row};
ghost use Rattle.automata.specs.Classes.{at};
ghost use Rattle.verdict.specs.Ranked.{Holds, IsTop, Low, Expanded, Placed, Shown};

use rows::trees::Item;
use table::{LEFT, MARK, RIGHT, Table};
use transduce::sinks::{Sink, Writer};

// What a tree of the table begins with: a leaf by its mark, or a node by its mark and the ranks of its parts.
#[derive(Clone, Copy)]
pub enum Top {
    Leaf(u32),
    Node(u32, u32, u32),
}

// A stack of ranks in lent words, which goes from `top` to their end. (Not a Vec: the calls have no heap.)
#[derive(Drop)]
pub struct Ranks<'a> {
    pub words: &'a mut [u32],
    pub top: usize,
    pub ghost within: { top ≤ length words.now },
}

// A table by the least trees that it holds: one for each rank, in the order of trees.
#[derive(Clone, Copy)]
pub struct LeastTrees<'a> {
    pub table: &'a Table<'a>,
    pub ghost held: { ∥ ((S : List Tree) × Holds S table.now) ∥₁ },
}

impl<'a> LeastTrees<'a> {
    // What the tree of a rank begins with.
    fn top_of(self, rank: usize) -> Top
        requires { rank < self.table.now.settled }
        ensures { (S : List Tree) → Holds S self.entry.table.now → IsTop S rank (at S rank) result }
    {
        let link = self.table.tree(self.table.ranked(rank)).link;
        if link[LEFT] == 0 {
            Top::Leaf(link[MARK])
        } else {
            Top::Node(link[MARK], link[LEFT] - 1, link[RIGHT] - 1)
        }
    }

    // Takes a leaf or a node off the first tree of a stack: the ranks of its parts, if it has any, take the place of its rank.
    fn expand(self, ranks: &mut Ranks) -> Item
        requires some { ranks.old.top < length ranks.old.words.now }
        requires low { Low self.table.now.settled (drop ranks.old.top ranks.old.words.now) }
        requires room { self.table.now.settled ≤ length ranks.old.words.now }
        ensures long { length ranks.new.words.now ≡ length ranks.old.words.now }
        ensures low { Low self.entry.table.now.settled (drop ranks.new.top ranks.new.words.now) }
        ensures takes { (S : List Tree) → Holds S self.entry.table.now → Expanded S (drop ranks.old.top ranks.old.words.now) (drop ranks.new.top ranks.new.words.now) result }
    {
        let top = ranks.top;
        match self.top_of(ranks.words[top] as usize) {
            Top::Leaf(mark) => {
                ranks.top = top + 1;
                Item::Leaf(mark)
            }
            Top::Node(mark, left, right) => {
                ranks.words[top] = right;
                ranks.words[top - 1] = left;
                ranks.top = top - 1;
                Item::Node(mark)
            }
        }
    }

    // Writes the tree of a rank and gives the number of its words, or writes nothing where there is no room for them. The
    // number is known before a word is written; a size past 64 bits counts as the greatest number.
    pub fn show(self, rank: usize, stack: &mut [u32], out: &mut [u32]) -> Option<usize>
        requires rank { rank < self.table.now.settled }
        requires stack { self.table.now.settled ≤ length stack.old }
        ensures { (S : List Tree) → Holds S self.entry.table.now → Shown (tree_row (at S rank)) out.old out.new result }
    {
        let size = numbers::saturated(self.table.tree(self.table.ranked(rank)).size);
        if size as u128 * 2 > out.len() as u128 {
            return None;
        }
        let top = stack.len() - 1;
        stack[top] = rank as u32;
        let mut ranks = Ranks { words: stack, top };
        let mut writer = Writer { out, used: 0 };
        while ranks.top < ranks.words.len() {
            let item = self.expand(&mut ranks);
            writer.put(item);
        }
        Some(writer.used)
    }
}
