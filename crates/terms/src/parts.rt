// What a tree is read and written by: its leaves and nodes, and the parts of the open nodes.
ghost use Rattle.std.specs.Prelude.{◌≡◌, ◌+◌, ◌<◌, ◌++◌, ◌↔◌, [], length, IsTrue, OnOk, IfOk, IfSome};
ghost use Rattle.terms.specs.Beginnings.{item_words, to_come, Leaves};

use std::alloc::{AllocError, Global};

// A leaf, or a node without its parts, with its mark. (The crate `rows` has the same of words; texts don't stand on it.)
#[derive(Clone, Copy, Debug, PartialEq, Eq)]
pub enum Item {
    Leaf(u32),
    Node(u32),
}

impl Item {
    // The item that words begin with, and the words behind it.
    #[inline(always)]
    pub fn split_first(words: &[u32]) -> Option<(Item, &[u32])>
        ensures { IfSome result (λ first. words.now ≡ item_words first.0 ++ first.1.now) }
    {
        match words {
            [0, mark, behind @ ..] => Some((Item::Leaf(*mark), behind)),
            [1, mark, behind @ ..] => Some((Item::Node(*mark), behind)),
            _ => None,
        }
    }
}

impl From<Item> for [u32; 2] {
    ghost from_gives = { λ item words. words ≡ item_words item };

    // The two words of the item.
    #[inline(always)]
    fn from(item: Item) -> [u32; 2] {
        match item {
            Item::Leaf(mark) => [0, mark],
            Item::Node(mark) => [1, mark],
        }
    }
}

// Which part of an open node is being read or written. (The crate `rows` has such an enum of patterns; texts don't stand on it.)
#[derive(Clone, Copy, Debug, PartialEq, Eq)]
pub enum Part {
    Left,
    Right,
}

// The open nodes, from the root on, each by the part that is being read or written.
#[derive(Drop)]
pub struct Path {
    parts: Vec<Part>,
}

impl Path {
    pub fn new(heap: Global) -> Path
        ensures { result.parts.items ≡ [] }
    {
        Path {
            parts: Vec::new(heap),
        }
    }

    #[inline(always)]
    pub fn is_empty(&self) -> bool
        ensures { IsTrue result ↔ (self.now.parts.items ≡ []) }
    {
        self.parts.is_empty()
    }

    // Into the left part of a node.
    #[inline(always)]
    pub fn enter(&mut self) -> Result<(), AllocError>
        ensures some { OnOk result (0 < length self.new.parts.items) }
        ensures one_more { OnOk result (to_come self.new.parts.items ≡ to_come self.old.parts.items + 1) }
    {
        self.parts.push(Part::Left)?;
        Ok(())
    }

    // Behind a part: from a left part to the right one, and from a right part out of the node. Says which part it was.
    #[inline(always)]
    pub fn leave(&mut self) -> Result<Option<Part>, AllocError>
        ensures { IfOk result (λ part. Leaves self.old.parts.items part self.new.parts.items) }
    {
        // no `?`: that there is no part is an answer here, not an error
        let Some(part) = self.parts.pop() else {
            return Ok(None);
        };
        match part {
            Part::Left => self.parts.push(Part::Right)?,
            Part::Right => {}
        }
        Ok(Some(part))
    }
}
