// A tree in lent words, known by where each of its subtrees ends and of which kind it is.
ghost use Rattle.std.specs.Prelude.{◌≡◌, ◌+◌, ◌*◌, ◌<◌, ◌≤◌, length};
ghost use Rattle.rows.specs.Subtrees.{ItemAt, SubtreeRead, Subtrees, TreeRead, item_row};
ghost use Rattle.rows.specs.Known.{type_of};

use crate::numbered::{number_at, set_number};
use crate::tables::KnownType;

// What two words of a tree's row are: a leaf, or a node whose parts follow, by its mark.
#[derive(Clone, Copy, Debug, PartialEq, Eq)]
pub enum Item {
    Leaf(u32),
    Node(u32),
}

// The two words of the item.
impl From<Item> for [u32; 2] {
    ghost from_gives = { λ item words. words ≡ item_row item };

    fn from(item: Item) -> [u32; 2] {
        match item {
            Item::Leaf(a) => [0, a],
            Item::Node(a) => [1, a],
        }
    }
}

// A subtree: the number of the leaf or node that follows it, and its kind.
#[derive(Clone, Copy, Debug, PartialEq, Eq)]
pub struct Subtree {
    pub end: usize,
    pub kind: u32,
}

// The i-th leaf or node of a tree's row, if these words are one. (No `TryFrom<[u32; 2]>`: its error would say nothing, and
// each caller has the words in a slice.)
pub fn item_at(tree: &[u32], i: usize) -> Option<Item>
    requires { 2 * i + 1 < length tree.now }
    ensures { ItemAt tree.now i result }
{
    let mark = tree[2 * i + 1];
    match tree[2 * i] {
        0 => Some(Item::Leaf(mark)),
        1 => Some(Item::Node(mark)),
        _ => None,
    }
}

// The subtree that begins with the i-th of `count` leaves and nodes, where those behind it are known. (`ends` and `kinds` are not one
// value: both are written between two calls.)
fn subtree_at(
    t: KnownType,
    tree: &[u32],
    count: usize,
    i: usize,
    ends: &[u32],
    kinds: &[u32],
) -> Option<Subtree>
    requires whole { length tree.now ≡ 2 * count }
    requires here { i < count }
    requires ends_room { 2 * count ≤ length ends.now }
    requires kinds_room { count ≤ length kinds.now }
    requires behind { Subtrees (type_of t) t.marks tree.now ends.now kinds.now (i + 1) }
    ensures { SubtreeRead (type_of t.entry) t.entry.marks tree.now i result }
{
    match item_at(tree, i)? {
        Item::Leaf(a) => {
            if a >= t.marks {
                return None;
            }
            let kind = t.leaf_kind(a);
            Some(Subtree { end: i + 1, kind })
        }
        Item::Node(a) => {
            if a >= t.marks || i + 1 >= count {
                return None;
            }
            let right = number_at(ends, i + 1);
            if right >= count {
                return None;
            }
            let kind = t.node_kind(a, kinds[i + 1], kinds[right]);
            let end = number_at(ends, right);
            Some(Subtree { end, kind })
        }
    }
}

// Reads a tree from the last leaf to the first node: its kind in a type, exactly if the words are a tree with the type's
// marks. Notes where each subtree ends, two words each, and its kind, side by side in lent words: the calls have no heap.
pub fn read_tree(t: KnownType, tree: &[u32], ends: &mut [u32], kinds: &mut [u32]) -> Option<u32>
    requires ends_room { length tree.now ≤ length ends.old }
    requires kinds_room { length tree.now ≤ 2 * length kinds.old }
    ensures { TreeRead (type_of t.entry) t.entry.marks tree.now ends.new kinds.new result }
{
    let count = tree.len() / 2;
    if count == 0 || tree.len() % 2 != 0 {
        return None;
    }
    // two lent buffers are read behind i and written at i: an iterator over one of them would not be plainer
    for i in (0..count).rev() {
        let x = subtree_at(t, tree, count, i, ends, kinds)?;
        set_number(ends, i, x.end);
        kinds[i] = x.kind;
    }
    if number_at(ends, 0) != count {
        return None;
    }
    Some(kinds[0])
}
