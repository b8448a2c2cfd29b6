// The regions of a table in one lent slice, side by side.
ghost use Rattle.std.specs.Prelude.{◌≡◌, ◌+◌, ◌*◌, ◌/◌, ◌^◌, ◌<◌, ◌≤◌, length};
ghost use Rattle.table.specs.Layout.{size_words, words_for};

use crate::links::LINK;
use crate::{Shape, Table};

// A table with room beside it for one signature and one size.
#[derive(Drop)]
pub struct Regions<'a> {
    pub table: Table<'a>,
    pub key: &'a mut [u32],
    pub size: &'a mut [u32],
    pub rest: &'a mut [u32],
}

// Lays out a table for at most so many rows, with signatures of so many words.
pub fn lay_out<'a>(work: &'a mut [u32], width: usize, most: usize) -> Regions<'a>
    requires most { most < 2 ^ 32 }
    requires work { words_for width most ≤ length work.old }
    ensures width { result.table.shape.width ≡ width }
    ensures words { result.table.shape.words ≡ size_words most }
    ensures most { result.table.shape.most ≡ most }
    ensures key { length result.key.now ≡ result.table.shape.width }
    ensures size { length result.size.now ≡ result.table.shape.words }
    ensures rest { length result.rest.now + words_for width most ≡ length work.old }
{
    let words = most / 32 + 1;
    let shape = Shape { width, words, most };
    let (key, rest) = work.split_at_mut(width);
    let (size, rest) = rest.split_at_mut(words);
    let (sigs, rest) = rest.split_at_mut(most * width);
    let (sizes, rest) = rest.split_at_mut(most * words);
    let (links, rest) = rest.split_at_mut(most * LINK);
    let (heads, rest) = rest.split_at_mut(most + 1);
    let (nexts, rest) = rest.split_at_mut(most);
    let (order, rest) = rest.split_at_mut(most);
    let (ranks, rest) = rest.split_at_mut(most);
    let table = Table {
        shape,
        count: 0,
        settled: 0,
        sigs,
        sizes,
        links,
        heads,
        nexts,
        order,
        ranks,
    };
    Regions {
        table,
        key,
        size,
        rest,
    }
}
