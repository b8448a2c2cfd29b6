// The table of a search: a row for each class of trees seen, found again by its signature, and the order of those settled.
#![tactic(auto)]

ghost use Rattle.std.specs.Prelude.{◌+◌, ◌*◌, ◌^◌, ◌<◌, ◌≤◌, length};

mod layout;
mod links;
mod lookup;
mod rows;
mod settling;

pub use layout::{Regions, lay_out};
pub use links::{Candidate, LEFT, LINK, MARK, RIGHT};

// How large the regions are made.
#[derive(Clone, Copy, Drop)]
pub struct Shape {
    // the words of a signature
    pub width: usize,
    // the words of a size
    pub words: usize,
    // at most so many rows
    pub most: usize,
}

// Rows 0 .. count - 1 are in use, each in several regions; a row never moves. `settled` of them have a rank.
// The regions stay slices of words side by side: the memory is lent by a call that has no heap. That rows are chained by their
// signatures (`Chains`) is no invariant: `lay_out` would have to zero the heads, which `reset` does at the start of a search.
// That a row is below `most` stays a clause as well: rows come as plain numbers, out of these words. Rows and ranks are counted from
// one there, and zero is none: a lent word has no room for an Option.
#[derive(Drop)]
pub struct Table<'a> {
    pub shape: Shape,
    pub count: usize,
    pub settled: usize,
    // by row: the signature, and the best tree known for it by its size and link
    pub sigs: &'a mut [u32],
    pub sizes: &'a mut [u32],
    pub links: &'a mut [u32],
    // the first row of each chain and the next one after each row, counted from one; zero ends a chain
    pub heads: &'a mut [u32],
    pub nexts: &'a mut [u32],
    // the row of each rank, and the rank of each row, counted from one; zero is no rank
    pub order: &'a mut [u32],
    pub ranks: &'a mut [u32],
    // the regions are long enough, and so are the sizes of trees
    pub ghost for_sigs: { shape.most * shape.width ≤ length sigs.now },
    pub ghost for_sizes: { shape.most * shape.words ≤ length sizes.now },
    pub ghost for_links: { shape.most * 3 ≤ length links.now },
    pub ghost for_heads: { 0 < length heads.now },
    pub ghost for_nexts: { shape.most ≤ length nexts.now },
    pub ghost for_order: { shape.most ≤ length order.now },
    pub ghost for_ranks: { shape.most ≤ length ranks.now },
    pub ghost size_bits: { shape.most + 1 ≤ 32 * shape.words },
    pub ghost row_bits: { shape.most < 2 ^ 32 },
    pub ghost few_rows: { count ≤ shape.most },
}
