// Patterns: where they end, and where each begins.
ghost use Rattle.std.specs.Prelude.{◌+◌, ◌*◌, ◌≤◌, length};
ghost use Rattle.model.specs.Rows.{pattern_row};
ghost use Rattle.rows.specs.Jobs.{PatternsRead};
ghost use Rattle.rows.specs.Standing.{Ends};
ghost use Rattle.rows.specs.Stepwise.{PatternOk};

use crate::numbered::set_number;
use crate::steps::{Step, step_at};

// How deep a pattern may be, where a leaf is 1 deep. (Texts have a limit of their own: they tell the place.)
pub const MOST_DEEP: u32 = 64;

// What a pattern may use: marks and states below these numbers, and parts or none.
#[derive(Clone, Copy, Debug, PartialEq, Eq)]
pub struct Bounds {
    pub marks: u32,
    pub states: u32,
    pub parts: bool,
}

// Where the pattern that begins at a place ends, if one does that is within the bounds and at most so deep.
pub fn pattern_end(words: &[u32], at: usize, deep: u32, b: Bounds) -> Option<usize>
    ensures { Ends pattern_row (PatternOk deep b) words.now at result }
{
    if deep == 0 {
        return None;
    }
    match step_at(words, at)? {
        Step::Leaf(a) => (a < b.marks).then_some(at + 2),
        Step::Made(q, _part) => {
            // An `if`, since with `then_some` the whole function took a sixth longer.
            if b.parts && q < b.states {
                Some(at + 3)
            } else {
                None
            }
        }
        Step::Node(a) => {
            if a >= b.marks {
                return None;
            }
            let mid = pattern_end(words, at + 2, deep - 1, b)?;
            pattern_end(words, mid, deep - 1, b)
        }
    }
}

// Reads so many patterns, one behind the other, and notes in the index where each begins, from number `first` on. (Leaves and nodes
// have one index, and each its part of it: so it is told where to begin and how far.)
pub fn read_patterns(
    words: &[u32],
    at: usize,
    b: Bounds,
    index: &mut [u32],
    first: usize,
    count: usize,
) -> Option<usize>
    requires start { at ≤ length words.now }
    requires room { 2 * (first + count) ≤ length index.old }
    ensures { PatternsRead words.now index.old index.new at first count b result }
{
    let mut here = at;
    // i numbers what is noted in the index; where the next pattern begins is known only once this one is read
    for i in 0..count {
        let end = pattern_end(words, here, MOST_DEEP, b)?;
        set_number(index, first + i, here);
        here = end;
    }
    Some(here)
}
