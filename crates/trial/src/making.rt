// Types and turns for two marks, made by functions.
use crate::jobs::{Pattern, Turn, Type};
use std::alloc::{AllocError, Global};

pub const MARKS: u32 = 2;

// The type that wants these kinds, where a leaf with a mark is of the kind `leaf(mark)`, and a node with a mark over parts of
// two kinds of the kind `node(mark, left, right)`. (But for the heap, the parameters are what a `Type` has.)
pub fn type_by<L: Fn(u32) -> u32, N: Fn(u32, u32, u32) -> u32>(
    heap: Global,
    kinds: u32,
    leaf: L,
    node: N,
    wanted: &[u32],
) -> Result<Type, AllocError>
    requires leaf { L.IsAlwaysCallable leaf }
    requires node { N.IsAlwaysCallable node }
{
    let mut nodes = Vec::new(heap);
    for mark in 0..MARKS {
        for left in 0..kinds {
            nodes.extend((0..kinds).map(|right| node(mark, left, right)))?;
        }
    }
    Ok(Type {
        kinds,
        leaves: (0..MARKS).map(|mark| leaf(mark)).collect(heap)?,
        nodes,
        wanted: Vec::from_slice(heap, wanted)?,
    })
}

// The turn of so many states in which state 0 makes `leaf(mark)` of a leaf and `node(mark)` of a node, and each other state a
// leaf 0 of everything.
pub fn turn_by<L: Fn(u32) -> Pattern, N: Fn(u32) -> Result<Pattern, AllocError>>(
    heap: Global,
    states: u32,
    leaf: L,
    node: N,
) -> Result<Turn, AllocError>
    requires leaf { L.IsAlwaysCallable leaf }
    requires node { N.IsAlwaysCallable node }
{
    let others = MARKS.saturating_mul(states.saturating_sub(1));
    let mut leaves: Vec<Pattern> = (0..MARKS).map(|mark| leaf(mark)).collect(heap)?;
    let mut nodes: Vec<Pattern> = (0..MARKS).map(|mark| node(mark)).try_collect(heap)?;
    leaves.extend((0..others).map(|_| Pattern::Leaf(0)))?;
    nodes.extend((0..others).map(|_| Pattern::Leaf(0)))?;
    Ok(Turn {
        states,
        leaves,
        nodes,
    })
}
