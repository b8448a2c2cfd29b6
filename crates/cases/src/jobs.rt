// Jobs and trees as words, made for trying the readers.
use made_jobs::{JobTables, TurnTables, TypeTables};
use std::alloc::{AllocError, Global};
use std::fmt;

// 0(0, 0(1, 0))
pub const SAMPLE: [u32; 10] = [1, 0, 0, 0, 1, 0, 0, 1, 0, 0];

// Two marks, and all trees.
const ALL: TypeTables<'static> = TypeTables {
    kinds: 1,
    leaves: &[0, 0],
    nodes: &[0, 0],
    wanted: &[0],
};

// How large a job is: its patterns for nodes are this deep, and use no part; all trees are of its types.
#[derive(Clone, Copy)]
pub struct Sizes {
    pub marks: u8,
    pub kinds: u8,
    pub states: u8,
    pub depth: u8,
}

// The sizes of the largest jobs that are allowed.
pub const LARGEST: Sizes = Sizes {
    marks: 64,
    kinds: 64,
    states: 64,
    depth: 64,
};

impl fmt::Display for Sizes {
    fn fmt<W: fmt::Write>(&self, f: &mut fmt::Formatter<W>) -> fmt::Result {
        let Sizes {
            marks,
            kinds,
            states,
            depth,
        } = *self;
        write!(
            f,
            "{marks} marks, {kinds} kinds, {states} states, {depth} deep"
        )
    }
}

// A pattern that is so deep: nodes to the right, ending in a leaf.
fn pattern(heap: Global, depth: u8) -> Result<Vec<u32>, AllocError> {
    let mut words = [1, 0, 0, 0].repeat(heap, usize::from(depth.saturating_sub(1)))?;
    words.extend_from_slice(&[0, 0])?;
    Ok(words)
}

impl Sizes {
    // A job of these sizes, whether they are allowed or not.
    pub fn job(self, heap: Global) -> Result<Vec<u32>, AllocError> {
        let marks = usize::from(self.marks);
        let kinds = usize::from(self.kinds);
        let patterns = usize::from(self.states) * marks;
        let leaf_kinds = vec![in heap; 0u32; marks]?;
        let node_kinds = vec![in heap; 0u32; kinds * kinds * marks]?;
        let on_leaf = [0, 0].repeat(heap, patterns)?;
        let on_node = pattern(heap, self.depth)?.repeat(heap, patterns)?;
        let all = TypeTables {
            kinds: u32::from(self.kinds),
            leaves: &leaf_kinds,
            nodes: &node_kinds,
            wanted: &[0],
        };
        let turn = TurnTables {
            states: u32::from(self.states),
            leaves: &on_leaf,
            nodes: &on_node,
        };
        let marks = u32::from(self.marks);
        let job = JobTables {
            marks,
            from: all,
            turn,
            to: all,
        };
        job.words(heap)
    }
}

// So many nodes in a row to the right, each with a leaf to its left.
pub fn right_comb(heap: Global, nodes: usize) -> Result<Vec<u32>, AllocError> {
    let mut tree = [1, 0, 0, 1].repeat(heap, nodes)?;
    tree.extend_from_slice(&[0, 0])?;
    Ok(tree)
}

// So many nodes in a row to the left, each with a leaf to its right.
pub fn left_comb(heap: Global, nodes: usize) -> Result<Vec<u32>, AllocError> {
    let mut tree = [1, 0].repeat(heap, nodes)?;
    tree.extend_from_slice(&[0, 0])?;
    tree.extend_from_slice(&[0, 1].repeat(heap, nodes)?)?;
    Ok(tree)
}

// A job with two marks and this turn; all trees are of its types.
pub fn job_of(heap: Global, turn: TurnTables) -> Result<Vec<u32>, AllocError> {
    let job = JobTables {
        marks: 2,
        from: ALL,
        turn,
        to: ALL,
    };
    job.words(heap)
}
