// Jobs as plain data, and their rows of words.
use crate::trees::Tree;
use std::alloc::{AllocError, Global};

// A bottom-up automaton: the kind of a leaf by its mark, that of a node by its mark and the kinds of its parts. (Not the tables of
// `made_jobs`: a mistake there would stand in both programs.)
#[derive(Drop)]
pub struct Type {
    pub kinds: u32,
    pub leaves: Vec<u32>,
    pub nodes: Vec<u32>,
    pub wanted: Vec<u32>,
}

impl Type {
    pub fn leaf(&self, mark: u32) -> Option<u32> {
        self.leaves.get(mark as usize).copied()
    }

    pub fn node(&self, mark: u32, left: u32, right: u32) -> Option<u32> {
        let kinds = self.kinds as usize;
        let row = (mark as usize).saturating_mul(kinds);
        let row = row.saturating_add(left as usize).saturating_mul(kinds);
        self.nodes.get(row.saturating_add(right as usize)).copied()
    }

    pub fn wants(&self, kind: u32) -> bool {
        self.wanted.contains(&kind)
    }

    fn push_row(&self, row: &mut Vec<u32>) -> Result<(), AllocError> {
        row.push(self.kinds)?;
        row.extend_from_slice(&self.leaves)?;
        row.extend_from_slice(&self.nodes)?;
        row.push(u32::try_from(self.wanted.len()).unwrap_or(u32::MAX))?;
        row.extend_from_slice(&self.wanted)
    }
}

// A part of a node. The enums of the crates below are not used: a program that tries the calls shares no code with them.
#[derive(Clone, Copy)]
pub enum Side {
    Left,
    Right,
}

#[derive(Drop)]
pub enum Pattern {
    Leaf(u32),
    Node(u32, Box<Pattern>, Box<Pattern>),
    // what a state makes of the part on a side
    Part(u32, Side),
}

impl Pattern {
    pub fn node(
        heap: Global,
        mark: u32,
        left: Pattern,
        right: Pattern,
    ) -> Result<Pattern, AllocError> {
        let left = Box::new(heap, left)?;
        let right = Box::new(heap, right)?;
        Ok(Pattern::Node(mark, left, right))
    }

    fn push_row(&self, row: &mut Vec<u32>) -> Result<(), AllocError> {
        match self {
            Pattern::Leaf(mark) => row.extend_from_slice(&[0, *mark]),
            Pattern::Node(mark, left, right) => {
                row.extend_from_slice(&[1, *mark])?;
                left.push_row(row)?;
                right.push_row(row)
            }
            Pattern::Part(state, Side::Left) => row.extend_from_slice(&[2, *state, 0]),
            Pattern::Part(state, Side::Right) => row.extend_from_slice(&[2, *state, 1]),
        }
    }
}

fn push_patterns(patterns: &[Pattern], row: &mut Vec<u32>) -> Result<(), AllocError> {
    for pattern in patterns {
        pattern.push_row(row)?;
    }
    Ok(())
}

// A top-down transducer, with its patterns by state and then mark.
#[derive(Drop)]
pub struct Turn {
    pub states: u32,
    pub leaves: Vec<Pattern>,
    pub nodes: Vec<Pattern>,
}

#[derive(Drop)]
pub struct Job {
    pub marks: u32,
    pub from: Type,
    pub turn: Turn,
    pub to: Type,
}

impl Job {
    // The pattern for a state at a tree, by what the tree begins with.
    pub fn pattern(&self, state: u32, tree: Tree) -> Option<&Pattern> {
        let (patterns, mark) = match tree {
            Tree::Leaf(mark) => (&self.turn.leaves, mark),
            Tree::Node(mark, _, _) => (&self.turn.nodes, mark),
        };
        let row = (state as usize).saturating_mul(self.marks as usize);
        patterns.get(row.saturating_add(mark as usize))
    }

    pub fn row(&self, heap: Global) -> Result<Vec<u32>, AllocError> {
        let mut row = Vec::new(heap);
        row.push(self.marks)?;
        self.from.push_row(&mut row)?;
        row.push(self.turn.states)?;
        push_patterns(&self.turn.leaves, &mut row)?;
        push_patterns(&self.turn.nodes, &mut row)?;
        self.to.push_row(&mut row)?;
        Ok(row)
    }
}
