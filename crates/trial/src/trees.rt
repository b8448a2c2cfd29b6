// Trees as nodes in a vector, each behind its parts, and all trees of at most so many leaves and nodes in their order.
use std::alloc::{AllocError, Global};
use std::ops::Range;

// Parts are named by their places, not owned: trees share them, and what is worked out of a part is worked out once.
#[derive(Clone, Copy)]
pub enum Tree {
    Leaf(u32),
    // with the places of its parts
    Node(u32, usize, usize),
}

// The leaves and nodes of the tree that has these words, the whole tree last; none if no tree has them. (No `?` then: no tree is an
// answer, and the error is of memory.)
pub fn read_tree(heap: Global, words: &[u32]) -> Result<Option<Vec<Tree>>, AllocError> {
    let mut trees = Vec::new(heap);
    let mut parts = Vec::new(heap);
    for pair in words.chunks(2).rev() {
        let tree = match pair {
            [0, mark] => Tree::Leaf(*mark),
            [1, mark] => {
                let (Some(left), Some(right)) = (parts.pop(), parts.pop()) else {
                    return Ok(None);
                };
                Tree::Node(*mark, left, right)
            }
            _ => return Ok(None),
        };
        parts.push(trees.len())?;
        trees.push(tree)?;
    }
    Ok((parts.len() == 1).then_some(trees))
}

// All trees with so many marks, by their size and then in the order of trees.
#[derive(Drop)]
pub struct Forest {
    marks: u32,
    // the words of the largest
    pub longest: usize,
    pub trees: Vec<Tree>,
    // the words of the trees, one row behind the other, and where each row begins
    words: Vec<u32>,
    rows: Vec<usize>,
    // where the trees with so many nodes begin, and where the last of them end
    starts: Vec<usize>,
}

impl Forest {
    // All trees of at most so many nodes, and one leaf more.
    pub fn new(heap: Global, marks: u32, nodes: usize) -> Result<Forest, AllocError> {
        let mut forest = Forest {
            marks,
            longest: nodes.saturating_mul(4).saturating_add(2),
            trees: Vec::new(heap),
            words: Vec::new(heap),
            rows: Vec::new(heap),
            starts: Vec::new(heap),
        };
        for n in 0..=nodes {
            forest.starts.push(forest.trees.len())?;
            forest.push_size(n)?;
        }
        forest.starts.push(forest.trees.len())?;
        Ok(forest)
    }

    // The trees with so many nodes.
    fn with_nodes(&self, nodes: usize) -> Range<usize> {
        let start = self.starts.get(nodes).copied().unwrap_or(0);
        let end = self.starts.get(nodes.saturating_add(1)).copied();
        start..end.unwrap_or(start)
    }

    fn push_size(&mut self, nodes: usize) -> Result<(), AllocError> {
        for mark in 0..self.marks {
            match nodes.checked_sub(1) {
                None => self.push(Tree::Leaf(mark))?,
                Some(below) => self.push_splits(mark, below)?,
            }
        }
        Ok(())
    }

    // The nodes with a mark whose parts have so many nodes together.
    fn push_splits(&mut self, mark: u32, below: usize) -> Result<(), AllocError> {
        for left in 0..=below {
            self.push_pairs(mark, self.with_nodes(left), self.with_nodes(below - left))?;
        }
        Ok(())
    }

    fn push_pairs(
        &mut self,
        mark: u32,
        lefts: Range<usize>,
        rights: Range<usize>,
    ) -> Result<(), AllocError> {
        for left in lefts {
            for right in rights.clone()? {
                self.push(Tree::Node(mark, left, right))?;
            }
        }
        Ok(())
    }

    fn push(&mut self, tree: Tree) -> Result<(), AllocError> {
        self.trees.push(tree)?;
        self.rows.push(self.words.len())?;
        match tree {
            Tree::Leaf(mark) => self.words.extend_from_slice(&[0, mark])?,
            Tree::Node(mark, left, right) => {
                self.words.extend_from_slice(&[1, mark])?;
                self.repeat(left)?;
                self.repeat(right)?;
            }
        }
        Ok(())
    }

    // The row of a tree once more. (Word by word: it is copied out of the vector that it goes into.)
    fn repeat(&mut self, tree: usize) -> Result<(), AllocError> {
        for at in self.span(tree) {
            let word = self.words.get(at).copied().unwrap_or(0);
            self.words.push(word)?;
        }
        Ok(())
    }

    // Where the row of a tree stands.
    fn span(&self, tree: usize) -> Range<usize> {
        let start = self.rows.get(tree).copied();
        let end = self.rows.get(tree.saturating_add(1)).copied();
        let all = self.words.len();
        start.unwrap_or(all)..end.unwrap_or(all)
    }

    pub fn row(&self, tree: usize) -> &[u32] {
        self.words.get(self.span(tree)).unwrap_or(&[])
    }
}
