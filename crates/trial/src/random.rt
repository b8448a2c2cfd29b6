// Jobs made at random, of few kinds, by a generator that gives the same numbers each time (splitmix64).
use crate::jobs::{Job, Pattern, Side, Turn, Type};
use std::alloc::{AllocError, Global};

#[derive(Drop)]
pub struct Random {
    state: u64,
}

impl Random {
    pub fn new(seed: u64) -> Random {
        Random { state: seed }
    }

    fn next(&mut self) -> u64 {
        self.state = self.state.wrapping_add(0x9e37_79b9_7f4a_7c15);
        let mut z = self.state;
        z = (z ^ (z >> 30)).wrapping_mul(0xbf58_476d_1ce4_e5b9);
        z = (z ^ (z >> 27)).wrapping_mul(0x94d0_49bb_1331_11eb);
        z ^ (z >> 31)
    }

    // A number below n, or 0.
    fn below(&mut self, n: u32) -> u32 {
        u32::try_from(self.next() % u64::from(n.max(1))).unwrap_or(0)
    }

    // True n times of m.
    fn chance(&mut self, n: u32, m: u32) -> bool {
        self.below(m) < n
    }

    fn table(&mut self, heap: Global, size: u32, kinds: u32) -> Result<Vec<u32>, AllocError> {
        (0..size).map(|_| self.below(kinds)).collect(heap)
    }

    // One kind alone, or all but one, from the last to the first; now and then any of them.
    fn wanted(&mut self, heap: Global, kinds: u32, alone: bool) -> Result<Vec<u32>, AllocError> {
        let one = self.below(kinds);
        let any = self.chance(1, 8);
        (0..kinds)
            .rev()
            .filter(|kind| {
                if any {
                    self.chance(1, 2)
                } else {
                    (*kind == one) == alone
                }
            })
            .collect(heap)
    }

    // One to four kinds, more often four.
    fn automaton(&mut self, heap: Global, marks: u32, alone: bool) -> Result<Type, AllocError> {
        let kinds = self.below(8).saturating_add(1).min(4);
        let places = marks.saturating_mul(kinds).saturating_mul(kinds);
        Ok(Type {
            kinds,
            leaves: self.table(heap, marks, kinds)?,
            nodes: self.table(heap, places, kinds)?,
            wanted: self.wanted(heap, kinds, alone)?,
        })
    }

    // A pattern that is at most so deep, with parts if there are states to ask for.
    fn pattern(
        &mut self,
        heap: Global,
        marks: u32,
        states: u32,
        depth: u32,
    ) -> Result<Pattern, AllocError> {
        if depth > 1 && self.chance(depth, 6) {
            let mark = self.below(marks);
            let left = self.pattern(heap, marks, states, depth - 1)?;
            let right = self.pattern(heap, marks, states, depth - 1)?;
            return Pattern::node(heap, mark, left, right);
        }
        if states == 0 || self.chance(1, 4) {
            return Ok(Pattern::Leaf(self.below(marks)));
        }
        let side = if self.chance(1, 2) {
            Side::Left
        } else {
            Side::Right
        };
        Ok(Pattern::Part(self.below(states), side))
    }

    fn patterns(
        &mut self,
        heap: Global,
        marks: u32,
        states: u32,
        count: u32,
    ) -> Result<Vec<Pattern>, AllocError> {
        (0..count)
            .map(|_| self.pattern(heap, marks, states, 4))
            .try_collect(heap)
    }

    // One to three marks, more often one, so that the trees that break some jobs are large, and one to three states.
    // Few kinds of trees come in, and most may come out.
    pub fn job(&mut self, heap: Global) -> Result<Job, AllocError> {
        let marks = match self.below(6) {
            0..=2 => 1,
            3 | 4 => 2,
            _ => 3,
        };
        let states = self.below(5).saturating_add(1).min(3);
        let count = states.saturating_mul(marks);
        Ok(Job {
            marks,
            from: self.automaton(heap, marks, true)?,
            turn: Turn {
                states,
                leaves: self.patterns(heap, marks, 0, count)?,
                nodes: self.patterns(heap, marks, states, count)?,
            },
            to: self.automaton(heap, marks, false)?,
        })
    }
}
