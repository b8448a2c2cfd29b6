// Jobs as words, made of their tables, for trying the readers and the calls.
#![tactic(auto)]

ghost use Rattle.std.specs.Prelude.{◌≡◌, ◌++◌, OnOk, IfOk};
ghost use Rattle.made_jobs.specs.Made.{type_words, job_words};

use std::alloc::{AllocError, Global};

// The worked case: two marks, one state, a leaf stays, a node a(l, r) becomes 1(r, l); both types are
// 'the number of leaves marked 1 is even'.
pub const SWAP: [u32; 48] = [
    2, 2, 0, 1, 0, 1, 1, 0, 0, 1, 1, 0, 1, 0, 1, 0, 0, 0, 1, 1, 1, 2, 0, 1, 2, 0, 0, 1, 1, 2, 0, 1,
    2, 0, 0, 2, 0, 1, 0, 1, 1, 0, 0, 1, 1, 0, 1, 0,
];

// The tables of a type: the kinds of leaves by mark, those of nodes by mark and kinds of the parts, and the kinds that are wanted.
#[derive(Clone, Copy)]
pub struct TypeTables<'a> {
    pub kinds: u32,
    pub leaves: &'a [u32],
    pub nodes: &'a [u32],
    pub wanted: &'a [u32],
}

// The tables of a turn: its patterns for leaves and for nodes, by state and mark.
#[derive(Clone, Copy)]
pub struct TurnTables<'a> {
    pub states: u32,
    pub leaves: &'a [u32],
    pub nodes: &'a [u32],
}

// A turn of two states and two marks: state 0 keeps a leaf, and of a(l, r) makes a(state 1 of l, state 0 of r); state 1 makes a leaf 0 of
// everything.
pub const TWO_STATES: TurnTables<'static> = TurnTables {
    states: 2,
    leaves: &[0, 0, 0, 1, 0, 0, 0, 0],
    nodes: &[1, 0, 2, 1, 0, 2, 0, 1, 1, 1, 2, 1, 0, 2, 0, 1, 0, 0, 0, 0],
};

// A turn of one state and two marks: a leaf stays, and a node becomes its left part twice.
pub const LEFT_TWICE: TurnTables<'static> = TurnTables {
    states: 1,
    leaves: &[0, 0, 0, 1],
    nodes: &[1, 1, 2, 0, 0, 2, 0, 0, 1, 1, 2, 0, 0, 2, 0, 0],
};

// The tables of a job.
#[derive(Clone, Copy)]
pub struct JobTables<'a> {
    pub marks: u32,
    pub from: TypeTables<'a>,
    pub turn: TurnTables<'a>,
    pub to: TypeTables<'a>,
}

impl<'a> TypeTables<'a> {
    // Adds the words of the type.
    fn push_to(self, job: &mut Vec<u32>) -> Result<(), AllocError>
        ensures { OnOk result (job.new.items ≡ job.old.items ++ type_words self.entry) }
    {
        job.push(self.kinds)?;
        job.extend_from_slice(self.leaves)?;
        job.extend_from_slice(self.nodes)?;
        job.push(u32::try_from(self.wanted.len()).unwrap_or(u32::MAX))?;
        job.extend_from_slice(self.wanted)
    }
}

impl<'a> JobTables<'a> {
    // The words that the tables are written as, whether they are a job or not.
    pub fn words(self, heap: Global) -> Result<Vec<u32>, AllocError>
        ensures { IfOk result (λ job. job.items ≡ job_words self.entry) }
    {
        let mut job = Vec::new(heap);
        job.push(self.marks)?;
        self.from.push_to(&mut job)?;
        job.push(self.turn.states)?;
        job.extend_from_slice(self.turn.leaves)?;
        job.extend_from_slice(self.turn.nodes)?;
        self.to.push_to(&mut job)?;
        Ok(job)
    }
}

#[cfg(test)]
mod tests {
    use super::*;
    use std::test::Fail;

    #[test]
    fn the_worked_case(rt: HostRuntime) -> Result<(), Fail> {
        let even = TypeTables {
            kinds: 2,
            leaves: &[0, 1],
            nodes: &[0, 1, 1, 0, 0, 1, 1, 0],
            wanted: &[0],
        };
        let swap = TurnTables {
            states: 1,
            leaves: &[0, 0, 0, 1],
            nodes: &[1, 1, 2, 0, 1, 2, 0, 0, 1, 1, 2, 0, 1, 2, 0, 0],
        };
        let job = JobTables {
            marks: 2,
            from: even,
            turn: swap,
            to: even,
        };
        assert_eq!(rt; job.words(rt.alloc())?.as_slice(), SWAP.as_slice());
        Ok(())
    }
}
