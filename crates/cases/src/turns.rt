// The call `turn`, on one case of each sort.
use crate::jobs::{LARGEST, SAMPLE, job_of, right_comb};
use made_jobs::{LEFT_TWICE, SWAP, TWO_STATES, TurnTables};
use turned::turn;

// A longer room is not shown.
const SHORT: usize = 20;

// The work words that `turn` asks for, by a formula of its own: the call compares with `turn_words`, so of a number taken from there
// one word less is refused whatever the number is.
fn work_words(job: &[u32], tree: &[u32]) -> usize {
    let words = 4096 + 4 * job.len() as u128 + 8 * tree.len() as u128;
    usize::try_from(words).unwrap_or(usize::MAX)
}

// A call of `turn`: its job, its tree, and so many words of room, filled with nines. (`judged_cases` has one of `judge`, which takes
// and answers other things.)
#[derive(Clone, Copy)]
struct Case<'a> {
    job: &'a [u32],
    tree: &'a [u32],
    room: usize,
}

impl<'a> Case<'a> {
    fn new(job: &'a [u32], tree: &'a [u32], room: usize) -> Case<'a> {
        Case { job, tree, room }
    }

    // The call with just the work words that are asked for.
    fn show(self, rt: &HostRuntime, name: &str) -> anyhow::Result<()> {
        self.show_lacking(rt, name, 0)
    }

    // The same, with so many work words less.
    fn show_lacking(self, rt: &HostRuntime, name: &str, lacks: usize) -> anyhow::Result<()> {
        let Case { job, tree, room } = self;
        let work = work_words(job, tree);
        let mut out = vec![in rt.alloc(); 9u32; room]?;
        let mut lent = vec![in rt.alloc(); 0u32; work.saturating_sub(lacks)]?;
        match turn(job, tree, &mut out, &mut lent) {
            Ok(k) if room <= SHORT => println!(rt; "{name}: result of {k} words: {out:?}")?,
            Ok(k) => println!(rt; "{name}: result of {k} words")?,
            Err(why) => {
                let kept = out.iter().copied().min().unwrap_or(9);
                println!(rt; "{name}: {why}, least word of out {kept}")?
            }
        }
        Ok(())
    }
}

// One state, a leaf stays, and these patterns for nodes.
fn on_nodes(nodes: &[u32]) -> TurnTables<'_> {
    TurnTables {
        states: 1,
        leaves: &[0, 0, 0, 1],
        nodes,
    }
}

// Of a node 0(x, x) is made, x being what becomes of its right part.
fn doubling(rt: &HostRuntime) -> anyhow::Result<()> {
    let heap = rt.alloc();
    let nodes = [1, 0, 2, 0, 1, 2, 0, 1, 1, 0, 2, 0, 1, 2, 0, 1];
    let job = job_of(heap, on_nodes(&nodes))?;
    let tree = right_comb(heap, 200)?;
    for room in [0, 1, 1_000, 100_000] {
        Case::new(&job, &tree, room).show(rt, "200 nodes doubled")?;
    }
    let three = right_comb(heap, 3)?;
    Case::new(&job, &three, 30).show(rt, "3 nodes doubled")
}

fn patterns(rt: &HostRuntime) -> anyhow::Result<()> {
    let heap = rt.alloc();
    let nodes = [1, 1, 2, 0, 1, 2, 0, 0, 1, 1, 2, 0, 1, 2, 0, 0];
    let exchange = job_of(heap, on_nodes(&nodes))?;
    Case::new(&exchange, &SAMPLE, 12).show(rt, "parts exchanged")?;
    Case::new(&exchange, &SAMPLE, 10).show(rt, "room for exactly the result")?;
    Case::new(&exchange, &SAMPLE, 9).show(rt, "one word less")?;
    let none = job_of(heap, on_nodes(&[0, 1, 0, 1]))?;
    Case::new(&none, &SAMPLE, 2).show(rt, "no part used")?;
    let twice = job_of(heap, LEFT_TWICE)?;
    Case::new(&twice, &[1, 0, 0, 1, 0, 0], 6).show(rt, "the left part twice")?;
    let bare = job_of(heap, on_nodes(&[2, 0, 1, 2, 0, 1]))?;
    let long = right_comb(heap, 1_000_000)?;
    Case::new(&bare, &long, 4).show(rt, "nothing but the right part, a million times")
}

fn two_states(rt: &HostRuntime) -> anyhow::Result<()> {
    let job = job_of(rt.alloc(), TWO_STATES)?;
    Case::new(&job, &[1, 0, 0, 1, 1, 1, 0, 1, 0, 1], 10).show(rt, "two states")
}

fn largest(rt: &HostRuntime) -> anyhow::Result<()> {
    let job = LARGEST.job(rt.alloc())?;
    let node = [1, 63, 0, 0, 0, 63];
    Case::new(&job, &[0, 63], 2).show(rt, "64 of everything, a leaf")?;
    Case::new(&job, &node, 254).show(rt, "64 of everything, a node")?;
    Case::new(&job, &node, 253).show(rt, "64 of everything, a word less")
}

fn refusals(rt: &HostRuntime) -> anyhow::Result<()> {
    let even = [1, 0, 0, 1, 0, 1];
    let case = Case::new(&SWAP, &even, 8);
    case.show(rt, "work words as asked for")?;
    case.show_lacking(rt, "one work word less", 1)?;
    Case::new(&SWAP, &SAMPLE, 1).show(rt, "an odd tree, room or not")?;
    Case::new(&[2, 2], &even, 8).show(rt, "no job")?;
    Case::new(&SWAP, &[1, 0, 0, 1], 8).show(rt, "no tree")?;
    Case::new(&SWAP, &[0, 2], 8).show(rt, "a mark too large")?;
    Case::new(&[], &[], 0).show(rt, "no words")
}

pub fn show_turns(rt: &HostRuntime) -> anyhow::Result<()> {
    patterns(rt)?;
    doubling(rt)?;
    two_states(rt)?;
    largest(rt)?;
    refusals(rt)
}
