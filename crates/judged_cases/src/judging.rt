// The call `judge`, on the worked cases and at the limits of what is lent.
use made_jobs::{JobTables, LEFT_TWICE, SWAP, TWO_STATES, TurnTables, TypeTables};
use std::alloc::{AllocError, Global};
use turned::{Judged, Unjudged, Verdict, judge};

// A room of so many words is filled with nines before a call.
const ROOM: usize = 400;

// No more classes are counted.
const MOST: u32 = 200;

// So many words of a tree are shown.
const SHORT: usize = 12;

// The work words that `judge` asks for, by a formula of its own: the call compares with `judge_words`, so of a number taken from there
// one word less is refused whatever the number is.
fn work_words(job: &[u32], most: u32) -> usize {
    let n = u128::from(most);
    let words = 4096 + 4 * job.len() as u128 + (n + 1) * (256 + n);
    usize::try_from(words).unwrap_or(usize::MAX)
}

// A call of `judge`: its job, how many classes are allowed, so many words of room, and so many work words.
#[derive(Clone, Copy)]
struct Case<'a> {
    job: &'a [u32],
    most: u32,
    room: usize,
    work: usize,
}

impl<'a> Case<'a> {
    // With room enough and just the work words that are asked for.
    fn new(job: &'a [u32], most: u32) -> Case<'a> {
        let work = work_words(job, most);
        Case {
            job,
            most,
            room: ROOM,
            work,
        }
    }

    // The answer, and what then stands in the room.
    fn call(self, heap: Global) -> Result<(Judged, Vec<u32>), AllocError> {
        let mut tree = vec![in heap; 9u32; self.room]?;
        let mut lent = vec![in heap; 0u32; self.work]?;
        let answer = judge(self.job, self.most, &mut tree, &mut lent);
        Ok((answer, tree))
    }

    fn show(self, rt: &HostRuntime, name: &str) -> anyhow::Result<()> {
        let (answer, tree) = self.call(rt.alloc())?;
        match answer {
            Ok(verdict) => print!(rt; "{name}: {verdict}")?,
            Err(why) => print!(rt; "{name}: {why}")?,
        }
        let words = match answer {
            Ok(Verdict::Breaks(words)) => words,
            _ => 0,
        };
        let shown = tree.get(0..words.min(SHORT)).unwrap_or(&[]);
        let kept = tree.iter().skip(words).copied().min().unwrap_or(9);
        println!(rt; ", {words} words {shown:?}, least word behind {kept}")?;
        Ok(())
    }
}

// How many classes a job has: the least number that is not answered by `many`, or `MOST`. (A `for`, since each call may fail.)
fn count_classes(heap: Global, job: &[u32]) -> Result<u32, AllocError> {
    for most in 0..MOST {
        let (answer, _) = Case::new(job, most).call(heap)?;
        if answer != Err(Unjudged::Many) {
            return Ok(most);
        }
    }
    Ok(MOST)
}

// The job judged with as many classes as it has, and with one less.
fn show(rt: &HostRuntime, name: &str, job: &[u32]) -> anyhow::Result<()> {
    let classes = count_classes(rt.alloc(), job)?;
    println!(rt; "{name}: {classes} classes")?;
    Case::new(job, classes).show(rt, name)?;
    Case::new(job, classes.saturating_sub(1)).show(rt, "with one less")
}

// Two marks: the number of leaves marked 1 is even (kind 0) or odd.
fn parity(wanted: &[u32]) -> TypeTables<'_> {
    TypeTables {
        kinds: 2,
        leaves: &[0, 1],
        nodes: &[0, 1, 1, 0, 0, 1, 1, 0],
        wanted,
    }
}

// Two marks: no leaf is marked 1 (kind 0), or some is.
fn no_ones(wanted: &[u32]) -> TypeTables<'_> {
    TypeTables {
        kinds: 2,
        leaves: &[0, 1],
        nodes: &[0, 1, 1, 1, 0, 1, 1, 1],
        wanted,
    }
}

// Everything becomes a leaf 0.
const ZERO: TurnTables<'static> = TurnTables {
    states: 1,
    leaves: &[0, 0, 0, 0],
    nodes: &[0, 0, 0, 0],
};

// A job with two marks, of trees by the parity of their leaves 1.
fn of_parity(
    heap: Global,
    from: &[u32],
    turn: TurnTables,
    to: TypeTables,
) -> Result<Vec<u32>, AllocError> {
    let job = JobTables {
        marks: 2,
        from: parity(from),
        turn,
        to,
    };
    job.words(heap)
}

fn small_cases(rt: &HostRuntime) -> anyhow::Result<()> {
    let heap = rt.alloc();
    show(rt, "parts exchanged", &SWAP)?;
    let job = of_parity(heap, &[0], LEFT_TWICE, no_ones(&[0]))?;
    show(rt, "left part twice", &job)?;
    let job = of_parity(heap, &[0], ZERO, no_ones(&[0]))?;
    show(rt, "a leaf 0 of everything", &job)?;
    let job = of_parity(heap, &[], LEFT_TWICE, no_ones(&[0]))?;
    show(rt, "nothing comes in", &job)?;
    let job = of_parity(heap, &[0, 1], LEFT_TWICE, no_ones(&[]))?;
    show(rt, "nothing may come out", &job)
}

// A list: nodes 0 whose left part is a leaf, ending in a leaf 0. Kinds: leaf 0, leaf 1, a longer list, anything else.
fn lists(rt: &HostRuntime) -> anyhow::Result<()> {
    let list = TypeTables {
        kinds: 4,
        leaves: &[0, 1],
        nodes: &[
            2, 3, 2, 3, 2, 3, 2, 3, 3, 3, 3, 3, 3, 3, 3, 3, 3, 3, 3, 3, 3, 3, 3, 3, 3, 3, 3, 3, 3,
            3, 3, 3,
        ],
        wanted: &[0, 2],
    };
    let zeros = TypeTables {
        kinds: 2,
        leaves: &[0, 1],
        nodes: &[0, 1, 1, 1, 1, 1, 1, 1],
        wanted: &[0],
    };
    let job = JobTables {
        marks: 2,
        from: list,
        turn: TWO_STATES,
        to: zeros,
    };
    show(rt, "two states on lists", &job.words(rt.alloc())?)
}

// The table of a type with one mark whose kinds are 0 .. kinds - 1: the kind of a node by its parts' kinds.
fn table_by<F: Fn(u32, u32) -> u32>(
    heap: Global,
    kinds: u32,
    kind: F,
) -> Result<Vec<u32>, AllocError>
    requires { F.IsAlwaysCallable kind }
{
    let mut nodes = Vec::new(heap);
    for l in 0..kinds {
        nodes.extend((0..kinds).map(|r| kind(l, r)))?;
    }
    Ok(nodes)
}

// One mark: a turn that keeps every tree.
const KEEPS: TurnTables<'static> = TurnTables {
    states: 1,
    leaves: &[0, 0],
    nodes: &[1, 0, 2, 0, 0, 2, 0, 1],
};

// The words of a job with one mark that keeps every tree.
fn kept<'a>(
    heap: Global,
    from: TypeTables<'a>,
    to: TypeTables<'a>,
) -> Result<Vec<u32>, AllocError> {
    let job = JobTables {
        marks: 1,
        from,
        turn: KEEPS,
        to,
    };
    job.words(heap)
}

// Leaves are counted modulo 60 before, and 59 are wanted; after, up to 59, and fewer are wanted. The least tree that breaks it
// has 59 leaves.
fn sixty(rt: &HostRuntime) -> anyhow::Result<()> {
    let heap = rt.alloc();
    let modulo = table_by(heap, 60, |l, r| l.saturating_add(r) % 60)?;
    let capped = table_by(heap, 60, |l, r| l.saturating_add(r).min(59))?;
    let fewer: Vec<u32> = (1..59).collect(heap)?;
    let from = TypeTables {
        kinds: 60,
        leaves: &[1],
        nodes: &modulo,
        wanted: &[59],
    };
    let to = TypeTables {
        kinds: 60,
        leaves: &[1],
        nodes: &capped,
        wanted: &fewer,
    };
    let job = kept(heap, from, to)?;
    show(rt, "59 leaves", &job)?;
    let words = 4 * 58 + 2;
    let case = Case::new(&job, MOST);
    Case {
        room: words,
        ..case
    }
    .show(rt, "room for exactly the tree")?;
    Case {
        room: words - 1,
        ..case
    }
    .show(rt, "one word less")
}

// One more than the height of both parts where they are equally high, by a modulus; else the modulus itself.
fn full_height(modulus: u32, l: u32, r: u32) -> u32 {
    if l == r && l < modulus {
        (l + 1) % modulus
    } else {
        modulus
    }
}

// Full trees by their height, modulo 9 before and modulo 8 after: the least that is 7 before and 6 after is 70 levels high,
// and has 2^71 - 1 leaves and nodes.
fn towers(rt: &HostRuntime) -> anyhow::Result<()> {
    let heap = rt.alloc();
    let nine = table_by(heap, 10, |l, r| full_height(9, l, r))?;
    let eight = table_by(heap, 9, |l, r| full_height(8, l, r))?;
    let from = TypeTables {
        kinds: 10,
        leaves: &[0],
        nodes: &nine,
        wanted: &[7],
    };
    let to = TypeTables {
        kinds: 9,
        leaves: &[0],
        nodes: &eight,
        wanted: &[0, 1, 2, 3, 4, 5, 7, 8],
    };
    show(rt, "a full tree of 70 levels", &kept(heap, from, to)?)
}

fn refusals(rt: &HostRuntime) -> anyhow::Result<()> {
    let case = Case::new(&SWAP, 2);
    let work = case.work;
    case.show(rt, "work words as asked for")?;
    Case {
        work: work.saturating_sub(1),
        ..case
    }
    .show(rt, "one work word less")?;
    Case::new(&SWAP, 0).show(rt, "no class allowed")?;
    let lent = Case {
        work: 1_000_000,
        ..case
    };
    Case {
        most: u32::MAX,
        ..lent
    }
    .show(rt, "2^32 - 1 classes")?;
    Case {
        most: 65_535,
        ..lent
    }
    .show(rt, "2^16 - 1 classes")?;
    Case {
        job: &[2, 2],
        ..case
    }
    .show(rt, "no job")?;
    Case {
        room: 0,
        ..Case::new(&[], 0)
    }
    .show(rt, "no words at all")
}

pub fn show_judging(rt: &HostRuntime) -> anyhow::Result<()> {
    small_cases(rt)?;
    lists(rt)?;
    sixty(rt)?;
    towers(rt)?;
    refusals(rt)
}
