// The calls for other languages: slices are a pointer and a length, and answers are numbers.
#![tactic(auto)]

ghost use Rattle.std.specs.Prelude.{◌≡◌, ◌+◌, ◌-◌, ◌*◌, ◌^◌, min, length};
ghost use Rattle.fershuul.specs.Coded.{JudgeCoded, TurnCoded};

use turned::{Unjudged, Unturned, Verdict, judge, judge_words, turn, turn_words};

// Judges a job. 0: fits; 1: breaks, by the tree whose words, so many, stand first in `tree`; 2: no job; 3: many; 4: out
// full; 5: few. `words` is written at 1 alone.
// The answer is a number with a place for a value beside it, since this is an interface to C.
#[unsafe(no_mangle)]
pub extern "C" fn fershuul_judge(
    job: &[u32],
    most: u32,
    tree: &mut [u32],
    work: &mut [u32],
    words: &mut usize,
) -> u32
    ensures { JudgeCoded job.now most tree.old tree.new (length work.old) words.old words.new result }
{
    match judge(job, most, tree, work) {
        Ok(Verdict::Fits) => 0,
        Ok(Verdict::Breaks(k)) => {
            *words = k;
            1
        }
        Err(Unjudged::NoJob) => 2,
        Err(Unjudged::Many) => 3,
        Err(Unjudged::OutFull) => 4,
        Err(Unjudged::Few) => 5,
    }
}

// Turns a tree. 0: the words of the result, so many, stand first in `out`; 1: not of; 2: no such; 3: no tree; 4: full;
// 5: small. `words` is written at 0 alone.
// The answer is a number with a place for a value beside it, since this is an interface to C.
#[unsafe(no_mangle)]
pub extern "C" fn fershuul_turn(
    job: &[u32],
    tree: &[u32],
    out: &mut [u32],
    work: &mut [u32],
    words: &mut usize,
) -> u32
    ensures { TurnCoded job.now tree.now out.old out.new (length work.old) words.old words.new result }
{
    match turn(job, tree, out, work) {
        Ok(k) => {
            *words = k;
            0
        }
        Err(Unturned::NotOf) => 1,
        Err(Unturned::NoSuch) => 2,
        Err(Unturned::NoTree) => 3,
        Err(Unturned::Full) => 4,
        Err(Unturned::Small) => 5,
    }
}

// The work words that a job of so many words and so many classes asks for, or the greatest number where they are more.
#[unsafe(no_mangle)]
pub extern "C" fn fershuul_judge_words(job: usize, most: u32) -> usize
    ensures { result ≡ min (4096 + 4 * job + (most + 1) * (256 + most)) (2 ^ 64 - 1) }
{
    usize::try_from(judge_words(job, most)).unwrap_or(usize::MAX)
}

// The work words that a job and a tree of so many words ask for, or the greatest number where they are more.
#[unsafe(no_mangle)]
pub extern "C" fn fershuul_turn_words(job: usize, tree: usize) -> usize
    ensures { result ≡ min (4096 + (4 * job + 8 * tree)) (2 ^ 64 - 1) }
{
    usize::try_from(turn_words(job, tree)).unwrap_or(usize::MAX)
}
