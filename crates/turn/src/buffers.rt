// The buffers of the program, made once, and what is done in them with one line.
//
//   the job's text        131,072 bytes
//   the job's words       131,072 bytes    (32,768 words)
//   a block of input       16,384 bytes
//   a line                262,145 bytes    (with the end of the line)
//   the tree's words      262,144 bytes    (65,536 words)
//   the result's words    262,144 bytes    (65,536 words)
//   the work words      2,637,824 bytes    (659,456 words: 4,096, 4 for each of the job's and 8 for each of the tree's)
//   the result's text     262,144 bytes
//   the open nodes        131,072 bytes    (32,768 at most, one byte each, in a vector that doubles; of the tree, then of the result)
//   all together        4,096,001 bytes, of 4,194,304 (4 MiB)
use crate::refusal::Refusal;
use sources::Limits;
use std::alloc::{AllocError, Global};
use terms::{read_term, write_term};
use text::Job;
use turned::Unturned;

const MOST_JOB_WORDS: usize = 32_768;

pub const LIMITS: Limits = Limits {
    bytes: 131_072,
    words: MOST_JOB_WORDS,
};

pub const BLOCK_BYTES: usize = 16_384;

pub const MOST_LINE_BYTES: usize = 262_144;

const MOST_TREE_WORDS: usize = 65_536;

const MOST_RESULT_WORDS: usize = 65_536;

const WORK_WORDS: usize = 4_096 + 4 * MOST_JOB_WORDS + 8 * MOST_TREE_WORDS;

const MOST_RESULT_BYTES: usize = 262_144;

#[derive(Drop)]
pub struct Buffers {
    pub line: Vec<u8>,
    tree: Vec<u32>,
    result: Vec<u32>,
    work: Vec<u32>,
    // The term of the result, with the end of its line.
    pub text: Vec<u8>,
}

impl Buffers {
    pub fn new(heap: Global) -> Result<Buffers, AllocError> {
        let line = Vec::with_capacity(heap, MOST_LINE_BYTES + 1)?;
        let tree = Vec::with_capacity(heap, MOST_TREE_WORDS)?;
        let result = vec![in heap; 0u32; MOST_RESULT_WORDS]?;
        let work = vec![in heap; 0u32; WORK_WORDS]?;
        let text = Vec::with_capacity(heap, MOST_RESULT_BYTES)?;
        Ok(Buffers {
            line,
            tree,
            result,
            work,
            text,
        })
    }

    // Turns the tree of the line. The result's term, with the end of its line, then stands in `text`.
    pub fn turn(&mut self, heap: Global, job: &Job) -> Result<(), Refusal> {
        if self.line.iter().all(|byte| byte.is_ascii_whitespace()) {
            return Err(Refusal::Unturned(Unturned::NoTree));
        }
        read_term(
            heap,
            &self.line,
            &job.marks,
            MOST_TREE_WORDS,
            &mut self.tree,
        )?;
        let result = self.result.as_mut_slice();
        let len = turned::turn(&job.words, &self.tree, result, self.work.as_mut_slice())?;
        let words = self.result.get(..len).ok_or(Unturned::Full)?;
        write_term(
            heap,
            words,
            &job.marks,
            MOST_RESULT_BYTES - 1,
            &mut self.text,
        )?;
        self.text.push(b'\n')?;
        Ok(())
    }
}
