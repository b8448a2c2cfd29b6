// The lines of an input, which is read in blocks.
use crate::buffers::{BLOCK_BYTES, MOST_LINE_BYTES};
use crate::refusal::Refusal;
use std::alloc::Global;
use std::io;
use std::io::{BufRead, BufReader, Read};

#[derive(Drop)]
pub struct Lines<R: Read + Drop> {
    input: BufReader<R>,
}

impl<R: Read + Drop> Lines<R> {
    pub fn new(heap: Global, input: R) -> io::Result<Lines<R>> {
        let input = BufReader::with_capacity(heap, BLOCK_BYTES, input)?;
        Ok(Lines { input })
    }

    // Reads the next line into `line`, without the byte that ends it; none at the end of the input. Of a line with more
    // bytes than there is room for, the rest is skipped.
    pub fn next(&mut self, line: &mut Vec<u8>) -> io::Result<Option<Result<(), Refusal>>> {
        line.clear();
        let mut room = self.input.by_ref().take(MOST_LINE_BYTES as u64 + 1);
        if room.read_until(b'\n', line)? == 0 {
            return Ok(None);
        }
        if line.last() == Some(&b'\n') {
            line.pop();
        }
        if line.len() > MOST_LINE_BYTES {
            self.input.skip_until(b'\n')?;
            return Ok(Some(Err(Refusal::TooLong)));
        }
        Ok(Some(Ok(())))
    }
}
