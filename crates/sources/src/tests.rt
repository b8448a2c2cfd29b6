// The job of a file's bytes, and why they are none.
use crate::{Limits, parse_job};
use std::alloc::{AllocError, Global};
use std::test::Fail;

const LEAST: &str = "marks 1
from { kinds 1
_ -> 0 _(_, _) -> 0 wanted 0
}
turn { states 1
0(_) -> _ 0(_(left, right)) -> _
}
to { kinds 1
_ -> 0 _(_, _) -> 0 wanted 0
}
";

// What comes of a file's bytes. (The tests of `text` and `terms` have one each, of their own reader.)
fn told(heap: Global, text: &[u8], bytes: usize, words: usize) -> Result<String, AllocError> {
    let file = String::from_str(heap, "least.job")?;
    match parse_job(heap, file, text, Limits { bytes, words }) {
        Ok(job) => {
            let len = job.words.len();
            format!(in heap; "{len} words")
        }
        Err(error) => format!(in heap; "{error}"),
    }
}

#[test]
fn least(rt: HostRuntime) -> Result<(), Fail> {
    let heap = rt.alloc();
    assert_eq!(rt; told(heap, LEAST.as_bytes(), 200, 16)?.as_str(), "16 words");
    assert_eq!(rt;
        told(heap, LEAST.as_bytes(), 200, 15)?.as_str(),
        "least.job:11:1: more than 15 words"
    );
    Ok(())
}

#[test]
fn refused(rt: HostRuntime) -> Result<(), Fail> {
    let heap = rt.alloc();
    assert_eq!(rt;
        told(heap, LEAST.as_bytes(), 99, 16)?.as_str(),
        "least.job: the job's text is larger than 99 bytes"
    );
    assert_eq!(rt;
        told(heap, b"marks\n \xff", 99, 16)?.as_str(),
        "least.job:2:2: the file is not UTF-8"
    );
    Ok(())
}
