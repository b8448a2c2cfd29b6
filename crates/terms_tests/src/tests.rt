use crate::{told, written, zero_one};
use std::alloc::Global;
use std::test::Fail;
use terms::{read_term, write_term};

#[test]
fn worked_tree(rt: HostRuntime) -> Result<(), Fail> {
    let heap = rt.alloc();
    let marks = zero_one(heap)?;
    let mut words = Vec::new(heap);
    read_term(heap, b" 0(zero, 0\t(1,0 ) )", &marks, 10, &mut words)?;
    assert_eq!(rt; words.as_slice(), &[1, 0, 0, 0, 1, 0, 0, 1, 0, 0][..]);
    assert_eq!(rt;
        told(heap, "0(0, 0(1, 0))", 10)?.as_str(),
        "zero(zero, zero(one, zero))"
    );
    assert_eq!(rt; told(heap, "one", 2)?.as_str(), "one");
    Ok(())
}

#[test]
fn mistakes(rt: HostRuntime) -> Result<(), Fail> {
    let heap = rt.alloc();
    assert_eq!(rt;
        told(heap, "zero(two, 0)", 10)?.as_str(),
        "1:6: unknown mark `two`"
    );
    assert_eq!(rt;
        told(heap, "0(2, 0)", 10)?.as_str(),
        "1:3: number too large: `2` is not below 2, the number of marks"
    );
    assert_eq!(rt;
        told(heap, "0(0 0)", 10)?.as_str(),
        "1:5: expected `,`, found `0`"
    );
    assert_eq!(rt;
        told(heap, "0(0, 0", 10)?.as_str(),
        "1:7: expected `)`, but the text ends"
    );
    assert_eq!(rt;
        told(heap, "0(0, 0))", 10)?.as_str(),
        "1:8: expected the end of the text, found `)`"
    );
    assert_eq!(rt;
        told(heap, "0(0, 0(1, 0))", 9)?.as_str(),
        "1:12: more than 9 words"
    );
    Ok(())
}

#[test]
fn unwritten(rt: HostRuntime) -> Result<(), Fail> {
    let heap = rt.alloc();
    assert_eq!(rt;
        written(heap, &[1, 0, 0, 1, 0, 1], 14)?.as_str(),
        "zero(one, one)"
    );
    assert_eq!(rt;
        written(heap, &[1, 0, 0, 1, 0, 1], 13)?.as_str(),
        "too long"
    );
    assert_eq!(rt; written(heap, &[], 9)?.as_str(), "no tree");
    assert_eq!(rt; written(heap, &[0], 9)?.as_str(), "no tree");
    assert_eq!(rt; written(heap, &[0, 2], 9)?.as_str(), "no tree");
    assert_eq!(rt; written(heap, &[2, 0], 9)?.as_str(), "no tree");
    assert_eq!(rt; written(heap, &[0, 0, 0], 9)?.as_str(), "no tree");
    assert_eq!(rt; written(heap, &[1, 0, 0, 1], 99)?.as_str(), "no tree");
    Ok(())
}

// `begin` so many times, a leaf, and `end` as often.
fn comb(heap: Global, nodes: usize, begin: &str, end: &str) -> Result<String, Fail> {
    let mut text = begin.repeat(heap, nodes)?;
    text.push_str("one")?;
    text.push_str(end.repeat(heap, nodes)?.as_str())?;
    Ok(text)
}

// There and back.
fn back(heap: Global, text: &str) -> Result<bool, Fail> {
    let marks = zero_one(heap)?;
    let mut words = Vec::new(heap);
    read_term(heap, text.as_bytes(), &marks, 1_000_000, &mut words)?;
    let mut bytes = Vec::new(heap);
    write_term(heap, &words, &marks, 10_000_000, &mut bytes)?;
    Ok(bytes.as_slice() == text.as_bytes())
}

#[test]
fn combs(rt: HostRuntime) -> Result<(), Fail> {
    let heap = rt.alloc();
    let right = comb(heap, 100_000, "zero(one, ", ")")?;
    assert!(rt; back(heap, right.as_str())?);
    let left = comb(heap, 100_000, "zero(", ", one)")?;
    assert!(rt; back(heap, left.as_str())?);
    Ok(())
}
