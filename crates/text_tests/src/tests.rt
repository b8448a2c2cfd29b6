// Jobs that are read, and mistakes with their places.
use crate::told;
use std::alloc::Global;
use std::test::Fail;
use text::read_job;

const SWAP: &str = "# A node's parts change places.
marks zero one

from {
  kinds even odd
  zero -> even
  one -> odd
  _(even, even) -> even
  _(odd, odd) -> even
  _(even, odd) -> odd
  _(odd, even) -> odd
  wanted even
}

turn {
  states s
  s(_) -> _
  s(_(left, right)) -> one(s(right), s(left))
}

to {
  kinds 2
  0 -> 0  1 -> 1
  _(0, 0)->0  _(1, 1)->0  _(0, 1)->1  _(1, 0)->1
  wanted 0
}
";

#[test]
fn swap(rt: HostRuntime) -> Result<(), Fail> {
    let job = read_job(rt.alloc(), SWAP)?;
    let row = [
        2, 2, 0, 1, 0, 1, 1, 0, 0, 1, 1, 0, 1, 0, // the marks, and the type of what comes in
        1, 0, 0, 0, 1, // the states, and the patterns for leaves
        1, 1, 2, 0, 1, 2, 0, 0, 1, 1, 2, 0, 1, 2, 0, 0, // the patterns for nodes
        2, 0, 1, 0, 1, 1, 0, 0, 1, 1, 0, 1, 0, // the type of what is to come out
    ];
    assert_eq!(rt; job.words.len(), 48);
    assert_eq!(rt; job.words.as_slice(), &row[..]);
    assert_eq!(rt; job.from.name(rt.alloc(), 1)?.as_str(), "odd");
    assert_eq!(rt; job.to.name(rt.alloc(), 1)?.as_str(), "1");
    Ok(())
}

#[test]
fn tokens(rt: HostRuntime) -> Result<(), Fail> {
    let heap = rt.alloc();
    assert_eq!(rt;
        told(heap, "")?.as_str(),
        "1:1: expected `marks`, but the text ends"
    );
    assert_eq!(rt;
        told(heap, "marks a\n é")?.as_str(),
        "2:2: unexpected character `é`"
    );
    assert_eq!(rt;
        told(heap, "# é\nturn")?.as_str(),
        "2:1: expected `marks`, found `turn`"
    );
    assert_eq!(rt;
        told(heap, "marks a from")?.as_str(),
        "1:9: expected a name or the end of the line, found `from`"
    );
    assert_eq!(rt;
        told(heap, "marks a\nfrom { kinds b-->")?.as_str(),
        "2:16: expected a name or the end of the line, found `->`"
    );
    Ok(())
}

#[test]
fn counts(rt: HostRuntime) -> Result<(), Fail> {
    let heap = rt.alloc();
    assert_eq!(rt;
        told(heap, "marks 0")?.as_str(),
        "1:7: the number of marks must be 1 to 64"
    );
    assert_eq!(rt;
        told(heap, "marks 65")?.as_str(),
        "1:7: the number of marks must be 1 to 64"
    );
    assert_eq!(rt;
        told(heap, "marks 64")?.as_str(),
        "1:9: expected `from`, but the text ends"
    );
    assert_eq!(rt;
        told(heap, "marks a b a")?.as_str(),
        "1:11: the mark `a` is given twice"
    );
    assert_eq!(rt;
        told(heap, "marks a\nfrom { kinds 2\n_ -> 2")?.as_str(),
        "3:6: number too large: `2` is not below 2, the number of kinds"
    );
    assert_eq!(rt;
        told(heap, "marks a\nfrom { kinds k\nb ->")?.as_str(),
        "3:1: unknown mark `b`"
    );
    Ok(())
}

#[test]
fn cases(rt: HostRuntime) -> Result<(), Fail> {
    let heap = rt.alloc();
    let twice = "marks a b\nfrom { kinds k l\na(_, k) -> k\nb|a(k|l, k) -> k";
    assert_eq!(rt;
        told(heap, twice)?.as_str(),
        "4:1: `a(k, k)` is given twice, first by the rule on line 3"
    );
    let missing = "marks a b\nfrom { kinds k l\n_ -> k\n_(_, k) -> k\n_(k, l) -> l\nwanted l\n}";
    assert_eq!(rt;
        told(heap, missing)?.as_str(),
        "7:1: no rule gives `a(l, l)`"
    );
    Ok(())
}

#[test]
fn patterns(rt: HostRuntime) -> Result<(), Fail> {
    let heap = rt.alloc();
    let part =
        "marks 1\nfrom { kinds 1\n_ -> 0 _(_, _) -> 0 wanted\n}\nturn { states s\ns(_) -> 0(0, s(left))";
    assert_eq!(rt;
        told(heap, part)?.as_str(),
        "6:14: the pattern of a leaf cannot use a part: a leaf has none"
    );
    let state =
        "marks 1\nfrom { kinds 1\n_ -> 0 _(_, _) -> 0 wanted\n}\nturn { states s\ns(_(left, right)) -> t(left)";
    assert_eq!(rt; told(heap, state)?.as_str(), "6:22: unknown state `t`");
    let missing =
        "marks 1\nfrom { kinds 1\n_ -> 0 _(_, _) -> 0 wanted\n}\nturn { states s\ns(_) -> 0 }";
    assert_eq!(rt;
        told(heap, missing)?.as_str(),
        "6:11: no rule gives `s(0(left, right))`"
    );
    Ok(())
}

// A turn with a pattern of so many levels.
fn nested(heap: Global, levels: usize) -> Result<String, Fail> {
    let mut text = String::from_str(
        heap,
        "marks 1\nfrom { kinds 1\n_ -> 0 _(_, _) -> 0 wanted\n}\nturn { states 1\n_(_) -> ",
    )?;
    let nodes = levels.saturating_sub(1);
    text.push_str("_(_,".repeat(heap, nodes)?.as_str())?;
    text.push('_')?;
    text.push_str(")".repeat(heap, nodes)?.as_str())?;
    text.push_str("}")?;
    Ok(text)
}

#[test]
fn depth(rt: HostRuntime) -> Result<(), Fail> {
    let heap = rt.alloc();
    assert_eq!(rt;
        told(heap, nested(heap, 64)?.as_str())?.as_str(),
        "6:325: no rule gives `0(0(left, right))`"
    );
    assert_eq!(rt;
        told(heap, nested(heap, 65)?.as_str())?.as_str(),
        "6:263: the pattern is more than 64 deep"
    );
    Ok(())
}

#[test]
fn behind(rt: HostRuntime) -> Result<(), Fail> {
    let heap = rt.alloc();
    let mut text = String::from_str(heap, SWAP)?;
    text.push_str("marks")?;
    assert_eq!(rt;
        told(heap, text.as_str())?.as_str(),
        "27:1: expected the end of the text, found `marks`"
    );
    Ok(())
}
