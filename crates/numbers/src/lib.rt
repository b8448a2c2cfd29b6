// Numbers of many 32-bit words, the least significant first. No length is fixed; two that are compared or added have equally many words.
#![tactic(auto)]

ghost use Rattle.std.specs.Prelude.{◌≡◌, ◌+◌, ◌-◌, ◌*◌, ◌^◌, ◌<◌, min, length, replicate};
ghost use Rattle.std.specs.Ordering.{MatchOrdering};
ghost use Rattle.numbers.specs.Value.{value, weight};

use std::cmp::Ordering;

// How many values one word has.
const RADIX: u64 = 0x1_0000_0000;

// How the numbers `a` and `b` stand.
pub fn compare(a: &[u32], b: &[u32]) -> Ordering
    requires { length a.now ≡ length b.now }
    ensures { MatchOrdering result (value a.now < value b.now) (value a.now ≡ value b.now) (value b.now < value a.now) }
{
    // not by the iterators' `cmp`: that makes an `Ordering` of every two words, where most are the same
    for (x, y) in a.iter().rev().zip(b.iter().rev()) {
        if x != y {
            return x.cmp(y);
        }
    }
    Ordering::Equal
}

// Adds `from` and `carry` to the number in `into`, and returns what no longer fits there, as a multiple of the weight that the next word would have.
pub fn add(into: &mut [u32], from: &[u32], carry: u32) -> u32
    requires { length from.now ≡ length into.old }
    ensures { value into.new + result * weight (length into.old) ≡ value into.old + value from.now + carry }
{
    let mut over = carry as u64;
    // By index, since a proof knows nothing of what a loop over `into.iter_mut().zip(from)` has written (tried).
    for i in 0..from.len() {
        let sum = into[i] as u64 + from[i] as u64 + over;
        into[i] = (sum % RADIX) as u32;
        over = sum / RADIX;
    }
    over as u32
}

// The number, or the greatest number of 64 bits where it is larger.
pub fn saturated(a: &[u32]) -> u64
    ensures { result ≡ min (value a.now) (2 ^ 64 - 1) }
{
    let mut sum = 0u64;
    for i in (0..a.len()).rev() {
        sum = sum.saturating_mul(RADIX).saturating_add(u64::from(a[i]));
    }
    sum
}

// Writes the number `small`.
pub fn set(out: &mut [u32], small: u32)
    requires { 0 < length out.old }
    ensures { value out.new ≡ small }
{
    clear(out);
    out[0] = small;
}

// Writes zero into each word.
pub fn clear(out: &mut [u32])
    ensures { out.new ≡ replicate (length out.old) 0 }
{
    out.fill(0);
}
