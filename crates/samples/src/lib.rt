// Small automata on which the search is tried, and what it finds written out.
#![tactic(auto)]

ghost use Rattle.std.specs.Prelude.{◌≡◌, ℕ, ◌+◌, ◌*◌, ◌<◌, ◌≤◌};
ghost use Rattle.automata.specs.Automata.{Alphabet};
ghost use Rattle.table.specs.Tables.{ranked_at};
ghost use Rattle.samples.specs.Meanings.{sums, tower_of_leaf, tower_of_node, towers, pair_of_node, pairs};

use reach::Automaton;
use table::{LINK, Regions, Table, lay_out};

// The sum of all marks and `base` for each leaf, by a modulus.
#[derive(Drop)]
pub struct Sums {
    pub base: u32,
    pub marks: u32,
    pub modulus: u32,
    ghost some: { 0 < modulus },
}

impl Automaton for Sums {
    ghost meaning = { λ s. sums s.base s.marks s.modulus };

    ghost wide = { λ s. 1 };

    ghost alphabet = { λ s. s.marks };

    fn letters(&self) -> u32 {
        self.marks
    }

    fn mark(&self, letter: u32) -> u32 {
        letter
    }

    fn leaf(&self, mark: u32, out: &mut [u32]) {
        out[0] = ((self.base as u64 + mark as u64) % self.modulus as u64) as u32;
    }

    fn node(&self, mark: u32, left: &[u32], right: &[u32], out: &mut [u32]) {
        out[0] = ((left[0] as u64 + right[0] as u64 + mark as u64) % self.modulus as u64) as u32;
    }
}

// Full trees by their height, and nodes with the mark 1 over a full tree and a leaf.
#[derive(Drop)]
pub struct Towers {
    pub heights: u32,
    ghost few: { heights < 1000000 },
}

impl Automaton for Towers {
    ghost meaning = { λ s. towers s.heights };

    ghost wide = { λ s. 1 };

    ghost alphabet = { λ s. 2 };

    fn letters(&self) -> u32 {
        2
    }

    fn mark(&self, letter: u32) -> u32 {
        letter
    }

    fn leaf(&self, mark: u32, out: &mut [u32]) {
        out[0] = tower_leaf(self.heights, mark);
    }

    fn node(&self, mark: u32, left: &[u32], right: &[u32], out: &mut [u32]) {
        out[0] = tower_node(self.heights, mark, left[0], right[0]);
    }
}

fn tower_leaf(heights: u32, mark: u32) -> u32
    requires { heights < 1000000 }
    ensures { result ≡ tower_of_leaf heights mark }
{
    if mark == 0 { 0 } else { 2 * heights }
}

fn tower_node(heights: u32, mark: u32, l: u32, r: u32) -> u32
    requires { heights < 1000000 }
    ensures { result ≡ tower_of_node heights mark l r }
{
    if mark == 0 {
        if l == r && l as u64 + 1 < heights as u64 {
            l + 1
        } else {
            2 * heights
        }
    } else if l < heights && r == 0 {
        heights + l
    } else {
        2 * heights
    }
}

// Trees of at most one node, told apart.
#[derive(Drop)]
pub struct Pairs {}

impl Automaton for Pairs {
    ghost meaning = { λ s. pairs };

    ghost wide = { λ s. 1 };

    ghost alphabet = { λ s. 2 };

    fn letters(&self) -> u32 {
        2
    }

    fn mark(&self, letter: u32) -> u32 {
        letter
    }

    fn leaf(&self, mark: u32, out: &mut [u32]) {
        out[0] = mark;
    }

    fn node(&self, mark: u32, left: &[u32], right: &[u32], out: &mut [u32]) {
        out[0] = pair_node(mark, left[0], right[0]);
    }
}

fn pair_node(mark: u32, l: u32, r: u32) -> u32
    requires { mark < 2 }
    ensures { result ≡ pair_of_node mark l r }
{
    if l < 2 && r < 2 {
        2 + 4 * mark + 2 * l + r
    } else {
        10
    }
}

// Writes a row for each rank, as many as `out` has room for: the signature, the link, the size.
fn write_out(table: &Table, out: &mut [u32])
    requires width { table.now.shape.width ≡ 1 }
    requires words { table.now.shape.words < 1000 }
    requires ranks { table.now.settled ≤ table.now.shape.most }
    requires rows { (r : ℕ) → r < table.now.settled → ranked_at table.now r < table.now.shape.most }
{
    // `next` by hand: behind a `zip` with the ranks it stayed open how long a row is (tried)
    let mut rows = out.chunks_exact_mut(1 + LINK + table.shape.words);
    for r in 0..table.settled {
        let Some(row) = rows.next() else {
            return;
        };
        let k = table.ranked(r);
        let tree = table.tree(k);
        let (signature, rest) = row.split_at_mut(1);
        let (link, size) = rest.split_at_mut(LINK);
        signature.copy_from_slice(table.signature(k));
        link.copy_from_slice(tree.link);
        size.copy_from_slice(tree.size);
    }
}

// Searches in `work`, and writes a row for each class into `out`, in order: signature, mark, the places of the parts counted
// from one, and the words of the size. How many classes; none where there are more than `most`, or too few words.
pub fn report<A: Automaton>(a: &A, most: usize, work: &mut [u32], out: &mut [u32]) -> Option<usize>
    requires width { A.wide a.now ≡ 1 }
    requires alphabet { Alphabet (A.meaning a.now) (A.alphabet a.now) (A.markof a.now) }
{
    if most > 1000 || work.len() < most * (most / 32 + 9) + most / 32 + 3 {
        return None;
    }
    let Regions {
        mut table,
        key,
        size,
        rest: _,
    } = lay_out(work, 1, most);
    reach::search(a, &mut table, key, size).ok()?;
    write_out(&table, out);
    Some(table.settled)
}

#[cfg(test)]
mod tests {
    use super::*;

    // Leaves are counted modulo 5; the least tree with so many leaves has a leaf on each left.
    #[test]
    fn counts_leaves(rt: HostRuntime) {
        let a = Sums {
            base: 1,
            marks: 1,
            modulus: 5,
        };
        let mut work = [0; 64];
        let mut out = [0; 25];
        assert_eq!(rt; report(&a, 4, &mut work, &mut out), None);
        assert_eq!(rt; report(&a, 5, &mut work, &mut out), Some(5));
        assert_eq!(rt;
            out,
            [
                1, 0, 0, 0, 1, 2, 0, 1, 1, 3, 3, 0, 1, 2, 5, 4, 0, 1, 3, 7, 0, 0, 1, 4, 9,
            ]
        );
    }

    // The sum of the marks modulo 5. Size 3: 0(1, 1), 1(1, 1); size 5: 0(1, 1(1, 1)), for which 0(1(1, 1), 1), 1(0(1, 1), 1)
    // and 0(0(1, 1), 0(1, 1)) come up first.
    #[test]
    fn sums_marks(rt: HostRuntime) {
        let a = Sums {
            base: 0,
            marks: 2,
            modulus: 5,
        };
        let mut work = [0; 64];
        let mut out = [0; 25];
        assert_eq!(rt; report(&a, 5, &mut work, &mut out), Some(5));
        assert_eq!(rt;
            out,
            [
                0, 0, 0, 0, 1, 1, 1, 0, 0, 1, 2, 0, 2, 2, 3, 3, 1, 2, 2, 3, 4, 0, 2, 4, 5,
            ]
        );
    }

    // Trees of one size are taken by mark, then by the left part, then by the right part. The last is 0(0, 0(0, 0)).
    #[test]
    fn breaks_ties(rt: HostRuntime) {
        let mut work = [0; 128];
        let mut out = [0; 55];
        assert_eq!(rt; report(&Pairs {}, 11, &mut work, &mut out), Some(11));
        assert_eq!(rt; &out[..10], [0, 0, 0, 0, 1, 1, 1, 0, 0, 1].as_slice());
        for n in 0..8 {
            let at = 10 + 5 * n as usize;
            assert_eq!(rt;
                &out[at..at + 5],
                [n + 2, n / 4, n / 2 % 2 + 1, n % 2 + 1, 3].as_slice()
            );
        }
        assert_eq!(rt; &out[50..], [10, 0, 1, 3, 5].as_slice());
    }

    // With 210 heights there are 421 classes. The full tree of height h, from 2 on, has rank 2 h + 1 and size 2^(h + 1) - 1; the
    // node over it and a leaf has rank 2 h + 2 and size 2^(h + 1) + 1.
    #[test]
    fn tells_large_sizes(rt: HostRuntime) {
        let a = Towers { heights: 210 };
        let mut work = [0; 9600];
        let mut out = [0; 7578];
        assert_eq!(rt; report(&a, 420, &mut work, &mut out), None);
        assert_eq!(rt; report(&a, 421, &mut work, &mut out), Some(421));
        let row = |r: usize| &out[18 * r..18 * r + 18];
        // height 63: all ones in two words; then 2^64 + 1
        let ones = 0xFFFF_FFFF;
        assert_eq!(rt; &row(127)[..7], [63, 0, 126, 126, ones, ones, 0].as_slice());
        assert_eq!(rt; &row(128)[..7], [273, 1, 128, 1, 1, 0, 1].as_slice());
        // height 203: 2^204 - 1 and 2^204 + 1
        assert_eq!(rt;
            &row(407)[..12],
            [
                203, 0, 406, 406, ones, ones, ones, ones, ones, ones, 0xFFF, 0
            ]
            .as_slice()
        );
        assert_eq!(rt;
            &row(408)[..11],
            [413, 1, 408, 1, 1, 0, 0, 0, 0, 0, 0x1000].as_slice()
        );
    }
}
