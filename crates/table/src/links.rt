// Trees as the table holds them: a size, and a link of three words.
ghost use Rattle.std.specs.Prelude.{◌≡◌, length};

use std::cmp::Ordering;

// The words of a link: the mark, and the ranks of the two parts, counted from one; those of a leaf are zero. (Words and no enum,
// since links stand in lent words.)
pub const LINK: usize = 3;

pub const MARK: usize = 0;

pub const LEFT: usize = 1;

pub const RIGHT: usize = 2;

// A tree by its size and its link.
#[derive(Clone, Copy)]
pub struct Candidate<'a> {
    pub size: &'a [u32],
    pub link: &'a [u32],
    pub ghost link_words: { length link.now ≡ 3 },
}

impl<'a> Candidate<'a> {
    ghost use Rattle.table.specs.Rows.{Stands, linkage};

    // How two trees stand: by size, then mark, then left part, then right part.
    pub fn compare(self, other: Candidate) -> Ordering
        requires { length self.size.now ≡ length other.size.now }
        ensures { Stands result (linkage self.entry) (linkage other.entry) }
    {
        // yields by break: a form of the code that is asked for (docs/DECISIONS.md, "Forms of the code")
        'order: loop {
            let by_size = numbers::compare(self.size, other.size);
            if by_size.is_ne() {
                break 'order by_size;
            }
            if self.link[MARK] != other.link[MARK] {
                break 'order self.link[MARK].cmp(&other.link[MARK]);
            }
            if self.link[LEFT] != other.link[LEFT] {
                break 'order self.link[LEFT].cmp(&other.link[LEFT]);
            }
            break 'order self.link[RIGHT].cmp(&other.link[RIGHT]);
        }
    }
}
