// Which rows are settled, in which order, and which open row comes next.
ghost use Rattle.std.specs.Prelude.{◌≡◌, ℕ, ◌<◌, true, false, ◌⊎◌, ◌↔◌, length, IfSome, MatchOption, IsTrue};
ghost use Rattle.automata.specs.Links.{Precedes};
ghost use Rattle.table.specs.Rows.{linkage};
ghost use Rattle.table.specs.Tables.{tree_at, rank_at, ranked_at, NotAfter, LeastOpen, Settles, Empty};
ghost use Rattle.table.specs.Chains.{Chains};

use crate::Table;
use crate::links::Candidate;

impl<'a> Table<'a> {
    // Forgets all rows.
    pub fn reset(&mut self)
        ensures empty { Empty self.new }
        ensures shape { self.new.shape ≡ self.old.shape }
        ensures chains { Chains self.new }
    {
        numbers::clear(self.ranks);
        numbers::clear(self.heads);
        self.count = 0;
        self.settled = 0;
    }

    // The row of rank r.
    pub fn ranked(&self, r: usize) -> usize
        requires { r < self.now.shape.most }
        ensures { result ≡ ranked_at self.now r }
    {
        self.order[r] as usize
    }

    // Whether row k is open: it has no rank yet.
    fn is_open(&self, k: usize) -> bool
        requires { k < self.now.shape.most }
        ensures { IsTrue result ↔ (rank_at self.now k ≡ 0) }
    {
        self.ranks[k] == 0
    }

    // Whether row k is in use and settled.
    pub fn is_settled(&self, k: usize) -> bool
        ensures yes { result ≡ true → (k < self.now.count) × (0 < rank_at self.now k) }
        ensures not { result ≡ false → k < self.now.count → rank_at self.now k ≡ 0 }
    {
        k < self.count && !self.is_open(k)
    }

    // Gives row k the next rank.
    pub fn settle(&mut self, k: usize)
        requires row { k < self.old.shape.most }
        requires rank { self.old.settled < self.old.shape.most }
        ensures settles { Settles k self.old self.new }
        ensures chains { Chains self.old → Chains self.new }
    {
        let rank = self.settled;
        self.order[rank] = k as u32;
        self.ranks[k] = rank as u32 + 1;
        self.settled = rank + 1;
    }

    // Whether row k is open and its tree comes after this one of its class.
    pub fn is_better(&self, k: usize, tree: Candidate) -> bool
        requires row { k < self.now.shape.most }
        requires size { length tree.size.now ≡ self.now.shape.words }
        ensures yes { result ≡ true → (rank_at self.now k ≡ 0) × Precedes (linkage tree.entry) (tree_at self.now k) }
        ensures not { result ≡ false → (0 < rank_at self.now k) ⊎ NotAfter (tree_at self.now k) (linkage tree.entry) }
    {
        self.is_open(k) && tree.compare(self.tree(k)).is_lt()
    }

    // Whether row k is open and comes before the best so far, which is open too, if there is one.
    fn improves(&self, k: usize, best: Option<usize>) -> bool
        requires row { k < self.now.shape.most }
        requires best { IfSome best (λ b. (b < self.now.shape.most) × (rank_at self.now b ≡ 0)) }
        ensures yes { result ≡ true → (rank_at self.now k ≡ 0) × IfSome best (λ b. Precedes (tree_at self.now k) (tree_at self.now b)) }
        ensures not { result ≡ false → (0 < rank_at self.now k) ⊎ MatchOption best ⊥ (λ b. NotAfter (tree_at self.now b) (tree_at self.now k)) }
    {
        let Some(b) = best else {
            return self.is_open(k);
        };
        self.is_open(k) && self.is_better(b, self.tree(k))
    }

    // The open row whose tree is least, if any row is open.
    pub fn least_open(&self) -> Option<usize>
        ensures { MatchOption result ((k : ℕ) → k < self.now.count → 0 < rank_at self.now k) (λ b. LeastOpen self.now self.now.count b) }
    {
        // A `for`: over `filter` and `min_by` it stayed open that the closure may be called at each row, and which row it picks (tried).
        let mut best = None;
        for k in 0..self.count {
            if self.improves(k, best) {
                best = Some(k);
            }
        }
        best
    }
}
