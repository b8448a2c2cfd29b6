// Trees are offered to the table of a search: each gets a new row if its class has none, or the row of its class if it comes first there.
ghost use Rattle.std.specs.Prelude.{◌≡◌, length};

use crate::{Automaton, TooMany};
use table::{Candidate, LINK, Table};

// A search under way: the automaton, its table, and room for one signature and one size. That the table is `Searching` stays a
// clause of the steps, since they take the trees at hand from it, which a truncated fact of a ghost field would not give; so does
// `Alphabet`, from which they take the letter for a mark.
#[derive(Drop)]
pub struct Search<'a, 's, 't, A: Automaton> {
    pub automaton: &'a A,
    pub table: &'s mut Table<'t>,
    pub key: &'s mut [u32],
    pub size: &'s mut [u32],
    pub ghost for_key: { length key.now ≡ table.now.shape.width },
    pub ghost for_size: { length size.now ≡ table.now.shape.words },
    pub ghost wide: { A.wide automaton.now ≡ table.now.shape.width },
}

impl<'a, 's, 't, A: Automaton> Search<'a, 's, 't, A> {
    ghost use Rattle.std.specs.Prelude.{ℕ, ◌+◌, ◌<◌, ◌↔◌, IsTrue, IfSome, IsSomeAnd};
    ghost use Rattle.model.specs.Trees.{leaf, node};
    ghost use Rattle.automata.specs.Automata.{Alphabet};
    ghost use Rattle.automata.specs.Classes.{at};
    ghost use Rattle.automata.specs.Frontier.{Covered, LeavesCovered};
    ghost use Rattle.table.specs.Rows.{link_of};
    ghost use Rattle.table.specs.Tables.{rank_at};
    ghost use Rattle.table.specs.Chains.{Chains, Located};
    ghost use Rattle.reach.specs.Promise.{Finds};
    ghost use Rattle.reach.specs.Kept.{Kept, meaning_of};
    ghost use Rattle.reach.specs.Searching.{Searching, Offered, TakenUp, BothWays, PairsCovered};

    // A tree comes up, by its signature in `key`, its size in `size` and its link; `row` is that of its class. It gets a new row,
    // or its row if it comes before the tree there. An error where there is no row left.
    fn take_up(&mut self, row: Option<usize>, link: [u32; LINK]) -> Result<(), TooMany>
        requires chains { Chains self.old.table.now }
        requires located { Located self.old.table.now self.old.key.now row }
        ensures says { TakenUp self.old.key.now (link_of self.old.size.now link) self.old.table.now self.new.table.now result }
        ensures kept { Kept self.old self.new }
    {
        // each in a variable, since the check covers no call that holds one field's slice beside another field
        let table = &mut *self.table;
        let key = &mut *self.key;
        let size = &mut *self.size;
        let tree = Candidate { size, link: &link };
        let Some(k) = row else {
            if table.count == table.shape.most {
                return Err(TooMany);
            }
            table.insert(key, tree);
            return Ok(());
        };
        if table.is_better(k, tree) {
            table.replace(k, tree);
        }
        Ok(())
    }

    // Offers a leaf.
    fn offer_leaf(&mut self, mark: u32) -> Result<(), TooMany>
        requires mark { mark < (meaning_of self.old).marks }
        requires searching { Searching (meaning_of self.old) self.old.table.now }
        ensures says { Offered (meaning_of self.old) self.old.table.now self.new.table.now (λ S us. Covered (meaning_of self.old) us (leaf mark)) result }
        ensures kept { Kept self.old self.new }
    {
        let key = &mut *self.key;
        self.automaton.leaf(mark, key);
        let row = self.table.find(key);
        numbers::set(self.size, 1);
        self.take_up(row, [mark, 0, 0])
    }

    // Whether a row that was found is settled, and so holds the least tree of its class.
    fn is_settled(&self, row: Option<usize>) -> bool
        requires { IfSome row (λ k. k < self.now.table.now.count) }
        ensures { IsTrue result ↔ IsSomeAnd row (λ k. 0 < rank_at self.now.table.now k) }
    {
        row.is_some_and(|k| self.table.is_settled(k))
    }

    // Offers a node over the settled trees of ranks p and q.
    fn offer_node(&mut self, mark: u32, p: usize, q: usize) -> Result<(), TooMany>
        requires mark { mark < (meaning_of self.old).marks }
        requires left { p < self.old.table.now.settled }
        requires right { q < self.old.table.now.settled }
        requires searching { Searching (meaning_of self.old) self.old.table.now }
        ensures says { Offered (meaning_of self.old) self.old.table.now self.new.table.now (λ S us. Covered (meaning_of self.old) us (node mark (at S p) (at S q))) result }
        ensures kept { Kept self.old self.new }
    {
        let left = self.table.ranked(p);
        let right = self.table.ranked(q);
        let key = &mut *self.key;
        self.automaton.node(
            mark,
            self.table.signature(left),
            self.table.signature(right),
            key,
        );
        let row = self.table.find(key);
        if self.is_settled(row) {
            return Ok(());
        }
        self.size.copy_from_slice(self.table.tree(left).size);
        let _ = numbers::add(self.size, self.table.tree(right).size, 1);
        self.take_up(row, [mark, p as u32 + 1, q as u32 + 1])
    }

    // Offers both nodes with this mark over the settled trees of ranks k and i.
    fn offer_both(&mut self, mark: u32, k: usize, i: usize) -> Result<(), TooMany>
        requires mark { mark < (meaning_of self.old).marks }
        requires left { k < self.old.table.now.settled }
        requires right { i < self.old.table.now.settled }
        requires searching { Searching (meaning_of self.old) self.old.table.now }
        ensures says { Offered (meaning_of self.old) self.old.table.now self.new.table.now (λ S us. BothWays (meaning_of self.old) S us mark k i) result }
        ensures kept { Kept self.old self.new }
    {
        self.offer_node(mark, k, i)?;
        self.offer_node(mark, i, k)
    }

    // Offers the nodes with this mark over the settled tree of rank k and each up to it, both ways.
    fn offer_pairs(&mut self, mark: u32, k: usize) -> Result<(), TooMany>
        requires mark { mark < (meaning_of self.old).marks }
        requires rank { k < self.old.table.now.settled }
        requires searching { Searching (meaning_of self.old) self.old.table.now }
        ensures says { Offered (meaning_of self.old) self.old.table.now self.new.table.now (λ S us. (i : ℕ) → i < k + 1 → BothWays (meaning_of self.old) S us mark k i) result }
        ensures kept { Kept self.old self.new }
    {
        for i in 0..k {
            self.offer_both(mark, k, i)?;
        }
        self.offer_node(mark, k, k)
    }

    // Offers the nodes over the settled tree of rank k and each up to it, both ways, with the mark of every letter.
    fn offer_nodes(&mut self, k: usize) -> Result<(), TooMany>
        requires alphabet { Alphabet (meaning_of self.old) (A.alphabet self.old.automaton.now) (A.markof self.old.automaton.now) }
        requires rank { k < self.old.table.now.settled }
        requires searching { Searching (meaning_of self.old) self.old.table.now }
        ensures says { Offered (meaning_of self.old) self.old.table.now self.new.table.now (λ S us. PairsCovered (meaning_of self.old) S us k) result }
        ensures kept { Kept self.old self.new }
    {
        for letter in 0..self.automaton.letters() {
            let mark = self.automaton.mark(letter);
            self.offer_pairs(mark, k)?;
        }
        Ok(())
    }

    // Offers the leaf of every letter.
    fn offer_leaves(&mut self) -> Result<(), TooMany>
        requires alphabet { Alphabet (meaning_of self.old) (A.alphabet self.old.automaton.now) (A.markof self.old.automaton.now) }
        requires searching { Searching (meaning_of self.old) self.old.table.now }
        ensures says { Offered (meaning_of self.old) self.old.table.now self.new.table.now (λ S us. LeavesCovered (meaning_of self.old) us) result }
        ensures kept { Kept self.old self.new }
    {
        for letter in 0..self.automaton.letters() {
            let mark = self.automaton.mark(letter);
            self.offer_leaf(mark)?;
        }
        Ok(())
    }

    // Offers all leaves, and then settles the least open row and offers every node that it makes possible, until no row is open.
    pub fn run(&mut self) -> Result<(), TooMany>
        requires { Alphabet (meaning_of self.old) (A.alphabet self.old.automaton.now) (A.markof self.old.automaton.now) }
        ensures finds { Finds (meaning_of self.old) self.new.table.now result }
        ensures shape { self.new.table.now.shape ≡ self.old.table.now.shape }
        ensures same_table { self.new.table.ghost_name ≡ self.old.table.ghost_name }
    {
        self.table.reset();
        self.offer_leaves()?;
        while let Some(k) = self.table.least_open() {
            let rank = self.table.settled;
            self.table.settle(k);
            self.offer_nodes(rank)?;
        }
        Ok(())
    }
}
