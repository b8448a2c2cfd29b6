// What takes the leaves and nodes of a result, one after the other.
ghost use Rattle.std.specs.Prelude.{◌≡◌, ℕ, ◌-◌, ◌^◌, ◌≤◌, min, List, ◌++◌, length, drop};
ghost use Rattle.std.specs.Borrow.{MutBor};
ghost use Rattle.rows.specs.Subtrees.{item_row};

use rows::trees::Item;

pub trait Sink {
    // the words ws have been put out; a sink that writes was lent `lent` when there were none
    ghost holds: { Self → MutBor (List ℕ) → List ℕ → Type 0 };

    fn put(&mut self, item: Item)
        ensures { (lent : MutBor (List ℕ)) (ws : List ℕ) → holds self.old lent ws → holds self.new lent (ws ++ item_row item) };
}

// Counts words and writes none. Counting stays at the greatest number once that is reached.
#[derive(Drop)]
pub struct Counter {
    pub words: usize,
}

impl Sink for Counter {
    ghost holds = { λ s lent ws. s.words ≡ min (length ws) (2 ^ 64 - 1) };

    fn put(&mut self, item: Item) {
        self.words = self.words.saturating_add(2);
    }
}

// Writes words one behind the other into what it is lent, as long as there is room. (Not a Vec: the calls have no heap.)
#[derive(Drop)]
pub struct Writer<'a> {
    pub out: &'a mut [u32],
    pub used: usize,
}

impl<'a> Sink for Writer<'a> {
    ghost holds = { λ s lent ws. (s.out.ghost_name ≡ lent.ghost_name) × (length ws ≤ length lent.now → (s.used ≡ length ws) × (s.out.now ≡ ws ++ drop (length ws) lent.now)) };

    fn put(&mut self, item: Item) {
        let at = self.used;
        if at >= self.out.len() || self.out.len() - at < 2 {
            return;
        }
        let [tag, mark] = <[u32; 2]>::from(item);
        self.out[at] = tag;
        self.out[at + 1] = mark;
        self.used = at + 2;
    }
}
