// A list of at most so many items.
ghost use Rattle.std.specs.Prelude.{◌≡◌, ◌+◌, ◌≤◌, ◌++◌, ◌↔◌, length, vec_len, IsTrue, OnOk};

use std::alloc::AllocError;

#[derive(Drop)]
pub struct Bounded<T> {
    pub items: Vec<T>,
    pub most: usize,
    ghost bound: { vec_len items ≤ most },
}

impl<T: Copy> Bounded<T> {
    #[inline(always)]
    pub fn has_room(&self, more: usize) -> bool
        ensures { IsTrue result ↔ (vec_len self.now.items + more ≤ self.now.most) }
    {
        more <= self.most - self.items.len()
    }

    #[inline(always)]
    pub fn extend(&mut self, more: &[T]) -> Result<(), AllocError>
        requires room { vec_len self.old.items + length more.now ≤ self.old.most }
        ensures after { OnOk result (self.new.items.items ≡ self.old.items.items ++ more.now) }
        ensures most { self.new.most ≡ self.old.most }
    {
        self.items.extend_from_slice(more)
    }
}
