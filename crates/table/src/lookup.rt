// Rows by their signature: a hash, and for each of its values a chain of rows.
ghost use Rattle.std.specs.Prelude.{◌≡◌, ◌+◌, ◌*◌, ◌<◌, length};
ghost use Rattle.table.specs.Rows.{row, linkage};
ghost use Rattle.table.specs.Tables.{sig_at, tree_at, Put};
ghost use Rattle.table.specs.Chains.{bucket, Chains, Located};

use crate::Table;
use crate::links::{Candidate, LINK};
use crate::rows::{row_of, write_row};

// Which of so many chains a signature belongs to.
#[tactic(auto, unfolding(crate::specs::Chains::bucket))]
fn hash(key: &[u32], chains: usize) -> usize
    requires { 0 < chains }
    ensures is { result ≡ bucket chains key.now }
    ensures below { result < chains }
{
    let mut h: u64 = 0;
    for word in key {
        h = (h * 16777619 + *word as u64) % 4294967296;
    }
    h as usize % chains
}

impl<'a> Table<'a> {
    // The signature of row k.
    pub fn signature(&self, k: usize) -> &[u32]
        requires { k < self.now.shape.most }
        ensures is { result.now ≡ sig_at self.now k }
        ensures long { length result.now ≡ self.now.shape.width }
    {
        row_of(self.sigs, self.shape.most, self.shape.width, k)
    }

    // The best tree known for row k.
    pub fn tree(&self, k: usize) -> Candidate<'_>
        requires { k < self.now.shape.most }
        ensures is { linkage result ≡ tree_at self.now k }
        ensures size { length result.size.now ≡ self.now.shape.words }
    {
        let size = row_of(self.sizes, self.shape.most, self.shape.words, k);
        let link = row_of(self.links, self.shape.most, LINK, k);
        Candidate { size, link }
    }

    // The row that has the signature, if one has.
    pub fn find(&self, key: &[u32]) -> Option<usize>
        requires { Chains self.now }
        ensures { Located self.now key.now result }
    {
        let mut next = self.heads[hash(key, self.heads.len())] as usize;
        while let Some(k) = next.checked_sub(1) {
            if self.signature(k) == key {
                return Some(k);
            }
            next = self.nexts[k] as usize;
        }
        None
    }

    // Gives row k another tree of its class.
    pub fn replace(&mut self, k: usize, tree: Candidate)
        requires row { k < self.old.shape.most }
        requires size { length tree.size.now ≡ self.old.shape.words }
        ensures put { Put k (sig_at self.old k) (linkage tree.entry) self.old self.new }
        ensures count { self.new.count ≡ self.old.count }
        ensures chains { Chains self.old → Chains self.new }
    {
        let (most, words) = (self.shape.most, self.shape.words);
        write_row(self.sizes, most, words, k, tree.size);
        write_row(self.links, most, LINK, k, tree.link);
    }

    // Opens a row for a class that has none.
    pub fn insert(&mut self, key: &[u32], tree: Candidate)
        requires chains { Chains self.old }
        requires free { self.old.count < self.old.shape.most }
        requires key { length key.now ≡ self.old.shape.width }
        requires size { length tree.size.now ≡ self.old.shape.words }
        ensures put { Put self.old.count key.now (linkage tree.entry) self.old self.new }
        ensures count { self.new.count ≡ self.old.count + 1 }
        ensures chains { Chains self.new }
    {
        let k = self.count;
        let shape = self.shape;
        write_row(self.sigs, shape.most, shape.width, k, key);
        write_row(self.sizes, shape.most, shape.words, k, tree.size);
        write_row(self.links, shape.most, LINK, k, tree.link);
        let chain = hash(key, self.heads.len());
        self.nexts[k] = self.heads[chain];
        self.heads[chain] = k as u32 + 1;
        self.count = k + 1;
    }
}
