// Writes a tree as a term.
ghost use Rattle.std.specs.Prelude.{◌≡◌, ◌<◌, ◌≤◌, ◌++◌, [], vec_len, OnOk, IfOk};
ghost use Rattle.terms.specs.Beginnings.{Closes, GoesOn, IsTree, item_words};

use crate::bounded::Bounded;
use crate::parts::{Item, Part, Path};
use std::alloc::{AllocError, Global};
use std::mem;
use thiserror::Error;
use tokens::Names;

// Why no term is written.
#[derive(Clone, Copy, Debug, Drop, PartialEq, Error)]
pub enum Unwritten {
    #[error(transparent)]
    Memory(#[from(alloc)] AllocError),
    #[error("the words are no tree with such marks")]
    NoTree,
    #[error("the term has more bytes than it may have")]
    TooLong,
}

// The text that is written, and the open nodes.
#[derive(Drop)]
struct Writer {
    text: Bounded<u8>,
    path: Path,
}

impl Bounded<u8> {
    #[inline(always)]
    fn put(&mut self, bytes: &[u8]) -> Result<(), Unwritten>
        ensures most { self.new.most ≡ self.old.most }
    {
        if !self.has_room(bytes.len()) {
            return Err(Unwritten::TooLong);
        }
        self.extend(bytes)?;
        Ok(())
    }
}

// Behind a whole part: closes the nodes that it ends, up to the next part. (Not one function with the reader's: that one's
// promise is of the text that it reads, and a closure would have to carry it.)
#[inline(always)]
fn close(text: &mut Bounded<u8>, path: &mut Path) -> Result<(), Unwritten>
    ensures most { text.new.most ≡ text.old.most }
    ensures closes { OnOk result (Closes path.old.parts.items path.new.parts.items) }
{
    while let Some(part) = path.leave()? {
        match part {
            Part::Left => return text.put(b", "),
            Part::Right => text.put(b")")?,
        }
    }
    Ok(())
}

impl Writer {
    // Adds the name of a mark. (`marks` are passed, not held: each method would have to promise that they stay.)
    #[inline(always)]
    fn mark(&mut self, heap: Global, marks: &Names, mark: u32) -> Result<(), Unwritten>
        ensures most { self.new.text.most ≡ self.old.text.most }
        ensures path { self.new.path.parts.items ≡ self.old.path.parts.items }
        ensures below { OnOk result (mark < marks.now.count) }
    {
        if mark >= marks.count() {
            return Err(Unwritten::NoTree);
        }
        let name = marks.name(heap, mark as usize)?;
        self.text.put(name.as_bytes())
    }

    // Writes up to the next part, or to the end of the tree.
    #[inline(always)]
    fn item(&mut self, heap: Global, marks: &Names, item: Item) -> Result<(), Unwritten>
        ensures most { self.new.text.most ≡ self.old.text.most }
        ensures row { OnOk result (GoesOn marks.now.count item self.old.path.parts.items self.new.path.parts.items) }
    {
        match item {
            Item::Leaf(mark) => {
                self.mark(heap, marks, mark)?;
                close(&mut self.text, &mut self.path)
            }
            Item::Node(mark) => {
                self.mark(heap, marks, mark)?;
                self.text.put(b"(")?;
                self.path.enter()?;
                Ok(())
            }
        }
    }

    // The item that words begin with, and the words behind it. Words that begin with none are refused behind the name of their mark,
    // if they have one: so a name that has no room is told first.
    #[inline(always)]
    fn next_item<'w>(
        &mut self,
        heap: Global,
        marks: &Names,
        words: &'w [u32],
    ) -> Result<(Item, &'w [u32]), Unwritten>
        ensures most { self.new.text.most ≡ self.old.text.most }
        ensures path { self.new.path.parts.items ≡ self.old.path.parts.items }
        ensures first { IfOk result (λ first. words.now ≡ item_words first.0 ++ first.1.now) }
    {
        if let Some(first) = Item::split_first(words) {
            return Ok(first);
        }
        if let [_, mark, ..] = words {
            self.mark(heap, marks, *mark)?;
        }
        Err(Unwritten::NoTree)
    }

    // Writes a tree whose row the words are.
    fn write(&mut self, heap: Global, marks: &Names, words: &[u32]) -> Result<(), Unwritten>
        requires { self.old.path.parts.items ≡ [] }
        ensures most { self.new.text.most ≡ self.old.text.most }
        ensures tree { OnOk result (IsTree marks.now.count words.now) }
    {
        let (first, mut rest) = self.next_item(heap, marks, words)?;
        self.item(heap, marks, first)?;
        while !self.path.is_empty() {
            let (item, behind) = self.next_item(heap, marks, rest)?;
            self.item(heap, marks, item)?;
            rest = behind;
        }
        if rest.is_empty() {
            Ok(())
        } else {
            Err(Unwritten::NoTree)
        }
    }
}

// Writes the tree whose row the words are into `text`, which has at most `most` bytes in any case; what it was before is
// forgotten. A term is written only if the words are the row of a tree with such marks.
pub fn write_term(
    heap: Global,
    words: &[u32],
    marks: &Names,
    most: usize,
    text: &mut Vec<u8>,
) -> Result<(), Unwritten>
    ensures bound { vec_len text.new ≤ most }
    ensures tree { OnOk result (IsTree marks.now.count words.now) }
{
    text.clear();
    let mut writer = Writer {
        text: Bounded {
            items: mem::replace(text, Vec::new(heap)),
            most,
        },
        path: Path::new(heap),
    };
    let outcome = writer.write(heap, marks, words);
    *text = writer.text.items;
    outcome
}
