// Reads a tree that is written as a term.
ghost use Rattle.std.specs.Prelude.{◌≡◌, ◌+◌, ◌<◌, ◌≤◌, ◌++◌, [], vec_len, OnOk};
ghost use Rattle.terms.specs.Beginnings.{Begins, Closes, IsTree, ReadTo, item_words, to_come};
ghost use Rattle.tokens.specs.Progress.{ahead};

use crate::bounded::Bounded;
use crate::parts::{Item, Part, Path};
use std::alloc::Global;
use std::mem;
use tokens::{Cursor, Fault, Mistake, Names, TokenKind};

// What is yet to be read, the open nodes, and the words that are read.
#[derive(Drop)]
struct Reader<'t> {
    cursor: Cursor<'t>,
    path: Path,
    words: Bounded<u32>,
}

// Behind a whole part: closes the nodes that it ends, up to the next part.
fn close(cursor: &mut Cursor<'_>, path: &mut Path) -> Result<(), Fault>
    ensures falls { OnOk result (ahead cursor.new ≤ ahead cursor.old) }
    ensures closes { OnOk result (Closes path.old.parts.items path.new.parts.items) }
{
    while let Some(part) = path.leave()? {
        match part {
            Part::Left => return cursor.expect(TokenKind::Comma),
            Part::Right => cursor.expect(TokenKind::CloseParen)?,
        }
    }
    Ok(())
}

impl Reader<'_> {
    // Writes a leaf, or a node without its parts.
    #[inline(always)]
    fn put(&mut self, item: Item) -> Result<(), Fault>
        ensures most { self.new.words.most ≡ self.old.words.most }
        ensures cursor { self.new.cursor ≡ self.old.cursor }
        ensures path { self.new.path.parts.items ≡ self.old.path.parts.items }
        ensures after { OnOk result (self.new.words.items.items ≡ self.old.words.items.items ++ item_words item) }
    {
        if !self.words.has_room(2) {
            let most = self.words.most;
            return Err(self.cursor.fault(Mistake::TooLong { most }));
        }
        self.words.extend(&<[u32; 2]>::from(item))?;
        Ok(())
    }

    // Reads up to the next part, or to the end of the tree.
    #[inline(always)]
    fn next(&mut self, marks: &Names) -> Result<(), Fault>
        requires begins { Begins marks.now.count (to_come self.old.path.parts.items + 1) self.old.words.items.items }
        ensures falls { OnOk result (ahead self.new.cursor < ahead self.old.cursor) }
        ensures most { self.new.words.most ≡ self.old.words.most }
        ensures row { OnOk result (ReadTo marks.now.count self.new.words.items.items self.new.path.parts.items) }
    {
        let mark = self.cursor.pick(marks)?;
        if self.cursor.kind() != TokenKind::OpenParen {
            self.put(Item::Leaf(mark))?;
            return close(&mut self.cursor, &mut self.path);
        }
        self.put(Item::Node(mark))?;
        self.cursor.advance()?;
        self.path.enter()?;
        Ok(())
    }

    // Reads a tree, behind which nothing stands.
    fn read(&mut self, marks: &Names) -> Result<(), Fault>
        requires no_node { self.old.path.parts.items ≡ [] }
        requires no_word { self.old.words.items.items ≡ [] }
        ensures most { self.new.words.most ≡ self.old.words.most }
        ensures tree { OnOk result (IsTree marks.now.count self.new.words.items.items) }
    {
        self.next(marks)?;
        while !self.path.is_empty() {
            self.next(marks)?;
        }
        self.cursor.expect_end()
    }
}

// Reads a tree with such marks into `words`, which are then its row, and in any case at most `most`; what they were before
// is forgotten.
pub fn read_term(
    heap: Global,
    text: &[u8],
    marks: &Names,
    most: usize,
    words: &mut Vec<u32>,
) -> Result<(), Fault>
    ensures bound { vec_len words.new ≤ most }
    ensures tree { OnOk result (IsTree marks.now.count words.new.items) }
{
    words.clear();
    let mut reader = Reader {
        cursor: Cursor::new(heap, text),
        path: Path::new(heap),
        words: Bounded {
            items: mem::replace(words, Vec::new(heap)),
            most,
        },
    };
    let outcome = reader.read(marks);
    *words = reader.words.items;
    outcome
}
