// Names and numbers, and what they stand for.
ghost use Rattle.std.specs.Prelude.{◌≡◌, ◌<◌, length, IfOk, IfSome};

use crate::cursor::Cursor;
use crate::lexer::{Lexer, TokenKind};
use crate::mistakes::{Fault, Mistake};
use crate::naming::Names;
use std::alloc::AllocError;

// A name or a number, before it is known what it stands for.
#[derive(Clone, Copy)]
pub struct Word<'t> {
    pub text: &'t [u8],
    pub number: Option<u32>,
    pub offset: usize,
}

impl<'t> Word<'t> {
    // The token, if it is a name or a number.
    #[inline(always)]
    pub fn at(lexer: &Lexer<'t>) -> Option<Word<'t>>
        ensures { IfSome result (λ word. length word.text.now ≡ lexer.now.token.len) }
    {
        let number = match lexer.kind() {
            TokenKind::Name => None,
            TokenKind::Number(number) => Some(number),
            _ => return None,
        };
        Some(Word {
            text: lexer.word(),
            number,
            offset: lexer.offset(),
        })
    }
}

impl Word<'_> {
    // The thing that the word stands for.
    pub fn resolve(&self, cursor: &Cursor<'_>, names: &Names) -> Result<u32, Fault>
        ensures { IfOk result (λ i. i < names.now.count) }
    {
        match self.number {
            Some(number) => (number < names.count()).then_some(number),
            None => names.find(self.text),
        }
        .ok_or_else(|| self.unresolved(cursor, names))
    }

    fn unresolved(&self, cursor: &Cursor<'_>, names: &Names) -> Fault {
        self.unknown(cursor, names).map_or_else(
            Fault::from,
            |mistake| cursor.fault_at(self.offset, mistake),
        )
    }

    fn unknown(&self, cursor: &Cursor<'_>, names: &Names) -> Result<Mistake, AllocError> {
        let sort = names.sort();
        let shown = cursor.shown(self.text)?;
        Ok(match self.number {
            Some(_) => Mistake::Number {
                sort,
                number: shown,
                count: names.count(),
            },
            None => Mistake::Unknown { sort, name: shown },
        })
    }
}
