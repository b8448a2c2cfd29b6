// The tokens of a text, read in order, and what is wrong where they are not as they are expected.
ghost use Rattle.std.specs.Prelude.{◌≤◌, length};

use crate::lexer::{Lexer, TokenKind, shown};
use crate::mistakes::{Fault, Mistake, Place};
use crate::naming::Names;
use crate::words::Word;
use std::alloc::{AllocError, Global};
use std::fmt::Display;

// Stands at a token of a text, and goes on to the next; says what is wrong where that is not as it is expected.
#[derive(Clone, Copy)]
pub struct Cursor<'t> {
    // What messages are made in.
    pub heap: Global,
    lexer: Lexer<'t>,
}

impl<'t> Cursor<'t> {
    ghost use Rattle.std.specs.Prelude.{◌≡◌, ◌<◌, IfOk, OnOk};
    ghost use Rattle.tokens.specs.Progress.{ahead};
    ghost use Rattle.tokens.specs.declared.lexer.TokenKind.TheVariants.{End};

    // Stands at the first token of the text.
    pub fn new(heap: Global, text: &'t [u8]) -> Cursor<'t>
        ensures { ahead result ≤ length text.now }
    {
        Cursor {
            heap,
            lexer: Lexer::new(text),
        }
    }

    #[inline(always)]
    pub fn kind(&self) -> TokenKind
        ensures { result ≡ self.now.lexer.token.kind }
    {
        self.lexer.kind()
    }

    // Whether a line ends, or the text, between the token before this one and this one.
    #[inline(always)]
    pub fn starts_line(&self) -> bool
        ensures { result ≡ self.now.lexer.starts_line }
    {
        self.lexer.starts_line()
    }

    // The bytes of the token.
    #[inline(always)]
    pub fn lexeme(&self) -> &'t [u8]
        ensures { length result.now ≡ self.now.lexer.token.len }
    {
        self.lexer.word()
    }

    // How many bytes of the text stand before the token.
    #[inline(always)]
    pub fn offset(&self) -> usize
        ensures { result ≤ length self.now.lexer.text.now }
    {
        self.lexer.offset()
    }

    pub fn place(&self, offset: usize) -> Place
        ensures line { 1 ≤ result.line }
        ensures column { 1 ≤ result.column }
    {
        self.lexer.place(offset)
    }

    pub fn fault_at(&self, offset: usize, mistake: Mistake) -> Fault {
        self.lexer.fault_at(offset, mistake)
    }

    // The fault of a mistake at the token.
    pub fn fault(&self, mistake: Mistake) -> Fault {
        self.lexer.fault(mistake)
    }

    // Bytes of the text as a message shows them: a long token is cut.
    pub fn shown(&self, bytes: &[u8]) -> Result<String, AllocError> {
        shown(self.heap, bytes)
    }

    // The fault of a token that is not what is expected.
    pub fn unexpected(&self, expected: impl Display + Drop) -> Fault {
        self.lexer.unexpected(self.heap, expected)
    }

    // Goes on to the next token. At the end of the text it stays, and there is none.
    #[inline(always)]
    pub fn advance(&mut self) -> Result<(), Fault>
        ensures falls { OnOk result (ahead self.new < ahead self.old) }
    {
        if self.lexer.advance() {
            Ok(())
        } else {
            Err(self.unexpected("more text"))
        }
    }

    // Goes on past a token of this kind.
    pub fn expect(&mut self, kind: TokenKind) -> Result<(), Fault>
        ensures falls { OnOk result (ahead self.new < ahead self.old) }
        ensures found { OnOk result (self.old.lexer.token.kind ≡ kind) }
    {
        if self.kind() != kind {
            return Err(self.unexpected(kind));
        }
        self.advance()
    }

    // That nothing stands behind.
    pub fn expect_end(&self) -> Result<(), Fault>
        ensures { OnOk result (self.now.lexer.token.kind ≡ End) }
    {
        match self.kind() {
            TokenKind::End => Ok(()),
            TokenKind::Strange => Err(self.unexpected(TokenKind::End)),
            _ => {
                let found = self.shown(self.lexeme())?;
                Err(self.fault(Mistake::Behind { found }))
            }
        }
    }

    // A name or a number.
    #[inline(always)]
    pub fn word(&mut self, expected: impl Display + Drop) -> Result<Word<'t>, Fault>
        ensures falls { OnOk result (ahead self.new < ahead self.old) }
    {
        let Some(word) = Word::at(&self.lexer) else {
            return Err(self.unexpected(expected));
        };
        self.advance()?;
        Ok(word)
    }

    // One of the things that the names stand for.
    #[inline(always)]
    pub fn pick(&mut self, names: &Names) -> Result<u32, Fault>
        ensures { IfOk result (λ i. (i < names.now.count) × (ahead self.new < ahead self.old)) }
    {
        let sort = names.sort();
        let word = self.word(format_args!("a {sort}"))?;
        word.resolve(self, names)
    }
}
