// The tokens of a text. A lexer stands at a token, and goes on to the next. Outside of comments all is ASCII.
ghost use Rattle.std.specs.Prelude.{◌≤◌, length};

use crate::mistakes::{Fault, Mistake, Place, begins_character};
use std::alloc::{AllocError, Global};
use std::fmt;
use std::fmt::Display;

// The words that are no names.
#[derive(Clone, Copy, Debug, PartialEq, Eq)]
pub enum Keyword {
    Marks,
    From,
    Turn,
    To,
    Kinds,
    States,
    Wanted,
    Left,
    Right,
}

impl Keyword {
    fn of(word: &[u8]) -> Option<Keyword> {
        match word {
            b"marks" => Some(Keyword::Marks),
            b"from" => Some(Keyword::From),
            b"turn" => Some(Keyword::Turn),
            b"to" => Some(Keyword::To),
            b"kinds" => Some(Keyword::Kinds),
            b"states" => Some(Keyword::States),
            b"wanted" => Some(Keyword::Wanted),
            b"left" => Some(Keyword::Left),
            b"right" => Some(Keyword::Right),
            _ => None,
        }
    }
}

impl fmt::Display for Keyword {
    fn fmt<W: fmt::Write>(&self, f: &mut fmt::Formatter<W>) -> fmt::Result {
        f.write_str(match self {
            Keyword::Marks => "marks",
            Keyword::From => "from",
            Keyword::Turn => "turn",
            Keyword::To => "to",
            Keyword::Kinds => "kinds",
            Keyword::States => "states",
            Keyword::Wanted => "wanted",
            Keyword::Left => "left",
            Keyword::Right => "right",
        })
    }
}

#[derive(Clone, Copy, Debug, PartialEq, Eq)]
pub enum TokenKind {
    Name,
    // A number past what a `u32` holds is read as the largest `u32`.
    Number(u32),
    Reserved(Keyword),
    Underscore,
    Arrow,
    Bar,
    Comma,
    OpenParen,
    CloseParen,
    OpenBrace,
    CloseBrace,
    // A character that begins no token.
    Strange,
    // The end of the text.
    End,
}

// How a message names a token that is expected.
impl fmt::Display for TokenKind {
    fn fmt<W: fmt::Write>(&self, f: &mut fmt::Formatter<W>) -> fmt::Result {
        f.write_str(match self {
            TokenKind::Name => "a name",
            TokenKind::Number(_) => "a number",
            TokenKind::Reserved(word) => return write!(f, "`{word}`"),
            TokenKind::Underscore => "`_`",
            TokenKind::Arrow => "`->`",
            TokenKind::Bar => "`|`",
            TokenKind::Comma => "`,`",
            TokenKind::OpenParen => "`(`",
            TokenKind::CloseParen => "`)`",
            TokenKind::OpenBrace => "`{`",
            TokenKind::CloseBrace => "`}`",
            TokenKind::Strange => "a character",
            TokenKind::End => "the end of the text",
        })
    }
}

#[derive(Clone, Copy)]
pub struct Token {
    pub kind: TokenKind,
    pub len: usize,
}

// (`Display` says it the other way round. Two matches, since a list of pairs would be searched by hand.)
fn symbol(byte: u8) -> Option<TokenKind> {
    match byte {
        b'_' => Some(TokenKind::Underscore),
        b'|' => Some(TokenKind::Bar),
        b',' => Some(TokenKind::Comma),
        b'(' => Some(TokenKind::OpenParen),
        b')' => Some(TokenKind::CloseParen),
        b'{' => Some(TokenKind::OpenBrace),
        b'}' => Some(TokenKind::CloseBrace),
        _ => None,
    }
}

// How many bytes stand before the first that is not of the kind that is asked for.
fn len_while<F: FnMut(&u8) -> bool>(bytes: &[u8], goes_on: F) -> usize
    requires { (state : F) (byte : _) → F.pre state byte }
    ensures { result ≤ length bytes.now }
{
    bytes.iter().copied().take_while(goes_on).count()
}

// How many bytes of white space and comments stand first.
fn blank_len(bytes: &[u8]) -> usize
    ensures { result ≤ length bytes.now }
{
    let mut is_comment = false;
    len_while(bytes, |byte| {
        is_comment = *byte == b'#' || (is_comment && *byte != b'\n');
        is_comment || matches!(*byte, b'\n' | b' ' | b'\t' | b'\r')
    })
}

// How many bytes the name has that stands first. A `-` before a `>` is of an arrow.
fn name_len(bytes: &[u8]) -> usize
    ensures { result ≤ length bytes.now }
{
    let len = len_while(
        bytes,
        |byte| byte.is_ascii_alphanumeric() || matches!(*byte, b'_' | b'-'),
    );
    match bytes.split_at(len) {
        ([name @ .., b'-'], [b'>', ..]) => name.len(),
        _ => len,
    }
}

fn number(digits: &[u8]) -> u32 {
    digits.iter().fold(0, |value: u32, digit| {
        value
            .saturating_mul(10)
            .saturating_add(u32::from(digit.saturating_sub(b'0')))
    })
}

// The token that a text begins with.
fn first_token(bytes: &[u8]) -> Token
    ensures { result.len ≤ length bytes.now }
{
    let (kind, len) = match bytes {
        [] => (TokenKind::End, 0),
        [b'-', b'>', ..] => (TokenKind::Arrow, 2),
        [byte, rest @ ..] => {
            if let Some(kind) = symbol(*byte) {
                (kind, 1)
            } else if byte.is_ascii_alphabetic() {
                let len = name_len(bytes);
                let kind = Keyword::of(&bytes[..len]).map_or(TokenKind::Name, TokenKind::Reserved);
                (kind, len)
            } else if byte.is_ascii_digit() {
                let len = len_while(bytes, |byte| byte.is_ascii_digit());
                (TokenKind::Number(number(&bytes[..len])), len)
            } else {
                (
                    TokenKind::Strange,
                    1 + len_while(rest, |byte| !begins_character(*byte)),
                )
            }
        }
    };
    Token { kind, len }
}

// A message has at most so many bytes of a token.
const MOST_SHOWN: usize = 80;

// A token as a message shows it: a long one is cut.
pub fn shown(heap: Global, word: &[u8]) -> Result<String, AllocError> {
    String::from_utf8_lossy(heap, word.get(..MOST_SHOWN).unwrap_or(word))
}

// Stands at a token of a text, and goes on to the next, with no message of its own: so it needs no memory.
#[derive(Clone, Copy)]
pub struct Lexer<'t> {
    text: &'t [u8],
    // The text from the token on.
    rest: &'t [u8],
    token: Token,
    starts_line: bool,
    ghost of_text: { length rest.now ≤ length text.now },
    ghost of_rest: { token.len ≤ length rest.now },
}

impl<'t> Lexer<'t> {
    ghost use Rattle.std.specs.Prelude.{◌≡◌, ◌<◌, T};
    ghost use Rattle.tokens.specs.Progress.{unread};

    // Stands at the first token of the text.
    pub fn new(text: &'t [u8]) -> Lexer<'t>
        ensures { unread result ≤ length text.now }
    {
        let rest = &text[blank_len(text)..];
        Lexer {
            text,
            rest,
            token: first_token(rest),
            starts_line: true,
        }
    }

    #[inline(always)]
    pub fn kind(&self) -> TokenKind
        ensures { result ≡ self.now.token.kind }
    {
        self.token.kind
    }

    // Whether a line ends, or the text, between the token before this one and this one.
    #[inline(always)]
    pub fn starts_line(&self) -> bool
        ensures { result ≡ self.now.starts_line }
    {
        self.starts_line
    }

    // The bytes of the token.
    #[inline(always)]
    pub fn word(&self) -> &'t [u8]
        ensures { length result.now ≡ self.now.token.len }
    {
        &self.rest[..self.token.len]
    }

    // How many bytes of the text stand before the token.
    #[inline(always)]
    pub fn offset(&self) -> usize
        ensures { result ≤ length self.now.text.now }
    {
        self.text.len() - self.rest.len()
    }

    pub fn place(&self, offset: usize) -> Place
        ensures line { 1 ≤ result.line }
        ensures column { 1 ≤ result.column }
    {
        Place::of(self.text, offset)
    }

    pub fn fault_at(&self, offset: usize, mistake: Mistake) -> Fault {
        Fault::Wrong {
            place: self.place(offset),
            mistake,
        }
    }

    // The fault of a mistake at the token.
    pub fn fault(&self, mistake: Mistake) -> Fault {
        self.fault_at(self.offset(), mistake)
    }

    // The fault of a token that is not what is expected.
    pub fn unexpected(&self, heap: Global, expected: impl Display + Drop) -> Fault {
        self.not_expected(heap, expected)
            .map_or_else(Fault::from, |mistake| self.fault(mistake))
    }

    fn not_expected(
        &self,
        heap: Global,
        expected: impl Display + Drop,
    ) -> Result<Mistake, AllocError> {
        let found = shown(heap, self.word())?;
        let expected = expected.to_string(heap)?;
        Ok(match self.kind() {
            TokenKind::Strange => Mistake::Character { found },
            TokenKind::End => Mistake::Ended { expected },
            _ => Mistake::Token { found, expected },
        })
    }

    // Goes on to the next token. At the end of the text it stays, and answers false.
    #[inline(never)]
    pub fn advance(&mut self) -> bool
        ensures { T result → unread self.new < unread self.old }
    {
        let len = self.token.len;
        if len == 0 {
            return false;
        }
        let after = &self.rest[len..];
        let (blank, next) = after.split_at(blank_len(after));
        self.starts_line = next.is_empty() || blank.contains(&b'\n');
        self.token = first_token(next);
        self.rest = next;
        true
    }
}
