// A token's own text. The Rust's token holds that text; here a token is two numbers, and the text that it stands in is
// lent beside it.
ghost use Rattle.std.specs.Prelude.{◌≡◌};
ghost use Rattle.lexer.specs.Found.{as_str, opt_as_str};
ghost use Rattle.lexer.specs.Meets.{tag_of};

use crate::part;

// What a token is that has a start and a length, by the tags that a listing gives these.
#[derive(Clone, Copy)]
pub enum Tag {
    Word = 1,
    Var = 2,
    Fmt = 3,
    Num = 4,
    Sym = 5,
    Str = 6,
    Block = 7,
    Text = 8,
}

impl Tag {
    pub fn number(self) -> u8
        ensures { result ≡ tag_of self }
    {
        self as u8
    }
}

// Where a token starts in its text, and how many bytes it has.
#[derive(Clone, Copy)]
pub struct Token {
    pub start: usize,
    pub len: usize,
}

impl Token {
    pub fn as_str(self, text: &[u8]) -> &[u8]
        ensures { result.now ≡ as_str self text.now }
    {
        part::front(part::after(text, self.start), self.len)
    }

    // "gives the token's own text, or the empty end of `code` if there is no token"
    pub fn opt_as_str<'a>(found: Option<Token>, text: &'a [u8], code: &'a [u8]) -> &'a [u8]
        ensures { result.now ≡ opt_as_str found text.now code.now }
    {
        match found {
            Some(token) => token.as_str(text),
            None => &code[code.len()..],
        }
    }
}
