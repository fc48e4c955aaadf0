// A lexer's state. "The remaining input `i` is always a suffix of the source": each step's contract says how many bytes it
// drops from the front of `i`. These are few and thin: they take the lexer apart, and leave the work to functions on the slice.
ghost use Rattle.std.specs.Prelude.{◌≡◌, take};
ghost use Rattle.fields.specs.Refusals.{answer_of};
ghost use Rattle.lexer.specs.Due.{Lexed};
ghost use Rattle.lexer.specs.Input.{behind, taking, spacing};

use crate::{part, space};
use fields::{Listing, Refusal};

#[derive(Clone, Copy)]
pub struct Lexer<'a> {
    pub i: &'a [u8],
}

// The input behind white space and comments.
fn trimmed(i: &[u8]) -> &[u8]
    ensures { result.now ≡ behind spacing i.now }
{
    let n = space::space(i, 0);
    part::after(i, n)
}

impl<'a> Lexer<'a> {
    // All of the source remains.
    pub fn new(i: &'a [u8]) -> Lexer<'a>
        ensures { result.i ≡ i.entry }
    {
        Lexer { i }
    }

    pub fn rest(self) -> &'a [u8]
        ensures { result ≡ self.entry.i }
    {
        self.i
    }

    // The lexer behind its next len bytes.
    pub fn take(self, len: usize) -> Lexer<'a>
        ensures { result.i.now ≡ behind (taking len) self.entry.i.now }
    {
        Lexer {
            i: part::after(self.i, len),
        }
    }

    // Those bytes.
    pub fn taken(self, len: usize) -> &'a [u8]
        ensures { result.now ≡ take len self.entry.i.now }
    {
        part::front(self.i, len)
    }

    // The lexer behind white space and comments.
    pub fn space(self) -> Lexer<'a>
        ensures { result.i.now ≡ behind spacing self.entry.i.now }
    {
        Lexer { i: trimmed(self.i) }
    }

    // Lexes the remaining input into out.
    pub fn lex(self, out: &mut [u8]) -> Result<Listing, Refusal>
        ensures { Lexed self.entry.i.now out.old out.new (answer_of result) }
    {
        crate::lex(self.i, out)
    }
}
