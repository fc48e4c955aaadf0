// The lexer: jq source in, a listing of its tokens out, or of what is wrong with it.
//
// A refusal changes no lent byte, and whether a listing fits is known only at its end. So the tokens are first read into
// scratch of the entry's own, which need not be large enough: what does not fit there is counted, and read again straight
// into the room lent. Errors are counted in the first reading and put by a second.

#![tactic(auto)]

mod class;
mod cycle;
mod escape;
mod input;
mod num;
mod part;
mod put;
mod scan;
mod space;
mod sym;
mod token;
mod word;

ghost use Rattle.std.specs.Prelude.{◌≡◌, ◌+◌, ◌≤◌, ◌<◌, length, take};
ghost use Rattle.fields.specs.Outcome.{listing};
ghost use Rattle.fields.specs.Refusals.{answer_of};
ghost use Rattle.lexer.specs.Lex.{whole};
ghost use Rattle.lexer.specs.Lexing.{listed};
ghost use Rattle.lexer.specs.Meets.{Within};
ghost use Rattle.lexer.specs.Due.{tokens_due, errors_due, Begun, Rests, Listed, Told, Lexed};

use fields::{Listing, Refusal};
pub use input::Lexer;
use put::{Expected, Room};
use scan::TooDeep;
pub use token::Token;

// How many bytes the two listings of a source take.
#[derive(Clone, Copy)]
struct Sizes {
    tokens: usize,
    errors: usize,
}

// "After the top tokens and space, any rest is one Token error at its start."
fn rest(s: &[u8], at: usize, err: &mut Room<'_>)
    requires { Within s.now at err.old.next }
    ensures { Rests s.now at err.old err.new }
{
    let end = space::space(s, at);
    if end < s.len() {
        err.put_error(Expected::Any, end);
    }
}

// A source that is not too long, and the place behind its leading space.
#[derive(Clone, Copy)]
struct Source<'a> {
    bytes: &'a [u8],
    from: usize,
    ghost begun: { Begun bytes.now from },
}

impl<'a> Source<'a> {
    // The whole source, from there on: its tokens into one room, what is wrong with it into the other.
    fn whole(self, out: &mut [u8], err: &mut [u8]) -> Result<Sizes, TooDeep>
        ensures { Listed (whole self.entry.bytes.now) out.old out.new err.old err.new result }
    {
        let mut tokens = Room::new(out);
        let mut errors = Room::new(err);
        let at = cycle::tokens(self.bytes, 128, self.from, &mut tokens, &mut errors)?;
        rest(self.bytes, at, &mut errors);
        Ok(Sizes {
            tokens: tokens.next,
            errors: errors.next,
        })
    }

    // The listing of what is wrong, which takes so many bytes, into the room lent.
    fn list_errors(self, size: usize, out: &mut [u8]) -> Result<Listing, Refusal>
        requires { (listed 2 (whole self.bytes.now) ≡ listing 1 (errors_due (whole self.bytes.now))) × (size ≡ length (errors_due (whole self.bytes.now))) × (size ≤ 1048576) }
        ensures { Told (listed 2 (whole self.entry.bytes.now)) out.old out.new (answer_of result) }
    {
        if size > out.len() {
            return Err(Refusal::NoRoom);
        }
        self.whole(&mut [], out)?;
        Ok(Listing::Errors(size))
    }

    // The listing of the tokens, which takes so many bytes, into the room lent: out of the scratch, if it went in whole.
    fn list_tokens(self, size: usize, scratch: &[u8], out: &mut [u8]) -> Result<Listing, Refusal>
        requires { (listed 2 (whole self.bytes.now) ≡ listing 0 (tokens_due (whole self.bytes.now))) × (size ≡ length (tokens_due (whole self.bytes.now))) × (size ≤ 1048576) × (size ≤ length scratch.now → take size scratch.now ≡ tokens_due (whole self.bytes.now)) }
        ensures { Told (listed 2 (whole self.entry.bytes.now)) out.old out.new (answer_of result) }
    {
        if size > out.len() {
            return Err(Refusal::NoRoom);
        }
        if size <= scratch.len() {
            fields::put(out, 0, &scratch[..size]);
        } else {
            self.whole(out, &mut [])?;
        }
        Ok(Listing::Due(size))
    }

    // By way of scratch of any size.
    fn through(self, scratch: &mut [u8], out: &mut [u8]) -> Result<Listing, Refusal>
        ensures { Told (listed 2 (whole self.entry.bytes.now)) out.old out.new (answer_of result) }
    {
        let sizes = self.whole(scratch, &mut [])?;
        if sizes.errors > 4 {
            return self.list_errors(sizes.errors, out);
        }
        self.list_tokens(sizes.tokens, scratch, out)
    }

    // By way of scratch of N bytes, in a frame of its own: scratch costs its clearing, so that there are several sizes of it, and a short
    // source pays for none of the larger.
    #[inline(never)]
    fn by_scratch<const N: usize>(self, out: &mut [u8]) -> Result<Listing, Refusal>
        requires { N ≤ 262144 }
        ensures { Told (listed 2 (whole self.entry.bytes.now)) out.old out.new (answer_of result) }
    {
        let mut scratch = [0u8; N];
        self.through(&mut scratch, out)
    }

    // By way of eight bytes of scratch, or more, for each byte that is left.
    fn fitting(self, out: &mut [u8]) -> Result<Listing, Refusal>
        ensures { Told (listed 2 (whole self.entry.bytes.now)) out.old out.new (answer_of result) }
    {
        match self.bytes.len() - self.from {
            0..=32 => self.by_scratch::<256>(out),
            33..=256 => self.by_scratch::<2048>(out),
            257..=1024 => self.by_scratch::<8192>(out),
            1025..=4096 => self.by_scratch::<32768>(out),
            4097..=16384 => self.by_scratch::<131072>(out),
            _ => self.by_scratch::<262144>(out),
        }
    }
}

// The tokens of a source, or what is wrong with it, listed in the room lent.
pub fn lex(source: &[u8], out: &mut [u8]) -> Result<Listing, Refusal>
    ensures { Lexed source.now out.old out.new (answer_of result) }
{
    let n = source.len();
    if n > 32768 {
        return Err(Refusal::TooLong);
    }
    let valid = text::prefix(source);
    if valid < n {
        return Err(Refusal::NotWellFormed(valid));
    }
    let from = space::skip(source, 0);
    Source {
        bytes: source,
        from,
    }
    .fitting(out)
}
