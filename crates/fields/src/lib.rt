// The byte forms that every entry stands on: numbers in little-endian bytes, a field, a run of bytes put into lent room,
// and the answer that each entry gives. What is written is written only where there is room for it, and the next offset
// is always returned: over an empty room the same code counts.

#![tactic(auto)]

ghost use Rattle.std.specs.Prelude.{◌≡◌, ◌+◌, ◌≤◌, ◌<◌, ◌^◌, [], ◌∷◌, ◌++◌, length};
ghost use Rattle.fields.specs.Number.{number};
ghost use Rattle.fields.specs.Field.{field};
ghost use Rattle.fields.specs.Room.{overlay};
ghost use Rattle.fields.specs.Refusals.{number_of, place_of, answer_of};

// What every call gives: document 01's result number, the length written and a place.
// Kept: the number is what document 01, C and the theorems on `Answers` speak of; from function to function it goes as a `Result`.
#[derive(Clone, Copy, Debug, PartialEq, Eq)]
pub struct Answer {
    pub number: u8,
    pub length: usize,
    pub place: usize,
}

// What a call wrote: the listing that is due, or a listing of errors and nothing else, each with its length.
#[derive(Clone, Copy, Debug, PartialEq, Eq)]
pub enum Listing {
    Due(usize),
    Errors(usize),
}

// Why a call lists nothing. Where the input is not well formed or nests too deep, there is a place for it in a source.
#[derive(Clone, Copy, Debug, PartialEq, Eq)]
pub enum Refusal {
    TooLong,
    NotWellFormed(usize),
    TooDeep(usize),
    DefinitionsTooDeep,
    TooManyTerms,
    NoRoom,
    TooManyOperators,
}

impl Refusal {
    // Document 01's result number.
    pub fn number(self) -> u8
        ensures { result ≡ number_of self }
    {
        match self {
            Refusal::TooLong => 2,
            Refusal::NotWellFormed(_) => 3,
            Refusal::TooDeep(_) => 4,
            Refusal::DefinitionsTooDeep => 5,
            Refusal::TooManyTerms => 6,
            Refusal::NoRoom => 7,
            Refusal::TooManyOperators => 8,
        }
    }

    // The place in the source, 0 where there is none.
    pub fn place(self) -> usize
        ensures { result ≡ place_of self }
    {
        match self {
            Refusal::NotWellFormed(at) | Refusal::TooDeep(at) => at,
            _ => 0,
        }
    }
}

impl From<Result<Listing, Refusal>> for Answer {
    ghost from_gives = { λ listed a. a ≡ answer_of listed };

    fn from(listed: Result<Listing, Refusal>) -> Answer {
        match listed {
            Ok(Listing::Due(length)) => Answer {
                number: 0,
                length,
                place: 0,
            },
            Ok(Listing::Errors(length)) => Answer {
                number: 1,
                length,
                place: 0,
            },
            Err(refusal) => Answer {
                number: refusal.number(),
                length: 0,
                place: refusal.place(),
            },
        }
    }
}

// A number in two bytes; what is above them is left out.
pub fn number(n: usize) -> [u8; 2]
    ensures { result ≡ number 2 n }
{
    ((n % 65536) as u16).to_le_bytes()
}

// Copies bytes into out from at on.
// Kept: one by one, which compiles to a call of memcpy: by `copy_from_slice` it is one of memmove, a name that the library for C does not ask for elsewhere.
fn copy(out: &mut [u8], at: usize, bytes: &[u8])
    requires { at + length bytes.now ≤ length out.old }
    ensures { out.new ≡ overlay out.old at bytes.now }
{
    for (i, byte) in bytes.iter().enumerate() {
        out[at + i] = *byte;
    }
}

// Puts bytes into out from at on, as far as there is room, and gives the offset behind them.
pub fn put(out: &mut [u8], at: usize, bytes: &[u8]) -> usize
    requires { at + length bytes.now < 2 ^ 64 }
    ensures { (result ≡ at + length bytes.now) × (out.new ≡ overlay out.old at bytes.now) }
{
    let end = at + bytes.len();
    if end <= out.len() {
        copy(out, at, bytes);
    } else if at < out.len() {
        let fits = out.len() - at;
        copy(out, at, &bytes[..fits]);
    }
    end
}

// The bytes of a field of two numbers.
fn pair(tag: u8, a: usize, b: usize) -> [u8; 7]
    ensures { result ≡ field tag (number 2 a ++ number 2 b) }
{
    let [a_low, a_high] = number(a);
    let [b_low, b_high] = number(b);
    [tag, 4, 0, a_low, a_high, b_low, b_high]
}

// Stores a field of two numbers, for which there is room.
pub fn store_pair(out: &mut [u8], at: usize, tag: u8, a: usize, b: usize)
    requires { at + 7 ≤ length out.old }
    ensures { out.new ≡ overlay out.old at (field tag (number 2 a ++ number 2 b)) }
{
    copy(out, at, &pair(tag, a, b));
}

// Puts a field of two numbers, as far as there is room.
pub fn put_pair(out: &mut [u8], at: usize, tag: u8, a: usize, b: usize) -> usize
    requires { at + 7 < 2 ^ 64 }
    ensures { (result ≡ at + 7) × (out.new ≡ overlay out.old at (field tag (number 2 a ++ number 2 b))) }
{
    // Kept: by `put` alone the array is built in memory and read back, and the lexer took 12 to 45 parts in 100 longer.
    if at + 7 <= out.len() {
        store_pair(out, at, tag, a, b);
        return at + 7;
    }
    put(out, at, &pair(tag, a, b))
}
