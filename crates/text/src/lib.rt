// Text as bytes: valid UTF-8, the character at a place, White_Space, and the bytes of a character.
// Every public function answers on any bytes, any place and any number.

#![tactic(auto)]

ghost use Rattle.std.specs.Prelude.{◌≡◌, ◌+◌, ◌<◌, map, length, get_or};
ghost use Rattle.std.specs.Bool.{then_some};
ghost use Rattle.text.specs.Ranges.{range_of, starts};
ghost use Rattle.text.specs.Utf8.{seq_len, some_len, bits, char_at, found, is_scalar, utf8};
ghost use Rattle.text.specs.Valid.{valid_prefix};
ghost use Rattle.text.specs.Space.{white_space};

use std::str;

// A character that was read: its code point, and how many bytes it takes.
#[derive(Clone, Copy)]
pub struct Char {
    pub code: u32,
    pub len: usize,
}

// The length of a sequence by what stands behind its first byte, if that begins with a byte of each range in turn. A range is
// its two ends.
fn goes_on<const N: usize>(s: &[u8], later: &[(u8, u8); N]) -> Option<usize>
    requires { N < 4 }
    ensures { result ≡ then_some (starts (map range_of later.now) s.now) (N + 1) }
{
    let bytes = s.first_chunk::<N>()?;
    bytes
        .iter()
        .zip(later)
        .all(|(b, (low, high))| (*low..=*high).contains(b))
        .then_some(N + 1)
}

// Kept: std reads whole texts; of a character at a place of bytes that may not be UTF-8 it has no method, and the rows stand here as in specs/Utf8.
// The length of the well-formed sequence that bytes begin with: the rows of Table 3-7.
fn seq_len(s: &[u8]) -> Option<usize>
    ensures { result ≡ some_len (seq_len s.now) }
{
    let (first, rest) = s.split_first()?;
    match *first {
        0x00..=0x7F => Some(1),
        0x80..=0xC1 => None,
        0xC2..=0xDF => goes_on(rest, &[(0x80, 0xBF)]),
        0xE0 => goes_on(rest, &[(0xA0, 0xBF), (0x80, 0xBF)]),
        0xE1..=0xEC => goes_on(rest, &[(0x80, 0xBF), (0x80, 0xBF)]),
        0xED => goes_on(rest, &[(0x80, 0x9F), (0x80, 0xBF)]),
        0xEE..=0xEF => goes_on(rest, &[(0x80, 0xBF), (0x80, 0xBF)]),
        0xF0 => goes_on(rest, &[(0x90, 0xBF), (0x80, 0xBF), (0x80, 0xBF)]),
        0xF1..=0xF3 => goes_on(rest, &[(0x80, 0xBF), (0x80, 0xBF), (0x80, 0xBF)]),
        0xF4 => goes_on(rest, &[(0x80, 0x8F), (0x80, 0xBF), (0x80, 0xBF)]),
        _ => None,
    }
}

// How many bytes of `s` are valid UTF-8.
pub fn prefix(s: &[u8]) -> usize
    ensures { result ≡ valid_prefix s.now }
{
    match str::from_utf8(s) {
        Ok(text) => text.len(),
        Err(fault) => fault.valid_up_to(),
    }
}

// The number whose bits stand in the bytes of a sequence: Table 3-6.
fn code_point(bytes: &[u8]) -> u32
    ensures { result ≡ bits (length bytes.now) bytes.now }
{
    match *bytes {
        [] => 0,
        [a] => u32::from(a % 128),
        [a, b] => u32::from(a % 32) * 64 + u32::from(b % 64),
        [a, b, c] => u32::from(a % 16) * 4096 + u32::from(b % 64) * 64 + u32::from(c % 64),
        [a, b, c, d, ..] => u32::from(a % 8) * 262144
            + u32::from(b % 64) * 4096
            + u32::from(c % 64) * 64
            + u32::from(d % 64),
    }
}

// The character at a place, where a well-formed sequence starts there.
pub fn char_at(s: &[u8], at: usize) -> Option<Char>
    ensures { result ≡ found (char_at s.now at) }
{
    let rest = s.get(at..)?;
    let len = seq_len(rest)?;
    Some(Char {
        code: code_point(&rest[..len]),
        len,
    })
}

// Whether a character is space.
pub fn white_space(c: u32) -> bool
    ensures { result ≡ white_space c }
{
    char::from_u32(c).is_some_and(char::is_whitespace)
}

// Whether a number is a Unicode scalar value: a character, and no surrogate.
pub fn is_scalar(c: u32) -> bool
    ensures { result ≡ is_scalar c }
{
    char::from_u32(c).is_some()
}

// How many bytes a character has in UTF-8: none for a number that is no scalar value.
pub fn utf8_len(c: u32) -> usize
    ensures { result ≡ length (utf8 c) }
{
    char::from_u32(c).map_or(0, char::len_utf8)
}

// Byte number `i` of a character in UTF-8; 0 past its last, and for a number that is no scalar value.
// Kept: a byte, no Option: 0 past the last one is what the clause promises for every i.
pub fn utf8_byte(c: u32, i: usize) -> u8
    ensures { result ≡ get_or (utf8 c) i 0 }
{
    let mut buffer = [0; 4];
    char::from_u32(c)
        .and_then(|c| c.encode_utf8(&mut buffer).as_bytes().get(i).copied())
        .unwrap_or(0)
}
