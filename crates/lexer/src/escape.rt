// Escapes that nest nothing.
ghost use Rattle.std.specs.Prelude.{◌≡◌, ◌==◌, ◌+◌, ◌≤◌, ◌<◌, if◌then◌else◌, length, IfSome};
ghost use Rattle.lexer.specs.Escape.{named, hex_digit, hex, surrogate, unicode, simple};
ghost use Rattle.lexer.specs.Meets.{Coded, Ready, Reads};

use crate::put::{Expected, Room};
use crate::scan::byte_at;

// The value of a hex digit, if the byte is one.
#[tactic(auto, unfolding(crate::specs::Escape::hex_digit, crate::specs::Escape::hex))]
fn hex(b: u8) -> Option<u16>
    ensures value { result ≡ (if hex_digit b then Some (hex b) else None) }
    ensures small { IfSome result (λ v. v < 16) }
{
    match b {
        b'0'..=b'9' => Some(u16::from(b - b'0')),
        b'A'..=b'F' => Some(u16::from(b - b'A' + 10)),
        b'a'..=b'f' => Some(u16::from(b - b'a' + 10)),
        _ => None,
    }
}

// The number that four hex digits write, or the place where one of them is missing.
fn hexes(s: &[u8], at: usize) -> Result<u16, usize>
    requires { at ≤ length s.now }
    ensures { Coded s.now at result }
{
    let mut code = 0;
    for i in 0..4 {
        let Some(v) = hex(byte_at(s, at + i)) else {
            return Err(at + i);
        };
        code = code * 16 + v;
    }
    Ok(code)
}

#[tactic(auto, unfolding(crate::specs::Escape::surrogate))]
fn surrogate(code: u16) -> bool
    ensures { result ≡ surrogate code }
{
    matches!(code, 0xD800..=0xDFFF)
}

// Behind the `u`.
fn unicode(s: &[u8], at: usize, out: &mut Room<'_>, err: &mut Room<'_>) -> usize
    requires { Ready s.now at out.old err.old }
    ensures { Reads (unicode s.now at) s.now 0 10 at out.old out.new err.old err.new result }
{
    match hexes(s, at) {
        Err(place) => {
            err.put_error(Expected::Unicode, place);
            place
        }
        Ok(code) => {
            if surrogate(code) {
                err.put_error(Expected::Unicode, at);
                return at;
            }
            out.put_char(code);
            at + 4
        }
    }
}

// The character that a backslash and the byte stand for, if they stand for one.
#[tactic(auto, unfolding(crate::specs::Escape::named))]
fn named(b: u8) -> Option<u8>
    ensures { result ≡ (if named b == 0 then None else Some (named b)) }
{
    match b {
        b'n' => Some(b'\n'),
        b'"' | b'\\' | b'/' => Some(b),
        b't' => Some(b'\t'),
        b'r' => Some(b'\r'),
        b'b' => Some(0x08),
        b'f' => Some(0x0C),
        _ => None,
    }
}

// Behind the backslash.
pub fn simple(s: &[u8], at: usize, out: &mut Room<'_>, err: &mut Room<'_>) -> usize
    requires { Ready s.now at out.old err.old }
    ensures { Reads (simple s.now at) s.now 0 10 at out.old out.new err.old err.new result }
{
    let b = byte_at(s, at);
    if b == b'u' {
        return unicode(s, at + 1, out, err);
    }
    let Some(code) = named(b) else {
        err.put_error(Expected::Escape, at);
        return at;
    };
    out.put_char(u16::from(code));
    at + 1
}
