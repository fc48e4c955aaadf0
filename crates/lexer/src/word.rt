// Identifiers, and what may stand before one.
ghost use Rattle.std.specs.Prelude.{◌≤◌, length};
ghost use Rattle.lexer.specs.Word.{ident0, ident1, mod_then_ident};
ghost use Rattle.lexer.specs.Meets.{Reaches, Within, Scans};

use crate::class::{letter, word_byte};
use crate::put::{Expected, Room};
use crate::scan::{byte_at, optional, past};

// [a-zA-Z0-9_]*
pub fn ident0(s: &[u8], at: usize) -> usize
    requires { at ≤ length s.now }
    ensures { Reaches (ident0 s.now at) s.now at result }
{
    past(s, at, word_byte)
}

// [a-zA-Z_][a-zA-Z0-9_]*
pub fn ident1(s: &[u8], at: usize, err: &mut Room<'_>) -> usize
    requires { Within s.now at err.old.next }
    ensures { Scans (ident1 s.now at) s.now at 10 err.old err.new result }
{
    if letter(byte_at(s, at)) {
        return ident0(s, at + 1);
    }
    err.put_error(Expected::Ident, at);
    at
}

// A word, behind its first letter.
pub fn mod_then_ident(s: &[u8], at: usize, err: &mut Room<'_>) -> usize
    requires { Within s.now at err.old.next }
    ensures { Scans (mod_then_ident s.now at) s.now at 0 err.old err.new result }
{
    let a = ident0(s, at);
    if byte_at(s, a) == b':' && byte_at(s, a + 1) == b':' {
        return ident1(s, optional(s, a + 2, b'@', b'$'), err);
    }
    a
}
