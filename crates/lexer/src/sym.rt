// Symbols.
ghost use Rattle.std.specs.Prelude.{◌+◌, ◌<◌, length};
ghost use Rattle.lexer.specs.Sym.{dot, sym};
ghost use Rattle.lexer.specs.Meets.{Reaches};

use crate::class::{follows, letter, operator};
use crate::scan::{byte_at, past};
use crate::word::ident0;

// From a `.` on.
fn dot(s: &[u8], at: usize) -> usize
    requires { at < length s.now }
    ensures { Reaches (dot s.now at) s.now (at + 1) result }
{
    let b = byte_at(s, at + 1);
    if b == b'.' {
        return at + 2;
    }
    if letter(b) {
        return ident0(s, at + 2);
    }
    at + 1
}

// The symbol at a place.
pub fn sym(s: &[u8], at: usize) -> usize
    requires { at < length s.now }
    ensures { Reaches (sym s.now at) s.now (at + 1) result }
{
    let b = byte_at(s, at);
    if operator(b) {
        return past(s, at + 1, follows);
    }
    if b == b'.' {
        return dot(s, at);
    }
    at + 1
}
