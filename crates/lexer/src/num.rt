// Numbers.
ghost use Rattle.std.specs.Prelude.{◌≤◌, length};
ghost use Rattle.lexer.specs.Scan.{past};
ghost use Rattle.lexer.specs.Word.{digit};
ghost use Rattle.lexer.specs.Num.{digits1, fraction, exponent, num};
ghost use Rattle.lexer.specs.Meets.{Reaches, Within, Scans};

use crate::class::digit;
use crate::put::{Expected, Room};
use crate::scan::{byte_at, optional, past};

// [0-9]*
fn digits0(s: &[u8], at: usize) -> usize
    requires { at ≤ length s.now }
    ensures { Reaches (past digit s.now at) s.now at result }
{
    past(s, at, digit)
}

// [0-9]+
fn digits1(s: &[u8], at: usize, err: &mut Room<'_>) -> usize
    requires { Within s.now at err.old.next }
    ensures { Scans (digits1 s.now at) s.now at 10 err.old err.new result }
{
    let a = digits0(s, at);
    if a == at {
        err.put_error(Expected::Digit, at);
    }
    a
}

// Optional `.` with digits.
fn fraction(s: &[u8], at: usize, err: &mut Room<'_>) -> usize
    requires { Within s.now at err.old.next }
    ensures { Scans (fraction s.now at) s.now at 0 err.old err.new result }
{
    if byte_at(s, at) == b'.' {
        return digits1(s, at + 1, err);
    }
    at
}

// Optional `e` or `E`, one optional sign, digits.
fn exponent(s: &[u8], at: usize, err: &mut Room<'_>) -> usize
    requires { Within s.now at err.old.next }
    ensures { Scans (exponent s.now at) s.now at 0 err.old err.new result }
{
    match byte_at(s, at) {
        b'e' | b'E' => digits1(s, optional(s, at + 1, b'+', b'-'), err),
        _ => at,
    }
}

// A number, behind its first digit.
pub fn num(s: &[u8], at: usize, err: &mut Room<'_>) -> usize
    requires { Within s.now at err.old.next }
    ensures { Scans (num s.now at) s.now at 0 err.old err.new result }
{
    let f = fraction(s, digits0(s, at), err);
    exponent(s, f, err)
}
