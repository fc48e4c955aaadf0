// White space and comments.
ghost use Rattle.std.specs.Prelude.{◌≡◌, ◌==◌, Bool, ℕ, ◌+◌, ◌-◌, ◌≤◌, ◌<◌, MatchOption, length};
ghost use Rattle.std.specs.List.{list_all, suffix_len};
ghost use Rattle.lexer.specs.Scan.{past};
ghost use Rattle.lexer.specs.Space.{blank, in_line, goes_on, space};
ghost use Rattle.lexer.specs.Meets.{bare, Reaches, Spacing, Tests};

use crate::scan::{byte_at, past};

// How many bytes the white space character at a place has, if one stands there. One of ASCII is told by its byte.
fn blank(s: &[u8], at: usize) -> Option<usize>
    requires { at ≤ length s.now }
    ensures { MatchOption result (blank s.now at ≡ 0) (λ n. (n ≡ blank s.now at) × (0 < n) × (at + n ≤ length s.now)) }
{
    match byte_at(s, at) {
        0x80..=0xFF => match text::char_at(s, at) {
            Some(c) if text::white_space(c.code) => Some(c.len),
            _ => None,
        },
        b'\t'..=b'\r' | b' ' => Some(1),
        _ => None,
    }
}

// Whether all of a block are of a class: a loop with no way out, which compiles to a few wide instructions.
fn all_of<F: Fn(u8) -> bool>(block: &[u8], test: &F) -> bool
    requires { F.IsAlwaysCallable test.now }
    ensures { (p : ℕ → Bool) → Tests (F.post test.now) p → result ≡ list_all p block.now }
{
    let mut all = true;
    for b in block {
        all &= test(*b);
    }
    all
}

// The place past the bytes of a class that start at a place, of which there may be many: they are passed in blocks of N while whole ones are there.
fn past_many<const N: usize, F: Fn(u8) -> bool>(s: &[u8], at: usize, test: F) -> usize
    requires some { 0 < N }
    requires few { N ≤ 128 }
    requires place { at ≤ length s.now }
    requires callable { F.IsAlwaysCallable test }
    ensures { (p : ℕ → Bool) → Tests (F.post test) p → Reaches (past p s.now at) s.now at result }
{
    let mut rest = &s[at..];
    while let Some((block, tail)) = rest.split_first_chunk::<N>() {
        if !all_of(block, &test) {
            break;
        }
        rest = tail;
    }
    past(s, s.len() - rest.len(), test)
}

// The end of the line at a place.
fn line_end(s: &[u8], at: usize) -> usize
    requires { at ≤ length s.now }
    ensures { Reaches (past in_line s.now at) s.now at result }
{
    past_many::<128, _>(s, at, |b| b != b'\n')
}

// How many backslashes a line ends in.
fn slashes(line: &[u8]) -> usize
    ensures { result ≡ suffix_len (λ b. b == 0x5C) line.now }
{
    line.iter().rev().take_while(|b| **b == b'\\').count()
}

// Whether a line, less one trailing CR, ends in an odd number of backslashes.
fn goes_on(s: &[u8], at: usize, end: usize) -> bool
    requires { (at ≤ end) × (end ≤ length s.now) }
    ensures { result ≡ goes_on s.now at (end - at) }
{
    let line = &s[at..end];
    slashes(line.strip_suffix(b"\r").unwrap_or(line)) % 2 == 1
}

// The place behind the spaces that start at a place. White space is mostly short, and so are the blocks.
fn spaces(s: &[u8], at: usize) -> usize
    requires { at ≤ length s.now }
    ensures { Spacing s.now at result }
{
    past_many::<16, _>(s, at, |b| b == b' ')
}

// The place behind the white space of ASCII that starts at a place, of whatever kind: lines and what they are indented by.
fn blanks(s: &[u8], at: usize) -> usize
    requires { at ≤ length s.now }
    ensures { Spacing s.now at result }
{
    past_many::<16, _>(s, at, |b| b == b' ' || matches!(b, b'\t'..=b'\r'))
}

// White space and comments from a place on. A comment is left with the first line that does not go on.
pub fn space(s: &[u8], from: usize) -> usize
    requires { from ≤ length s.now }
    ensures { Reaches (space s.now from) s.now from result }
{
    let mut at = spaces(s, from);
    'space: loop {
        if let Some(n) = blank(s, at) {
            at = blanks(s, at + n);
            continue 'space;
        }
        if byte_at(s, at) != b'#' {
            break 'space;
        }
        at += 1;
        'lines: loop {
            let end = line_end(s, at);
            let on = goes_on(s, at, end);
            at = s.len().min(end + 1);
            if !on {
                break 'lines;
            }
        }
    }
    at
}

// Whether a byte is ASCII and starts neither white space nor a comment. (0 stands at the end.)
#[tactic(auto, unfolding(crate::specs::Meets::bare, text::specs::Space::white_space, text::specs::Space::spaces))]
fn bare(b: u8) -> bool
    ensures { result ≡ bare b }
{
    if b > b' ' {
        b.is_ascii() && b != b'#'
    } else {
        b != b' ' && !matches!(b, b'\t'..=b'\r')
    }
}

// The same as `space`, short enough to stand in its callers: between tokens there is mostly nothing, or one space.
pub fn skip(s: &[u8], from: usize) -> usize
    requires { from ≤ length s.now }
    ensures { Reaches (space s.now from) s.now from result }
{
    let b = byte_at(s, from);
    if bare(b) {
        return from;
    }
    if b == b' ' && bare(byte_at(s, from + 1)) {
        return from + 1;
    }
    space(s, from)
}
