// Bytes that may be those of a tree, read where no place in them wraps.
ghost use Rattle.std.specs.Prelude.{◌≡◌, ◌+◌, ◌-◌, ◌*◌, ◌<◌, ◌≤◌, ℕ, List, length, get_or, take, drop, leb, MatchOption};
ghost use Rattle.tree.specs.Rose.{end_of};

use std::marker::Model;

// The number in the first two bytes.
pub fn two(s: &[u8]) -> usize
    requires { 2 ≤ length s.now }
    ensures { (result ≡ get_or s.now 0 0 + get_or s.now 1 0 * 256) × (result < 65536) }
{
    usize::from(u16::from_le_bytes([s[0], s[1]]))
}

// At most 32,768 bytes. Clauses see the bytes.
#[derive(Drop)]
pub struct Input<'a> {
    bytes: &'a [u8],
}

impl<'a> Model for Input<'a> {
    ghost Value = { List ℕ };

    ghost view = { λ b. b.bytes.now };

    ghost invariant = { λ b. length b.bytes.now ≤ 32768 };
}

impl<'a> Input<'a> {
    // The bytes, if they are not too many.
    pub fn new(bytes: &'a [u8]) -> Option<Input<'a>>
        ensures { MatchOption result (32768 < length bytes.now) (λ b. (b ≡ bytes.now) × (length b ≤ 32768)) }
    {
        if bytes.len() > 32768 {
            return None;
        }
        Some(Input { bytes })
    }

    // They themselves.
    pub fn bytes(&self) -> &[u8]
        ensures { result.now ≡ self.now }
    {
        self.bytes
    }

    pub fn len(&self) -> usize
        ensures { (result ≡ length self.now) × (result ≤ 32768) }
    {
        self.bytes.len()
    }

    pub fn byte(&self, p: usize) -> u8
        requires { p < length self.now }
        ensures { result ≡ get_or self.now p 0 }
    {
        self.bytes[p]
    }

    // The bytes from p to e.
    pub fn part(&self, p: usize, e: usize) -> &[u8]
        requires { (p ≤ e) × (e ≤ length self.now) }
        ensures { result.now ≡ take (e - p) (drop p self.now) }
    {
        &self.bytes[p..e]
    }

    // The number in the two bytes at p.
    pub fn number(&self, p: usize) -> usize
        requires { p + 2 ≤ length self.now }
        ensures { result ≡ get_or self.now p 0 + get_or self.now (p + 1) 0 * 256 }
    {
        two(&self.bytes[p..])
    }

    // Where the field at p ends.
    pub fn end_of(&self, p: usize) -> usize
        requires { p + 3 ≤ length self.now }
        ensures { result ≡ end_of self.now p }
    {
        let field = &self.bytes[p..];
        p + 3 + two(&field[1..])
    }

    // Where the content of the field at p starts, and where it ends.
    pub fn content(&self, p: usize) -> (usize, usize)
        requires { p + 3 ≤ length self.now }
        ensures { (result.0 ≡ p + 3) × (result.1 ≡ end_of self.now p) }
    {
        let e = self.end_of(p);
        (p + 3, e)
    }

    // Does the field at p end within the first e bytes?
    pub fn fits(&self, p: usize, e: usize) -> bool
        requires { (p ≤ e) × (e ≤ length self.now) }
        ensures { result ≡ leb (end_of self.now p) e }
    {
        e - p >= 3 && self.end_of(p) <= e
    }
}
