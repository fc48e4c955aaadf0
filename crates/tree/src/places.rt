// The fields that stand one after the other, each where the one before it ends.
ghost use Rattle.std.specs.Prelude.{◌≡◌, List, ℕ, ◌≤◌, length};
ghost use Rattle.tree.specs.Rose.{end_of};

use crate::input::two;

// The place after the field at p.
#[inline]
pub fn end_of(b: &[u8], p: usize) -> usize
    requires { end_of b.now p ≤ length b.now }
    ensures { result ≡ end_of b.now p }
{
    p + 3 + two(&b[p + 1..])
}

// The places of the fields that stand from `at` up to `end`, each where the one before it ends.
#[derive(Clone, Copy)]
pub struct Places<'a> {
    pub tree: &'a [u8],
    pub at: usize,
    pub end: usize,
}

// The fields from q up to z.
#[inline]
pub fn fields(b: &[u8], q: usize, z: usize) -> Places<'_>
    ensures { (result.tree.now ≡ b.now) × (result.at ≡ q) × (result.end ≡ z) }
{
    Places {
        tree: b,
        at: q,
        end: z,
    }
}

impl<'a> Iterator for Places<'a> {
    ghost use Rattle.tree.specs.Places.{Stand, GivesField, fields_left};

    type Item = usize;

    ghost can_next = { Stand };

    ghost next_gives = { GivesField };

    ghost remaining = { fields_left };

    #[inline]
    fn next(&mut self) -> Option<usize> {
        let p = self.at;
        if p < self.end {
            self.at = end_of(self.tree, p);
            return Some(p);
        }
        None
    }
}
