// The ends of the fields that are open, as a walk over all headers keeps them.
ghost use Rattle.std.specs.Prelude.{◌≡◌, ◌<◌, ◌≤◌, ℕ, List, [], ◌∷◌, length, leb};
ghost use Rattle.tree.specs.Nest.{pop, stack_of};

use std::marker::Model;

// At most N ends. Clauses see them, the innermost first.
// Kept: fixed memory: an array and how much of it is in use, as there is no heap for a Vec.
#[derive(Drop)]
pub struct Open<const N: usize> {
    ends: [u16; N],
    count: usize,
}

impl<const N: usize> Model for Open<N> {
    ghost Value = { List ℕ };

    ghost view = { λ o. stack_of o.ends o.count };

    ghost invariant = { λ o. o.count ≤ N };
}

impl<const N: usize> Open<N> {
    pub fn new() -> Open<N>
        ensures { result ≡ [] }
    {
        Open {
            ends: [0; N],
            count: 0,
        }
    }

    pub fn is_full(&self) -> bool
        ensures { result ≡ leb N (length self.now) }
    {
        self.count == N
    }

    // Drops the ends that are not behind p.
    pub fn pass(&mut self, p: usize)
        ensures { self.new ≡ pop p self.old }
    {
        // Kept: ends are dropped from the top until one is behind p: a stack's own loop, with no index of its own.
        while self.count > 0 && usize::from(self.ends[self.count - 1]) <= p {
            self.count -= 1;
        }
    }

    // Keeps one end more.
    pub fn push(&mut self, end: usize)
        requires { (length self.old < N) × (end < 65536) }
        ensures { self.new ≡ end ∷ self.old }
    {
        // Kept: `as`, of a number that the clause says fits.
        self.ends[self.count] = end as u16;
        self.count += 1;
    }
}
