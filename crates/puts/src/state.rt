// Where the compiler is: the next term number, the offset after the table's records, and the offset after the errors. Both go into one room. Over an
// empty one nothing is written and all is counted; where errors are due, the table's offset is past the room from the start, and where the table is
// due, the errors' is.
ghost use Rattle.std.specs.Prelude.{◌≡◌, ◌+◌, ◌<◌, ◌^◌};
ghost use Rattle.puts.specs.State.{at_of, start_at, spot_at, next_at};

// More than any offset. Where no own record is due, it counts as due there.
pub const LATE: usize = 0x4000_0000_0000_0000;

#[derive(Clone, Copy)]
pub struct State {
    // the next term number
    pub terms: usize,
    // the offset after the table's records
    pub end: usize,
    // the offset after the errors
    pub errors: usize,
}

// The own record of a term is due at o: where o is the next offset, the records of its members follow it; where there is none, they stand before it.
impl State {
    // Before the members: reserves w bytes for an own record that they follow.
    pub fn reserve(&mut self, o: Option<usize>, w: usize)
        requires { at_of o + w < 2 ^ 64 }
        ensures { self.new ≡ record self.old { end = start_at o self.old.end w } }
    {
        let at = o.unwrap_or(LATE);
        if at == self.end {
            self.end = at + w;
        }
    }

    // After the members: where the own record of w bytes stands.
    pub fn place(&mut self, o: Option<usize>, w: usize) -> usize
        requires { self.old.end + w < 2 ^ 64 }
        ensures { (result ≡ spot_at o self.old.end) × (self.new ≡ record self.old { end = next_at o self.old.end w }) }
    {
        if let Some(x) = o {
            return x;
        }
        let x = self.end;
        self.end = x + w;
        x
    }

    // Where the own record of a term without members stands.
    pub fn alone(&mut self, o: Option<usize>, w: usize) -> usize
        requires { (at_of o + w + w < 2 ^ 64) × (self.old.end + w < 2 ^ 64) }
        ensures { (result ≡ spot_at o (start_at o self.old.end w)) × (self.new ≡ record self.old { end = next_at o (start_at o self.old.end w) w }) }
    {
        self.reserve(o, w);
        self.place(o, w)
    }

    // Where a record of w bytes with the next number stands.
    pub fn insert(&mut self, w: usize) -> usize
        requires { (self.old.terms + 1 < 2 ^ 64) × (self.old.end + w < 2 ^ 64) }
        ensures { (result ≡ self.old.end) × (self.new ≡ record self.old { terms = self.old.terms + 1; end = self.old.end + w }) }
    {
        let o = self.end;
        self.terms += 1;
        self.end = o + w;
        o
    }

    // The next number, for a record that has its bytes already.
    pub fn take_number(&mut self) -> usize
        requires { self.old.terms + 1 < 2 ^ 64 }
        ensures { (result ≡ self.old.terms) × (self.new ≡ record self.old { terms = self.old.terms + 1 }) }
    {
        let n = self.terms;
        self.terms = n + 1;
        n
    }

    // Where an error of w bytes stands.
    pub fn insert_error(&mut self, w: usize) -> usize
        requires { self.old.errors + w < 2 ^ 64 }
        ensures { (result ≡ self.old.errors) × (self.new ≡ record self.old { errors = self.old.errors + w }) }
    {
        let e = self.errors;
        self.errors = e + w;
        e
    }
}
