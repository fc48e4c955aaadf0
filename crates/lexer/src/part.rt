// Parts of a text, for every number: a part that would go past the end stops there.
ghost use Rattle.std.specs.Prelude.{◌≡◌, take, drop};

// The part from n on.
pub fn after(s: &[u8], n: usize) -> &[u8]
    ensures { result.now ≡ drop n s.now }
{
    s.get(n..).unwrap_or(&s[s.len()..])
}

// The first n bytes.
pub fn front(s: &[u8], n: usize) -> &[u8]
    ensures { result.now ≡ take n s.now }
{
    s.get(..n).unwrap_or(s)
}
