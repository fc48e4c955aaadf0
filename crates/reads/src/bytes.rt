// Tree bytes: where a field ends, how many fields follow each other, texts and how they compare. A place is the offset of a field's tag byte.
// Every reader asks that the field lies within the bytes: `end_of b p ≤ length b`.
//
// Kept: tags and operators are bytes, those of docs/TREE.md and of document 01's listing, of which the definitions speak: an enum would be made of each byte and taken apart in the same line.
// Kept: the bytes and a place in them are two parameters: a place is a number that rows, records and errors keep, and each reader goes on to others.
ghost use Rattle.std.specs.Prelude.{◌≡◌, List, ℕ, ◌+◌, ◌*◌, ◌≤◌, ◌<◌, length, take, drop, SomeIff};
ghost use Rattle.tree.specs.Rose.{Roses, rnil, rcons, end_of, text_of, Row};
ghost use Rattle.tree.specs.Tree.{Name, Term, Defs};
ghost use Rattle.tree.specs.Form.{f_term, f_names, f_defs};
ghost use Rattle.rules.specs.Names.{same, is_var};
ghost use Rattle.reads.specs.Bytes.{len_of, pair_at, four_of, many, after, TermAt, is_tag, past, sub_pattern, word_of, colons_at, colons_of};
ghost use Rattle.reads.specs.Tagged.{Tagged};

pub use tree::places::{Places, end_of, fields};

// The number that two bytes from p on hold.
fn pair(b: &[u8], p: usize) -> usize
    requires { p + 2 ≤ length b.now }
    ensures { (result ≡ pair_at b.now p) × (result < 65536) }
{
    usize::from(u16::from_le_bytes([b[p], b[p + 1]]))
}

// The number that four bytes from p on hold.
fn four(b: &[u8], p: usize) -> u32
    requires { p + 4 ≤ length b.now }
    ensures { result ≡ four_of b.now p }
{
    u32::from_le_bytes([b[p], b[p + 1], b[p + 2], b[p + 3]])
}

// The length of the content of the field at p.
pub fn len_of(b: &[u8], p: usize) -> usize
    requires { end_of b.now p ≤ length b.now }
    ensures { result ≡ len_of b.now p }
{
    pair(b, p + 1)
}

// The number that the field at p holds in two bytes.
pub fn number_at(b: &[u8], p: usize) -> usize
    requires { p + 5 ≤ length b.now }
    ensures { (result ≡ pair_at b.now (p + 3)) × (result < 65536) }
{
    pair(b, p + 3)
}

// The code point that the field at p holds in four bytes.
pub fn char_at(b: &[u8], p: usize) -> u32
    requires { p + 7 ≤ length b.now }
    ensures { result ≡ four_of b.now (p + 3) }
{
    four(b, p + 3)
}

// How many fields stand from q up to z.
pub fn members(b: &[u8], q: usize, z: usize) -> usize
    requires { (z ≤ length b.now) × ((rs : Roses) × Row b.now rs q z) }
    ensures { (rs : Roses) → Row b.now rs q z → (result ≡ many rs) × (q + 3 * result ≤ z) }
{
    fields(b, q, z).count()
}

// Fields of one tag, one after the other: how many, and the place after them.
#[derive(Clone, Copy)]
pub struct Sig {
    pub a: usize,
    pub q: usize,
}

// The fields of the tag from q on, behind which one of another tag stands.
fn tagged(b: &[u8], q: usize, tag: u8) -> Sig
    requires { (n : ℕ) × Tagged b.now tag n q }
    ensures { (n : ℕ) → Tagged b.now tag n q → (result.a ≡ n) × (result.q ≡ after b.now n q) }
{
    let mut i = 0;
    let mut p = q;
    // Kept: only the next field's tag says where these end; `params` and `after_defs`, which are public, are given no end, and `fields` asks for one.
    while b[p] == tag {
        p = end_of(b, p);
        i += 1;
    }
    Sig { a: i, q: p }
}

// Parameters from q on. A term follows them, whose tag is no parameter's.
pub fn params(b: &[u8], q: usize) -> Sig
    requires { (xs : List Name) × (t : Term) × (z : ℕ) × Row b.now (f_names 0x91 xs (rcons (f_term t) rnil)) q z × (z ≤ length b.now) }
    ensures { (xs : List Name) (t : Term) (z : ℕ) → Row b.now (f_names 0x91 xs (rcons (f_term t) rnil)) q z → (result.a ≡ length xs) × (result.q ≡ after b.now (length xs) q) }
{
    tagged(b, q, 0x91)
}

// The place after the definitions from q on, which a term follows.
pub fn after_defs(b: &[u8], q: usize) -> usize
    requires { (ds : Defs) × (t : Term) × (z : ℕ) × Row b.now (f_defs ds (rcons (f_term t) rnil)) q z × (z ≤ length b.now) }
    ensures { (ds : Defs) (t : Term) (z : ℕ) → Row b.now (f_defs ds (rcons (f_term t) rnil)) q z → TermAt b.now t result }
{
    tagged(b, q, 0x8C).q
}

// Whether a field of the tag stands at q, before z.
pub fn is_tag(b: &[u8], q: usize, z: usize, tag: u8) -> bool
    requires { z ≤ length b.now }
    ensures { result ≡ is_tag b.now q z tag }
{
    q < z && b[q] == tag
}

// Kept: a place always, as the clause promises: where the field is not there it has not moved.
// The place after the field of the tag at q, if it stands there.
pub fn past(b: &[u8], q: usize, z: usize, tag: u8) -> usize
    requires { (z ≤ length b.now) × ((q < z) → (end_of b.now q ≤ length b.now)) }
    ensures { result ≡ past b.now q z tag }
{
    if is_tag(b, q, z, tag) {
        return end_of(b, q);
    }
    q
}

// The pattern of a member of an array (99) or object (9A) pattern: the member itself, or what follows the entry's key.
pub fn sub_pattern(b: &[u8], tag: u8, p: usize) -> usize
    requires { ((tag ≡ 0x99) → ⊥) → (end_of b.now (p + 3) ≤ length b.now) }
    ensures { result ≡ sub_pattern b.now tag p }
{
    if tag == 0x99 {
        return p;
    }
    end_of(b, p + 3)
}

// "A name starting `$` is a variable only."
pub fn is_var(b: &[u8], p: usize) -> bool
    requires { end_of b.now p ≤ length b.now }
    ensures { result ≡ is_var (text_of b.now p) }
{
    len_of(b, p) != 0 && b[p + 3] == b'$'
}

// Whether the bytes of b from p on, as many as x has, are x.
pub fn same(b: &[u8], p: usize, x: &[u8]) -> bool
    requires { p + length x.now ≤ length b.now }
    ensures { result ≡ same x.now (take (length x.now) (drop p b.now)) }
{
    x == &b[p..p + x.len()]
}

// Whether the text of the field at p is x.
pub fn is_text(b: &[u8], p: usize, x: &[u8]) -> bool
    requires { end_of b.now p ≤ length b.now }
    ensures { result ≡ same x.now (text_of b.now p) }
{
    x == &b[p + 3..end_of(b, p)]
}

// A word of a text: the first four bytes and the last four, or, of a shorter one, first, middle and last. Texts whose words differ differ.
pub fn word(x: &[u8]) -> u64
    ensures { result ≡ word_of x.now }
{
    let l = x.len();
    if 4 <= l {
        return u64::from(four(x, 0)) + u64::from(four(x, l - 4)) * 4294967296;
    }
    if l == 0 {
        return 0;
    }
    u64::from(u32::from_le_bytes([x[0], x[l / 2], x[l - 1], 0]))
}

// Where a `::` that place i is part of starts; i is not 0.
#[inline(always)]
fn colons_at(x: &[u8], i: usize) -> Option<usize>
    requires { (0 < i) × (i < length x.now) }
    ensures { SomeIff result (colons_at x.now i < length x.now) (colons_at x.now i) }
{
    if x[i] != b':' {
        return None;
    }
    if x[i - 1] == b':' {
        return Some(i - 1);
    }
    if i + 1 < x.len() && x[i + 1] == b':' {
        return Some(i);
    }
    None
}

// Where the first `::` of a text starts. Of two neighbouring places one is odd, so only these are looked at.
pub fn colons(x: &[u8]) -> Option<usize>
    ensures { SomeIff result (colons_of x.now < length x.now) (colons_of x.now) }
{
    for i in (1..x.len()).step_by(2) {
        if let Some(start) = colons_at(x, i) {
            return Some(start);
        }
    }
    None
}
