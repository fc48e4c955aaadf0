// The check of tree bytes. Every header is looked at once as a member of the field that it stands in and once by itself, with no stack: so a tree that
// nests thousands deep is told from one that is not well formed, and nothing grows with the depth. Only then are nesting and module numbers looked at.

#![tactic(auto)]

mod input;
mod open;
pub mod places;
mod table;

ghost use Rattle.std.specs.Prelude.{◌≡◌, List, [], ℕ, ◌+◌, ◌-◌, ◌/◌, ◌%◌, ◌≤◌, ◌<◌, length, get_or, IfErr};
ghost use Rattle.fields.specs.Refusals.{place_of};
ghost use Rattle.tree.specs.Leaf.{shape, is_leaf_tag, leaf_ok, text, is_operator};
ghost use Rattle.tree.specs.Shapes.{number_of, IsShape};
ghost use Rattle.tree.specs.Grammar.{row_at, after, IsDue};
ghost use Rattle.tree.specs.Rose.{end_of};
ghost use Rattle.tree.specs.Scan.{Local, next_of};
ghost use Rattle.tree.specs.Tree.{Tree, Uses};
ghost use Rattle.tree.specs.Form.{At};
ghost use Rattle.tree.specs.Numbers.{below, uses_below, numbered, Held, Using, From};
ghost use Rattle.tree.specs.Nest.{counts, Shallow};
ghost use Rattle.tree.specs.Verdict.{Says, number_said, limits};
ghost use Rattle.tree.specs.Wf.{Wf, Decided};
ghost use Rattle.tree.specs.Formed.{Formed, Stepped, AtMost, only};

use fields::Refusal;
use input::Input;
use open::Open;
use places::fields;
use table::{Item, Leaf, Mode, Shape};

// The tags that a walk over a tree asks for.
const GLOBALS: u8 = 0x82;

const DEFINITION: u8 = 0x8C;

// ---- rows of members
//
// A row of the table is gone along by the index of the item that is due. There are 106 items; the last, 105, takes nothing.

// The item that is due after a member of the class of the one at j.
fn behind(it: Item, j: usize) -> usize
    requires { j < 106 }
    ensures { result ≡ j + 1 - it.byte % 4 / 2 }
{
    match it.mode() {
        Mode::One | Mode::Optional => j + 1,
        Mode::Many | Mode::Mixed => j,
    }
}

// What may follow a member of class c in the row of items at i, where items may have to be passed over first.
fn skip(i: usize, c: u8) -> Option<usize>
    requires { (i < 106) × (0 < c) }
    ensures { IsDue result (after (row_at i) c) }
{
    for j in i..105 {
        let it = table::item_at(j);
        if it.takes(c) {
            return Some(behind(it, j));
        }
        let mode = it.mode();
        if mode == Mode::One {
            return None;
        }
        if mode == Mode::Mixed && c == table::TERM {
            return Some(j);
        }
    }
    None
}

// The same: most often the first item takes the member.
fn advance(i: usize, c: u8) -> Option<usize>
    requires { (i < 106) × (0 < c) }
    ensures { IsDue result (after (row_at i) c) }
{
    let it = table::item_at(i);
    if it.takes(c) {
        return Some(behind(it, i));
    }
    skip(i, c)
}

// Do the fields from p on fill p to e, in the classes of the items at s?
fn row(b: &Input, p: usize, e: usize, s: usize) -> bool
    requires { (p ≤ e) × (e ≤ length b.now) × (s < 106) }
    ensures { Decided result (Local b.now e (row_at s) p) }
{
    let mut q = p;
    let mut i = s;
    // Kept: `while`, since the step from field to field is each field's own length, which is not yet known to be right.
    while q < e {
        if !b.fits(q, e) {
            return false;
        }
        let Some(due) = advance(i, table::class_of(b.byte(q))) else {
            return false;
        };
        i = due;
        q = b.end_of(q);
    }
    table::item_at(i).may_end()
}

// ---- leaves

// Is it UTF-8?
#[inline(never)]
fn is_utf8(x: &[u8]) -> bool
    ensures { result ≡ text x.now }
{
    text::prefix(x) == x.len()
}

// The same; a short text is most often ASCII alone.
#[inline(always)]
fn is_text(x: &[u8]) -> bool
    ensures { result ≡ text x.now }
{
    if x.len() > 24 {
        return is_utf8(x);
    }
    for (i, k) in x.iter().enumerate() {
        if !k.is_ascii() {
            return is_utf8(&x[i..]);
        }
    }
    true
}

// The operator bytes.
#[tactic(auto, using(crate::proofs::Leaves::operator_runs))]
fn is_operator(k: u8) -> bool
    ensures { result ≡ is_operator k }
{
    matches!(k, 0x01..=0x07 | 0x10..=0x14 | 0x20..=0x25 | 0x30..=0x34)
}

// May x be the bytes of a leaf of this kind?
fn leaf_ok(kind: Leaf, x: &[u8]) -> bool
    ensures { result ≡ leaf_ok (number_of kind) x.now }
{
    match kind {
        Leaf::Text => is_text(x),
        Leaf::Dollar => x.starts_with(b"$") && is_text(x),
        Leaf::Two => x.len() == 2,
        Leaf::Operator => x.len() == 1 && is_operator(x[0]),
        Leaf::Scalar => {
            x.len() == 4 && text::is_scalar(u32::from_le_bytes([x[0], x[1], x[2], x[3]]))
        }
        Leaf::Unknown => false,
    }
}

// ---- all headers

// How many fields, and how many definitions, can be open at once at most: as many as have members, and one without.
#[derive(Clone, Copy)]
struct Counts {
    fields: usize,
    definitions: usize,
}

// The header after the one at p, which ends at e and has this shape, if its content is right.
fn content(b: &Input, p: usize, e: usize, s: Shape) -> Option<usize>
    requires { (e ≡ end_of b.now p) × (e ≤ length b.now) × IsShape s (shape (get_or b.now p 0)) }
    ensures { Stepped b.now p result }
{
    match s {
        Shape::Row(i) => row(b, p + 3, e, i).then_some(p + 3),
        Shape::Bytes(kind) => leaf_ok(kind, b.part(p + 3, e)).then_some(e),
    }
}

// The counts, if each header is right, where the bytes themselves are one field of a tree. That a field ends within the bytes follows from what was right
// before it; to test it is cheaper than to say so of every field that is still to come.
fn each_header(b: &Input) -> Option<Counts>
    requires { Local b.now (length b.now) (row_at 0) 0 }
    ensures { Formed b.now result }
{
    let n = b.len();
    let mut p = 0;
    let mut fields = 1;
    let mut definitions = 0;
    // Kept: `while`, since the step is what `content` gives.
    while p < n {
        if !b.fits(p, n) {
            return None;
        }
        let e = b.end_of(p);
        let k = b.byte(p);
        let s = table::shape_of(k);
        p = content(b, p, e, s)?;
        fields += usize::from(s.is_row());
        definitions += usize::from(k == DEFINITION);
    }
    Some(Counts {
        fields,
        definitions,
    })
}

// The counts, if the bytes are those of a tree, its module numbers aside.
fn formed(b: &Input) -> Option<Counts>
    ensures { Formed b.now result }
{
    if !row(b, 0, b.len(), 0) {
        return None;
    }
    each_header(b)
}

// ---- module numbers

// Is each number that stands d bytes after the start of a field from p to e less than m?
fn below(b: &Input, p: usize, e: usize, d: usize, m: usize) -> bool
    requires { (e ≤ length b.now) × ((vs : List ℕ) × Held b.now d e vs p) }
    ensures { (vs : List ℕ) → Held b.now d e vs p → result ≡ below m vs }
{
    for q in fields(b.bytes(), p, e) {
        if b.number(q + d) >= m {
            return false;
        }
    }
    true
}

// Are the module numbers of the module or main at p less than m?
fn uses_ok(b: &Input, p: usize, m: usize) -> bool
    requires { (u : Uses) × Using b.now p u }
    ensures { (u : Uses) → Using b.now p u → result ≡ uses_below m u }
{
    let (imports, _) = b.content(p);
    let (first, includes) = b.content(imports);
    let (second, vars) = b.content(includes);
    below(b, first, includes, 6, m) && below(b, second, vars, 3, m)
}

// Where the modules and main start: after natives and globals.
fn modules(b: &Input) -> usize
    requires { (t : Tree) × At b.now t }
    ensures { (t : Tree) → At b.now t → From b.now t.modules t.main result }
{
    let p = b.end_of(3);
    if b.byte(p) == GLOBALS {
        return b.end_of(p);
    }
    p
}

// Does each module, and main, use earlier modules alone?
fn numbered(b: &Input) -> bool
    requires { (t : Tree) × At b.now t }
    ensures { (t : Tree) → At b.now t → result ≡ numbered t }
{
    let first = modules(b);
    for (m, p) in fields(b.bytes(), first, b.len()).enumerate() {
        if !uses_ok(b, p, m) {
            return false;
        }
    }
    true
}

// ---- nesting

// Which fields count: each, or definitions alone.
#[derive(Clone, Copy)]
enum Counted {
    Fields,
    Definitions,
}

impl Counted {
    fn counts(self, k: u8) -> bool
        ensures { result ≡ counts (only self) k }
    {
        match self {
            Counted::Fields => true,
            Counted::Definitions => k == DEFINITION,
        }
    }
}

// The header after the one at p.
fn next(b: &Input, p: usize) -> usize
    requires { p + 3 ≤ length b.now }
    ensures { result ≡ next_of (is_leaf_tag (get_or b.now p 0)) b.now p }
{
    let (members, e) = b.content(p);
    if table::shape_of(b.byte(p)).is_row() {
        members
    } else {
        e
    }
}

// Are at most N fields that count open at once?
fn shallow<const N: usize>(b: &Input, counted: Counted) -> bool
    requires { Wf b.now × (N ≤ 512) }
    ensures { Decided result (Shallow b.now (only counted) N [] 0) }
{
    let mut open = Open::<N>::new();
    let mut p = 0;
    // Kept: `while`, since the step goes into a field's members, or past a leaf.
    while p < b.len() {
        open.pass(p);
        if counted.counts(b.byte(p)) {
            if open.is_full() {
                return false;
            }
            open.push(b.end_of(p));
        }
        p = next(b, p);
    }
    true
}

// The same, where there are few enough to tell at once.
fn within<const N: usize>(b: &Input, counted: Counted, most: usize) -> bool
    requires { Wf b.now × (N ≤ 512) × AtMost b.now (only counted) most }
    ensures { Decided result (Shallow b.now (only counted) N [] 0) }
{
    most <= N || shallow::<N>(b, counted)
}

// ---- the verdict

// A well-formed tree within its limits.
fn nested(b: &Input, most: Counts) -> Result<(), Refusal>
    requires { Wf b.now × AtMost b.now 0 most.fields × AtMost b.now 0x8C most.definitions }
    ensures says { (t : Tree) → At b.now t → number_said result ≡ limits t }
    ensures no_place { IfErr result (λ e. place_of e ≡ 0) }
{
    if !within::<512>(b, Counted::Fields, most.fields) {
        return Err(Refusal::TooDeep(0));
    }
    if !within::<64>(b, Counted::Definitions, most.definitions) {
        return Err(Refusal::DefinitionsTooDeep);
    }
    Ok(())
}

// The same of any bytes that are not too long.
fn judged(b: &Input) -> Result<(), Refusal>
    requires { length b.now ≤ 32768 }
    ensures says { Says b.now (number_said result) }
    ensures no_place { IfErr result (λ e. place_of e ≡ 0) }
{
    let Some(most) = formed(b) else {
        return Err(Refusal::NotWellFormed(0));
    };
    if !numbered(b) {
        return Err(Refusal::NotWellFormed(0));
    }
    nested(b, most)
}

// What is wrong with the tree bytes, if anything is: too long, not well formed, nested too deep, definitions nested too deep.
pub fn verdict(b: &[u8]) -> Result<(), Refusal>
    ensures says { Says b.now (number_said result) }
    ensures no_place { IfErr result (λ e. place_of e ≡ 0) }
{
    let Some(input) = Input::new(b) else {
        return Err(Refusal::TooLong);
    };
    judged(&input)
}
