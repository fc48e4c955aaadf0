// What a name means: the row of a binding in view, a module's definition, a native, or nothing.
//
// Kept: `as` for numbers in cells, which are u64: there is no `From` between it and usize.
// Kept: tree and rows are two parameters: a ghost field that says `Viewed` is refused, as it is no proposition, and a struct without it would leave each contract asking as now.

#![tactic(auto)]

mod sought; // sought.rt: a name that is looked for
pub mod under; // under.rt: the width of a term with definitions

ghost use Rattle.std.specs.Prelude.{◌≡◌, Some, ℕ, ◌+◌, ◌-◌, ◌*◌, ◌^◌, ◌≤◌, ◌<◌, length};
ghost use Rattle.rules.specs.Filters.{home_of};
ghost use Rattle.reads.specs.Bytes.{colons_of};
ghost use Rattle.reads.specs.Widths.{call_width};
ghost use Rattle.cells.specs.Cells.{View, Seen};
ghost use Rattle.cells.specs.Classes.{class_number};
ghost use Rattle.finds.specs.Means.{matches, first_of, Finds, Means};
ghost use Rattle.finds.specs.Calls.{down_to};
ghost use Rattle.finds.specs.Asks.{Viewed, Row, Along, Seeks, Defined, Includes, Imports, MeansMod, MeansPlain, outside_of};
ghost use Rattle.finds.specs.Gives.{or_zero, Gives};
ghost use Rattle.finds.specs.Numbers.{numbers};

use cells::{Class, RowKind, head_of};
use reads::bytes::{colons, end_of, fields, is_text, number_at, same};
use sought::Sought;

// Whether row j matches: word, class, length and arity, and the name itself.
fn is_row(tree: &[u8], rows: &[u64], j: usize, x: &Sought) -> bool
    requires { Row tree.now rows.now j }
    ensures { result ≡ matches tree.now rows.now x.now.name.now x.now.word x.now.key j }
{
    if rows[4 * j] != x.word {
        return false;
    }
    if cells::key_at(rows, j) != x.key {
        return false;
    }
    same(tree, cells::place(rows, j) + 3, x.name)
}

// The innermost row in view that matches, from row j of the name's bucket on.
fn seek(tree: &[u8], rows: &[u64], j: usize, x: &Sought) -> Option<usize>
    requires { Along tree.now rows.now j }
    ensures { Gives (Seeks tree.now rows.now j x.now.name.now x.now.word x.now.key) result }
{
    let mut i = j;
    // Kept: a link is part of one number of fixed memory, and row 0 is none.
    while i != 0 {
        if is_row(tree, rows, i, x) {
            return Some(i);
        }
        i = cells::link(rows, i);
    }
    None
}

// The innermost variable or label of the name x: a local, else a variable that the module imports, else a global.
pub fn find(tree: &[u8], rows: &[u64], x: &[u8], class: Class) -> Option<usize>
    requires { Viewed tree.now rows.now × (length x.now < 65536) × (class_number class < 2) }
    ensures { Gives (Finds tree.now rows.now x.now (class_number class)) result }
{
    let sought = Sought::new(x, class, 0);
    let h = head_of(rows, sought.word, x.len());
    seek(tree, rows, rows[h] as usize, &sought)
}

// What a call means: a row, or an error with the place and the length of the name that it is of.
#[derive(Clone, Copy)]
pub enum Meaning {
    NoFilter { at: usize, len: usize },
    NoModule { at: usize, len: usize },
    Argument(usize),
    // Definitions: one that encloses the call, one that stands before it, one of a module.
    Parent(usize),
    Sibling(usize),
    Outer(usize),
    Native(usize),
}

// "last definition first": from row lo up to hi.
#[inline(always)]
fn within(tree: &[u8], rows: &[u64], lo: usize, hi: usize, x: &Sought) -> Option<usize>
    requires { (0 < lo) × (lo ≤ hi) × ((j : ℕ) → lo ≤ j → j < hi → Row tree.now rows.now j) }
    ensures { Gives (λ r. r ≡ first_of (matches tree.now rows.now x.now.name.now x.now.word x.now.key) (down_to lo (hi - lo))) result }
{
    for j in (lo..hi).rev() {
        if is_row(tree, rows, j, x) {
            return Some(j);
        }
    }
    None
}

// The definition of module i that matches. The module's cell says where its rows start and end.
#[inline(always)]
fn defined(tree: &[u8], rows: &[u64], i: usize, x: &Sought) -> Option<usize>
    requires { (vw : View) × (k : ℕ) × Seen vw tree.now rows.now k × (i < home_of vw.top) }
    ensures { Gives (Defined tree.now rows.now i x.now.name.now x.now.key) result }
{
    let at = rows[cells::MODULES] as usize + i;
    let c = rows[at];
    within(tree, rows, (c % 65536) as usize, (c / 65536) as usize, x)
}

// "then included modules, last first": their numbers are fields of 5 bytes each.
fn included(tree: &[u8], rows: &[u64], x: &Sought) -> Option<usize>
    requires { Viewed tree.now rows.now }
    ensures { Gives (Includes tree.now rows.now x.now.name.now x.now.key) result }
{
    let q = rows[cells::INCLUDES] as usize;
    let n = (end_of(tree, q) - q - 3) / 5;
    for i in (0..n).rev() {
        if let Some(j) = defined(tree, rows, number_at(tree, q + 3 + 5 * i), x) {
            return Some(j);
        }
    }
    None
}

// "last import of that name": the place of its field.
fn import(tree: &[u8], rows: &[u64], x: &[u8]) -> Option<usize>
    requires { Viewed tree.now rows.now }
    ensures { Gives (Imports tree.now rows.now x.now) result }
{
    let q = rows[cells::IMPORTS] as usize;
    let mut found = None;
    for p in fields(tree, q + 3, end_of(tree, q)) {
        if is_text(tree, p + 8, x) {
            found = Some(p);
        }
    }
    found
}

// "With `::` (first occurrence): last import of that name, and only it; Mod error names the module part, Filter error the rest." The `::` of the
// name x, which stands at `at`, is at c.
fn call_mod(tree: &[u8], rows: &[u64], x: &[u8], c: usize, at: usize, a: usize) -> Meaning
    requires { Viewed tree.now rows.now × (length x.now < 65536) × (c ≡ colons_of x.now) × (c < length x.now) × (at < 2 ^ 32) × (a < 65536) }
    ensures { MeansMod tree.now rows.now x.now c at a (numbers result) }
{
    let Some(p) = import(tree, rows, &x[..c]) else {
        return Meaning::NoModule { at, len: c };
    };
    let s = c + 2;
    let y = &x[s..];
    let sought = Sought::new(y, Class::Filter, a);
    match defined(tree, rows, number_at(tree, p + 3), &sought) {
        Some(j) => Meaning::Outer(j),
        None => Meaning::NoFilter {
            at: at + s,
            len: y.len(),
        },
    }
}

// Past the locals: the definition j of an included module, or else f.
fn outside(j: Option<usize>, f: Meaning) -> Meaning
    requires { j ≡ Some 0 → ⊥ }
    ensures { numbers result ≡ outside_of (or_zero j) (numbers f) }
{
    match j {
        Some(j) => Meaning::Outer(j),
        None => f,
    }
}

// "Filter by name and arity: innermost local; then included modules, ..; then natives, first one first; else Filter error with arity." Natives are
// the outermost rows in view, and the first one is the innermost of them.
fn local(tree: &[u8], rows: &[u64], x: &[u8], at: usize, a: usize) -> Meaning
    requires { Viewed tree.now rows.now × (length x.now < 65536) × (a < 65536) }
    ensures { MeansPlain tree.now rows.now x.now at a (numbers result) }
{
    let sought = Sought::new(x, Class::Filter, a);
    let h = head_of(rows, sought.word, x.len());
    let Some(j) = seek(tree, rows, rows[h] as usize, &sought) else {
        let lost = Meaning::NoFilter { at, len: x.len() };
        return outside(included(tree, rows, &sought), lost);
    };
    match cells::kind(rows, j) {
        RowKind::Arg => Meaning::Argument(j),
        RowKind::Parent => Meaning::Parent(j),
        RowKind::Sibling => Meaning::Sibling(j),
        _ => outside(included(tree, rows, &sought), Meaning::Native(j)),
    }
}

// What a call of the name x, which stands at `at`, with a arguments means.
pub fn call(tree: &[u8], rows: &[u64], x: &[u8], at: usize, a: usize) -> Meaning
    requires { Viewed tree.now rows.now × (length x.now < 65536) × (at < 2 ^ 32) × (a < 65536) }
    ensures { Means tree.now rows.now x.now at a (numbers result) }
{
    match colons(x) {
        Some(c) => call_mod(tree, rows, x, c, at, a),
        None => local(tree, rows, x, at, a),
    }
}

// The length of the record of a call with a arguments.
pub fn call_width(f: Meaning, a: usize) -> usize
    requires { a < 65536 }
    ensures { result ≡ call_width (numbers f).kind a }
{
    match f {
        Meaning::NoFilter { .. } | Meaning::NoModule { .. } => 3,
        Meaning::Argument(_) => 5,
        Meaning::Native(_) => 7 + 3 * a,
        Meaning::Parent(_) | Meaning::Sibling(_) | Meaning::Outer(_) => 10 + 3 * a,
    }
}
