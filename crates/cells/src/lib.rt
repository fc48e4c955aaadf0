// Rows of bindings, four numbers a row, in one lent slice. What a search starts from stands before them, in the cells up to the first row:
//
//   0 how many heads there are, less one   3 number of the module that is compiled   6 the cell of module 0
//   1 bindings in view                     4 place of its imports                    8 and on: the heads, the last row in view of each
//   2 definitions that enclose             5 place of its includes                     bucket, 0 for none
//
// A row in view is linked: its bucket's head leads to it or to a row that leads to it. So the rows of a bucket are visited from the innermost one
// out, and rows of other names hardly ever. Who brings rows into view takes them out of it again, and puts back the bindings and definitions: of
// the cells below row k, heads and all, a callee leaves each as it was (`take (4 * k) s' ≡ take (4 * k) s`).
//
//   number 0: the word of the name
//   number 1: class + 4 * length of the name + 2^18 * arity + 2^34 * number + 2^50 * level
//   number 2: next row of the bucket + 2^14 * head + 2^30 * place of the name's field + 2^45 * kind + 2^48 * bindings before it
//   number 3: a definition's tail set; what a note keeps
//
// Kept: the memory is one slice that a caller lends, and a callee's rows are the part behind `4 * k` of it: so a row is its index, and a cell a number. That the row lies in the slice is asked by each reader: a type that says so would be made for one read.
// Kept: `as` between usize and u64, for which there is no `From`.

#![tactic(auto)]

ghost use Rattle.std.specs.Prelude.{◌≡◌, ℕ, ◌+◌, ◌-◌, ◌*◌, ◌≤◌, ◌<◌, length, get_or, set};
ghost use Rattle.tree.specs.Rose.{end_of, text_of};
ghost use Rattle.reads.specs.Bytes.{head_of};
ghost use Rattle.cells.specs.Cells.{key_of, key_at, number_at, kind_at, level_at, link_at, head_at, place_at, before_at, last_at, class_of, pushed, bound_as, noted, unlinked, closed, Room};
ghost use Rattle.cells.specs.Kinds.{kind_number};
ghost use Rattle.cells.specs.Classes.{class_number};

use reads::bytes::{end_of, word};

// The cells before the rows.
pub const MASK: usize = 0;

pub const IN_VIEW: usize = 1;

pub const ENCLOSE: usize = 2;

pub const HOME: usize = 3;

pub const IMPORTS: usize = 4;

pub const INCLUDES: usize = 5;

pub const MODULES: usize = 6;

pub const HEADS: usize = 8;

// What each number in a row's cells is a multiple of there.
const LENGTH: u64 = 1 << 2;

const ARITY: u64 = 1 << 18;

const NUMBER: u64 = 1 << 34;

const LEVEL: u64 = 1 << 50;

const HEAD: u64 = 1 << 14;

const PLACE: u64 = 1 << 30;

const KIND: u64 = 1 << 45;

const BEFORE: u64 = 1 << 48;

// Kinds of rows. From Kept on a row is a note: no binding, but numbers that are kept until the record that they belong to is put.
#[derive(Clone, Copy)]
pub enum RowKind {
    Var,
    Label,
    Arg,
    Parent,
    Sibling,
    Native,
    Kept,
    Piece,
}

// "Only the same kind matches": a definition, a filter argument and a native are all filters, and no search is for a note.
#[derive(Clone, Copy)]
pub enum Class {
    Variable,
    Label,
    Filter,
    Note,
}

impl RowKind {
    fn class(self) -> Class
        ensures { class_number result ≡ class_of (kind_number self) }
    {
        match self {
            RowKind::Var => Class::Variable,
            RowKind::Label => Class::Label,
            _ => Class::Filter,
        }
    }
}

// What a search compares besides the word: class, length of the name, arity.
pub fn key(class: Class, len: usize, a: usize) -> u64
    requires { (len < 65536) × (a < 65536) }
    ensures { (result ≡ key_of (class_number class) len a) × (result < 17179869184) }
{
    class as u64 + LENGTH * (len as u64) + ARITY * (a as u64)
}

// The cell of the head for a name.
pub fn head_of(rows: &[u64], w: u64, len: usize) -> usize
    requires { (0 < length rows.now) × (len < 65536) }
    ensures { (result ≡ head_of (get_or rows.now 0 0) w len) × (8 ≤ result) × (result ≤ 8 + get_or rows.now 0 0) }
{
    let x = (w % 4294967296) * 2654435761;
    let y = (w / 4294967296) * 2246822519;
    HEADS + ((((x ^ y) / 137438953472 + (len as u64)) & rows[MASK]) as usize)
}

// Kept: a reader for each number of a row, of one line: a function for all of them would be called by that line.
pub fn key_at(rows: &[u64], j: usize) -> u64
    requires { 4 * j + 4 ≤ length rows.now }
    ensures { result ≡ key_at rows.now j }
{
    rows[4 * j + 1] % NUMBER
}

pub fn number(rows: &[u64], j: usize) -> usize
    requires { 4 * j + 4 ≤ length rows.now }
    ensures { result ≡ number_at rows.now j }
{
    (rows[4 * j + 1] / NUMBER % 65536) as usize
}

pub fn kind(rows: &[u64], j: usize) -> RowKind
    requires { 4 * j + 4 ≤ length rows.now }
    ensures { kind_number result ≡ kind_at rows.now j }
{
    match rows[4 * j + 2] / KIND % 8 {
        0 => RowKind::Var,
        1 => RowKind::Label,
        2 => RowKind::Arg,
        3 => RowKind::Parent,
        4 => RowKind::Sibling,
        5 => RowKind::Native,
        6 => RowKind::Kept,
        _ => RowKind::Piece,
    }
}

pub fn level(rows: &[u64], j: usize) -> u64
    requires { 4 * j + 4 ≤ length rows.now }
    ensures { result ≡ level_at rows.now j }
{
    rows[4 * j + 1] / LEVEL
}

pub fn link(rows: &[u64], j: usize) -> usize
    requires { 4 * j + 4 ≤ length rows.now }
    ensures { result ≡ link_at rows.now j }
{
    (rows[4 * j + 2] % HEAD) as usize
}

fn head(rows: &[u64], j: usize) -> usize
    requires { 4 * j + 4 ≤ length rows.now }
    ensures { result ≡ head_at rows.now j }
{
    (rows[4 * j + 2] / HEAD % 65536) as usize
}

pub fn place(rows: &[u64], j: usize) -> usize
    requires { 4 * j + 4 ≤ length rows.now }
    ensures { result ≡ place_at rows.now j }
{
    (rows[4 * j + 2] / PLACE % 32768) as usize
}

fn before(rows: &[u64], j: usize) -> u64
    requires { 4 * j + 4 ≤ length rows.now }
    ensures { result ≡ before_at rows.now j }
{
    rows[4 * j + 2] / BEFORE
}

pub fn last(rows: &[u64], j: usize) -> u64
    requires { 4 * j + 4 ≤ length rows.now }
    ensures { result ≡ last_at rows.now j }
{
    rows[4 * j + 3]
}

// "bindings pushed after the match"
pub fn index(rows: &[u64], j: usize) -> usize
    requires { (4 * j + 4 ≤ length rows.now) × (before_at rows.now j < get_or rows.now 1 0) }
    ensures { result ≡ get_or rows.now 1 0 - before_at rows.now j - 1 }
{
    (rows[IN_VIEW] - before(rows, j) - 1) as usize
}

// "the count now less the count at its definition"
pub fn skip(rows: &[u64], j: usize) -> usize
    requires { (4 * j + 4 ≤ length rows.now) × (before_at rows.now j ≤ get_or rows.now 1 0) }
    ensures { result ≡ get_or rows.now 1 0 - before_at rows.now j }
{
    (rows[IN_VIEW] - before(rows, j)) as usize
}

// What comes into view for the name whose field is at `place`, where `before` bindings and `level` definitions were.
#[derive(Clone, Copy)]
pub struct Binding {
    pub kind: RowKind,
    pub place: usize,
    pub arity: usize,
    pub number: usize,
    pub before: u64,
    pub level: u64,
    // a definition's tail set
    pub tail: u64,
}

// As row k.
pub fn push(tree: &[u8], rows: &mut [u64], k: usize, d: Binding)
    requires { Room rows.old k × (end_of tree.now d.place ≤ length tree.now) × (length tree.now ≤ 32768) × (kind_number d.kind < 6) × (d.arity < 65536) × (d.number < 65536) × (d.before < 65536) × (d.level < 16384) }
    ensures { rows.new ≡ pushed (text_of tree.now d.place) rows.old k (kind_number d.kind) d.place d.arity d.number d.before d.level d.tail }
{
    let z = end_of(tree, d.place);
    let x = &tree[d.place + 3..z];
    let w = word(x);
    let h = head_of(rows, w, x.len());
    let next = rows[h];
    rows[4 * k] = w;
    rows[4 * k + 1] = key(d.kind.class(), x.len(), d.arity)
        + (d.number as u64) * NUMBER
        + d.level * LEVEL;
    rows[4 * k + 2] = next
        + (h as u64) * HEAD
        + (d.place as u64) * PLACE
        + d.kind as u64 * KIND
        + d.before * BEFORE;
    rows[4 * k + 3] = d.tail;
    rows[h] = k as u64;
}

// A variable, label or filter argument, of number n if it is a note's: "each of these three kinds counts".
pub fn bind(tree: &[u8], rows: &mut [u64], k: usize, kind: RowKind, q: usize, n: usize)
    requires { Room rows.old k × (end_of tree.now q ≤ length tree.now) × (length tree.now ≤ 32768) × (kind_number kind < 3) × (n < 65536) × (get_or rows.old 1 0 < 65536) }
    ensures { rows.new ≡ bound_as (text_of tree.now q) rows.old k (kind_number kind) q n }
{
    let c = rows[IN_VIEW];
    let row = Binding {
        kind,
        place: q,
        arity: 0,
        number: n,
        before: c,
        level: 0,
        tail: 0,
    };
    push(tree, rows, k, row);
    rows[IN_VIEW] = c + 1;
}

// Row k keeps two numbers, out of view.
pub fn note(rows: &mut [u64], k: usize, kind: RowKind, a: usize, b: usize)
    requires { (4 * k + 4 ≤ length rows.old) × (a < 65536) }
    ensures { rows.new ≡ noted rows.old k (kind_number kind) a b }
{
    rows[4 * k + 1] = Class::Note as u64 + (a as u64) * NUMBER;
    rows[4 * k + 2] = kind as u64 * KIND;
    rows[4 * k + 3] = b as u64;
}

// Row j, the last of its bucket, leaves the view; a note is not in it.
fn unlink(rows: &mut [u64], j: usize)
    requires { (4 * j + 4 ≤ length rows.old) × (kind_at rows.old j < 6 → head_at rows.old j < length rows.old) }
    ensures { rows.new ≡ unlinked rows.old j }
{
    if let RowKind::Kept | RowKind::Piece = kind(rows, j) {
        return;
    }
    let h = head(rows, j);
    rows[h] = link(rows, j) as u64;
}

// The rows from k up to i leave the view, the last one first; c bindings are in view then.
pub fn close(rows: &mut [u64], k: usize, i: usize, c: u64)
    requires { (4 * i ≤ length rows.old) × (2 ≤ length rows.old) × (k ≤ i) × ((j : ℕ) → k ≤ j → j < i → kind_at rows.old j < 6 → (head_at rows.old j < length rows.old) × (head_at rows.old j < 4 * k)) }
    ensures { rows.new ≡ closed rows.old k i c }
{
    for j in (k..i).rev() {
        unlink(rows, j);
    }
    rows[IN_VIEW] = c;
}

// Out of it, where c bindings and l definitions were in view: its rows, from k up to i, leave the view.
pub fn leave(rows: &mut [u64], k: usize, i: usize, c: u64, l: u64)
    requires { (4 * i ≤ length rows.old) × (3 ≤ length rows.old) × (k ≤ i) × ((j : ℕ) → k ≤ j → j < i → kind_at rows.old j < 6 → (head_at rows.old j < length rows.old) × (head_at rows.old j < 4 * k)) }
    ensures { rows.new ≡ set (closed rows.old k i c) 2 l }
{
    close(rows, k, i, c);
    rows[ENCLOSE] = l;
}
