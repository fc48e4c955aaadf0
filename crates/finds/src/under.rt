// How long the own record of a term with definitions is: that of the term that they are for, and for a name by what it means.
ghost use Rattle.std.specs.Prelude.{◌≡◌, ℕ, ◌+◌, ◌*◌, ◌≤◌, ◌<◌, length, get_or};
ghost use Rattle.tree.specs.Rose.{Roses, rnil, rcons, end_of, Row};
ghost use Rattle.tree.specs.Tree.{Term, Defs, Def};
ghost use Rattle.tree.specs.Form.{f_term, f_defs};
ghost use Rattle.reads.specs.Bytes.{TermAt, DefAt};
ghost use Rattle.cells.specs.Classes.{class_number};
ghost use Rattle.finds.specs.Asks.{Viewed};
ghost use Rattle.finds.specs.Under.{body_of, def_fits, declared_by};
ghost use Rattle.finds.specs.Wide.{WidthAt, WidthUnder, WidthNamed, Stands, Defines, Owns};

use crate::{call, call_width, find};
use cells::Class;
use reads::bytes::{end_of, fields, is_text, members};
use reads::{bytes, width};

fn named_width(b: &[u8], p: usize, rows: &[u64], class: Class) -> usize
    requires { Viewed b.now rows.now × (length b.now ≤ 32768) × (end_of b.now p ≤ length b.now) × (class_number class < 2) }
    ensures { (WidthNamed b.now rows.now p (class_number class) result) × (result ≤ 5) }
{
    let z = end_of(b, p);
    match find(b, rows, &b[p + 3..z], class) {
        Some(_) => 5,
        None => 3,
    }
}

// The term that the definitions of p are for: past them, and past those that it has itself.
fn body_of(b: &[u8], p: usize) -> usize
    requires { (t : Term) × TermAt b.now t p }
    ensures { ((t : Term) → TermAt b.now t p → TermAt b.now (body_of t) result) × (p ≤ result) × (end_of b.now result ≤ end_of b.now p) }
{
    let mut q = p;
    // Kept: what ends the walk is the tag at its place, and no count or end of fields.
    while b[q] == 0xA9 {
        q = bytes::after_defs(b, q + 3);
    }
    q
}

// Whether the definition at p has the name x and a parameters.
fn is_def(b: &[u8], p: usize, x: &[u8], a: usize) -> bool
    requires { (d : Def) × DefAt b.now d p }
    ensures { (d : Def) → DefAt b.now d p → result ≡ def_fits d x.now a }
{
    is_text(b, p + 3, x) && bytes::params(b, end_of(b, p + 3)).a == a
}

// Whether a definition from q on is such a one; the term that they are for stands behind them, up to z.
fn declares(b: &[u8], q: usize, z: usize, x: &[u8], a: usize) -> bool
    requires { (ds : Defs) × (t : Term) × Row b.now (f_defs ds (rcons (f_term t) rnil)) q z × (z ≤ length b.now) }
    ensures { (ds : Defs) (t : Term) → Row b.now (f_defs ds (rcons (f_term t) rnil)) q z → result ≡ declared_by ds x.now a }
{
    for p in fields(b, q, z) {
        if b[p] != 0x8C {
            return false;
        }
        if is_def(b, p, x, a) {
            return true;
        }
    }
    false
}

// Whether a definition of p, or of the terms that its definitions are for, is such a one.
fn defines(b: &[u8], p: usize, x: &[u8], a: usize) -> bool
    requires { (t : Term) × TermAt b.now t p }
    ensures { Defines b.now p x.now a result }
{
    let mut q = p;
    // Kept: what ends the walk is the tag at its place, as in `body_of`.
    while b[q] == 0xA9 {
        if declares(b, q + 3, end_of(b, q), x, a) {
            return true;
        }
        q = bytes::after_defs(b, q + 3);
    }
    false
}

// Whether the definitions of p are meant by a call of x; by one with `::` they are not.
fn is_own(b: &[u8], p: usize, x: &[u8], a: usize) -> bool
    requires { (t : Term) × TermAt b.now t p }
    ensures { Owns b.now p x.now a result }
{
    match bytes::colons(x) {
        Some(_) => false,
        None => defines(b, p, x, a),
    }
}

// The own record of the call at q, which the definitions of p are for: whichever of them it means, it is a call of a definition.
fn called_width(b: &[u8], p: usize, q: usize, rows: &[u64]) -> usize
    requires { Viewed b.now rows.now × (length b.now ≤ 32768) × Stands b.now p q × (get_or b.now q 0 ≡ 0xA8) }
    ensures { (WidthUnder b.now rows.now p q result) × (result + q ≤ end_of b.now q + 8) }
{
    let z = end_of(b, q + 3);
    let a = members(b, z, end_of(b, q));
    let x = &b[q + 6..z];
    if is_own(b, p, x, a) {
        return 10 + 3 * a;
    }
    call_width(call(b, rows, x, q + 6, a), a)
}

// The own record of the term at q, which the definitions of p are for.
fn own_width(b: &[u8], p: usize, q: usize, rows: &[u64]) -> usize
    requires { Viewed b.now rows.now × (length b.now ≤ 32768) × Stands b.now p q × ((get_or b.now q 0 ≡ 0xA9) → ⊥) }
    ensures { (WidthUnder b.now rows.now p q result) × (result + 2 * q ≤ 2 * end_of b.now q + 8) }
{
    let tag = b[q];
    // Kept: a `match` on the tag, as the forms of terms take different parameters.
    match tag {
        0xA0 | 0xA1 => 3,
        0xA2 | 0xA3 | 0xA4 => 5,
        0xA5 => named_width(b, q, rows, Class::Label),
        0xA6 => 9,
        0xA7 => named_width(b, q, rows, Class::Variable),
        0xA8 => called_width(b, p, q, rows),
        0xAA => width::num_width(b, q),
        0xAB => 7,
        0xAC => width::fold_of(b, q).w,
        0xAD => width::binary_width(b, q),
        0xAE => width::path_width(b, q),
        0xAF => width::quoted_width(b, q),
        _ => width::entries_width(b, q + 3, end_of(b, q)),
    }
}

// The own record of the term at p, which has definitions.
pub fn def_width(b: &[u8], p: usize, rows: &[u64]) -> usize
    requires { Viewed b.now rows.now × (length b.now ≤ 32768) × ((t : Term) × TermAt b.now t p) }
    ensures { (WidthAt b.now rows.now p result) × (result + 2 * p ≤ 2 * end_of b.now p + 8) }
{
    own_width(b, p, body_of(b, p), rows)
}
