// Precedence climbing, as in prec_climb.rs: which operands does each operator of a row take? The Rust builds a tree from
// the operands that it is handed; here the operands are numbers, and the answer is the first and the last one of each
// operator. For 1 + 2 * 3 - 4, the operands being 0 to 3: `+` takes 0 to 2, `*` takes 1 to 2, `-` takes 0 to 3.

#![tactic(auto)]

ghost use Rattle.std.specs.Prelude.{◌≡◌, ℕ, ◌+◌, ◌-◌, ◌*◌, ◌/◌, ◌≤◌, ◌<◌, ◌^◌, length, MatchResult};
ghost use Rattle.fields.specs.Outcome.{Answers};
ghost use Rattle.fields.specs.Refusals.{answer_of};
ghost use Rattle.climber.specs.Row.{count};
ghost use Rattle.climber.specs.Climbing.{formed, climbing};
ghost use Rattle.climber.specs.Climb.{least, tight, climbed, Formed, Starts, Climbs, Refused, Listed};

use fields::{Listing, Refusal};

// The most bytes of any input, and the most operators of a row.
const MOST_BYTES: usize = 32768;

const MOST_OPERATORS: usize = 1024;

// Do the bytes come in twos, each second one a side?
fn formed(bytes: &[u8]) -> bool
    ensures { result ≡ formed bytes.now }
{
    let (operators, odd) = bytes.as_chunks::<2>();
    odd.is_empty() && operators.iter().all(|operator| operator[1] <= 1)
}

// A row of operators that may be climbed: two bytes for each, its precedence and its side.
#[derive(Clone, Copy)]
struct Row<'a> {
    bytes: &'a [u8],
    ghost formed: { Formed bytes.now },
    ghost few: { length bytes.now ≤ 2048 },
}

impl<'a> Row<'a> {
    fn new(bytes: &'a [u8]) -> Result<Self, Refusal>
        ensures { MatchResult result (λ row. (row.bytes.now ≡ bytes.now) × Listed row.bytes.now) (Refused bytes.now) }
    {
        if bytes.len() > MOST_BYTES {
            return Err(Refusal::TooLong);
        }
        if !formed(bytes) {
            return Err(Refusal::NotWellFormed(0));
        }
        if bytes.len() / 2 > MOST_OPERATORS {
            return Err(Refusal::TooManyOperators);
        }
        Ok(Row { bytes })
    }

    fn count(self) -> usize
        ensures { result ≡ count self.entry.bytes.now }
    {
        self.bytes.len() / 2
    }

    // Kept: `2 * i`, and no slice of pairs, since the definitions read the flat row.
    // Is there an operator i, and is it at least min tight?
    fn tight(self, i: usize, min: usize) -> bool
        requires { i ≤ count self.bytes.now }
        ensures { result ≡ tight self.entry.bytes.now i min }
    {
        i < self.count() && min <= usize::from(self.bytes[2 * i])
    }

    // The least precedence that the row of operator i may hold.
    fn least(self, i: usize) -> usize
        requires { i < count self.bytes.now }
        ensures { result ≡ least self.entry.bytes.now i }
    {
        let precedence = usize::from(self.bytes[2 * i]);
        let side = usize::from(self.bytes[2 * i + 1]);
        precedence + (1 - side)
    }
}

// Puts the operators from `from` on that are each at least min tight. Operand `from` is the leftmost one of those of them
// that stand in no other's row. Gives the first operator behind them.
fn climb1(row: Row, from: usize, min: usize, out: &mut [u8]) -> usize
    requires { (from ≤ count row.bytes.now) × (4 + 7 * count row.bytes.now ≤ length out.old) × Starts row.bytes.now from (climbed row.bytes.now min from) }
    ensures { Climbs row.entry.bytes.now from min result out.old out.new }
{
    let mut i = from;
    // Kept: a turn steps over the operator's whole row, whose end is known only when the call for that row returns.
    while row.tight(i, min) {
        let least = row.least(i);
        let next = if row.tight(i + 1, least) {
            climb1(row, i + 1, least, out)
        } else {
            i + 1
        };
        fields::store_pair(out, 4 + 7 * i, 0x0B, from, next);
        i = next;
    }
    i
}

// The operands of each operator of a row, listed in out.
pub fn climb(row: &[u8], out: &mut [u8]) -> Result<Listing, Refusal>
    ensures { Answers (climbing row.now) out.old out.new (answer_of result) }
{
    let row = Row::new(row)?;
    let length = 4 + 7 * row.count();
    if length > out.len() {
        return Err(Refusal::NoRoom);
    }
    fields::put(out, 0, b"\x00\x01\x00\x01");
    climb1(row, 0, 0, out);
    Ok(Listing::Due(length))
}
