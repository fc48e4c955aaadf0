// Replays a recorded sample of the Rust's answers, so that the crates are tried against the Rust where no Rust is at hand.
// Standard input holds the sample: case after case, and a zero byte in the place of an entry at its very end. (Samples are
// joined by leaving out the zero of each but the last.) A case is an input and a room's length, and the answer and the listing
// that the Rust gives. The entry is called on that input, in a room filled with a pattern, and all that it gives and leaves is
// compared with what is recorded.
// Printed are the cases and the mismatches of each entry, and whether the sample is whole, or where it breaks: the place of a
// case that is cut short, has an unknown entry or asks for a longer room than there is, or of an end with bytes behind it.
// Proved is, beside that nothing is read past the sample's end: where no mismatch is counted, each recorded case is what the
// definition of its entry gives (`replay`), and a case that is counted as a mismatch is not (`holds`).

#![tactic(auto)]

ghost use Rattle.std.specs.Prelude.{◌≡◌, ℕ, ◌+◌, ◌≤◌, ◌<◌, ◌^◌, length, IfOk, IfSome, MatchOption};
ghost use Rattle.fields.specs.Outcome.{Answers};
ghost use Rattle.replay.specs.Case.{NumberFirst, CaseFirst};
ghost use Rattle.replay.specs.Lent.{pattern_at, Patterned, Untouched, Left, Tells};
ghost use Rattle.replay.specs.Replay.{byte_of, outcome, Unnamed, HoldsAs};
ghost use Rattle.replay.specs.Count.{Few, CanGrow, Counted, OneMore, Turned, Faultless, Held, Ended};

use fields::Answer;
use std::io::Read;
use std::{fmt, io};

// The entries that a sample may name. Each has a line in `named`, `call`, `Tallies`, its `new` and `count`, and `print_tallies`, and in
// `byte_of`, `Unnamed` and `outcome` (specs/Replay.antt), `Few`, `Faultless` and `Counted` (specs/Count.antt).
#[derive(Clone, Copy, Debug, PartialEq, Eq)]
enum Entry {
    Climb,
    Lex,
}

impl Entry {
    fn named(byte: u8) -> Option<Entry>
        ensures { MatchOption result (Unnamed byte) (λ entry. byte_of entry ≡ byte) }
    {
        match byte {
            1 => Some(Entry::Climb),
            2 => Some(Entry::Lex),
            _ => None,
        }
    }

    fn call(self, input: &[u8], room: &mut [u8]) -> Answer
        ensures { Answers (outcome (byte_of self) input.now) room.old room.new result }
    {
        match self {
            Entry::Climb => Answer::from(climber::climb(input, room)),
            Entry::Lex => Answer::from(lexer::lex(input, room)),
        }
    }
}

fn pattern(i: usize) -> u8
    ensures { result ≡ pattern_at i }
{
    (i % 251) as u8
}

// The pattern's byte behind this one. A room is gone over with this, and no remainder computed for each of its bytes.
fn next(byte: u8) -> u8
    ensures { (i : ℕ) → byte ≡ pattern_at i → result ≡ pattern_at (i + 1) }
{
    if byte < 250 { byte + 1 } else { 0 }
}

fn fill(room: &mut [u8])
    ensures { Patterned room.new }
{
    let mut due = pattern(0);
    for byte in room.iter_mut() {
        *byte = due;
        due = next(due);
    }
}

// Does the pattern stand in these bytes, the first of which is byte number `from` of a room?
fn untouched(bytes: &[u8], from: usize) -> bool
    ensures { Tells result (Untouched bytes.now from) }
{
    let mut due = pattern(from);
    for byte in bytes {
        if *byte != due {
            return false;
        }
        due = next(due);
    }
    true
}

// Does the room hold the listing, and past it the pattern still?
fn left(room: &[u8], listing: &[u8]) -> bool
    ensures { Tells result (Left room.now listing.now) }
{
    let n = listing.len();
    if room.len() < n {
        return false;
    }
    if &room[..n] == listing {
        return untouched(&room[n..], n);
    }
    false
}

// A recorded case, in its parts.
#[derive(Clone, Copy)]
struct Case<'a> {
    entry: u8,
    input: &'a [u8],
    // The length of the room that is lent.
    lent: usize,
    answer: Answer,
    listing: &'a [u8],
}

impl Case<'_> {
    // Does the entry give what is recorded, in a room as long as the case says?
    fn holds(self, entry: Entry, room: &mut [u8]) -> bool
        requires { (length room.old ≡ self.lent) × (length self.listing.now ≡ self.answer.length) }
        ensures { Tells result (HoldsAs (outcome (byte_of entry) self.entry.input.now) self.entry.lent self.entry.answer self.entry.listing.now) }
    {
        fill(room);
        let answer = entry.call(self.input, room);
        answer == self.answer && left(room, self.listing)
    }
}

// The number in the first four bytes, and the bytes behind them.
fn split_number(bytes: &[u8]) -> Option<(usize, &[u8])>
    ensures { IfSome result (λ p. NumberFirst bytes.now p.0 p.1.now) }
{
    let (number, rest) = bytes.split_first_chunk::<4>()?;
    // Kept: `as`, since there is no `From` of a u32 for usize.
    Some((u32::from_le_bytes(*number) as usize, rest))
}

// The whole case that the bytes begin with, and the bytes behind it.
fn split_case(bytes: &[u8]) -> Option<(Case<'_>, &[u8])>
    ensures { IfSome result (λ p. CaseFirst bytes.now p.0 p.1.now) }
{
    let (entry, rest) = bytes.split_first()?;
    let (long, rest) = split_number(rest)?;
    let (input, rest) = rest.split_at_checked(long)?;
    let (lent, rest) = split_number(rest)?;
    let (number, rest) = rest.split_first()?;
    let (length, rest) = split_number(rest)?;
    let (place, rest) = split_number(rest)?;
    let (listing, rest) = rest.split_at_checked(length)?;
    let answer = Answer {
        number: *number,
        length,
        place,
    };
    let case = Case {
        entry: *entry,
        input,
        lent,
        answer,
        listing,
    };
    Some((case, rest))
}

// How many cases of an entry were replayed, and how many of them do not hold.
#[derive(Clone, Copy)]
struct Tally {
    cases: u64,
    mismatches: u64,
}

impl Tally {
    fn count(&mut self, held: bool)
        requires { (self.old.cases + 1 < 2 ^ 64) × (self.old.mismatches + 1 < 2 ^ 64) }
        ensures { OneMore self.old self.new held }
    {
        self.cases += 1;
        self.mismatches += u64::from(!held);
    }
}

impl fmt::Display for Tally {
    fn fmt<W: fmt::Write>(&self, f: &mut fmt::Formatter<W>) -> fmt::Result {
        write!(f, "{} cases, {} mismatches", self.cases, self.mismatches)
    }
}

#[derive(Clone, Copy)]
struct Tallies {
    climb: Tally,
    lex: Tally,
}

impl Tallies {
    fn new() -> Tallies
        ensures { Few result 0 }
    {
        let none = Tally {
            cases: 0,
            mismatches: 0,
        };
        Tallies {
            climb: none,
            lex: none,
        }
    }

    fn count(&mut self, entry: Entry, held: bool)
        requires { CanGrow self.old }
        ensures { Counted entry self.old self.new held }
    {
        match entry {
            Entry::Climb => self.climb.count(held),
            Entry::Lex => self.lex.count(held),
        }
    }
}

// Replays and counts the case that `rest` begins with, and gives what is behind it. None where there is no whole case, its
// entry is unknown, or its room longer than there is.
fn turn<'a>(rest: &'a [u8], room: &mut [u8], tallies: &mut Tallies) -> Option<&'a [u8]>
    requires { CanGrow tallies.old }
    ensures { Turned rest.now result tallies.old tallies.new }
{
    let (case, behind) = split_case(rest)?;
    let entry = Entry::named(case.entry)?;
    let lent = room.get_mut(..case.lent)?;
    tallies.count(entry, case.holds(entry, lent));
    Some(behind)
}

// Replays case after case, and gives the place behind the last: every case before it holds if no mismatch is counted.
fn replay(sample: &[u8], room: &mut [u8]) -> (Tallies, usize)
    ensures { (result.1 ≤ length sample.now) × (Faultless result.0 → Held sample.now result.1) }
{
    let mut tallies = Tallies::new();
    let mut rest = sample;
    while let Some(behind) = turn(rest, room, &mut tallies) {
        rest = behind;
    }
    (tallies, sample.len() - rest.len())
}

// Is `at` the place of the zero that ends the sample?
fn ends(sample: &[u8], at: usize) -> bool
    requires { at ≤ length sample.now }
    ensures { Tells result (Ended sample.now at) }
{
    matches!(&sample[at..], [0])
}

// A line for each entry.
fn print_tallies(rt: &impl Print, tallies: &Tallies) -> io::Result<()> {
    println!(rt; "climb: {}", tallies.climb)?;
    println!(rt; "lex: {}", tallies.lex)
}

fn print_end(rt: &impl Print, sample: &[u8], at: usize) -> io::Result<()>
    requires { at ≤ length sample.now }
{
    if ends(sample, at) {
        return println!(rt; "sample whole");
    }
    println!(rt; "sample broken at {at}")
}

fn report(rt: &impl Print, sample: &[u8], room: &mut [u8]) -> io::Result<()> {
    let (tallies, at) = replay(sample, room);
    print_tallies(rt, &tallies)?;
    print_end(rt, sample, at)
}

// Reads until `bytes` is full or the input ends, and gives how many were read.
fn read_full(input: &mut impl Read, bytes: &mut [u8]) -> io::Result<usize>
    ensures { IfOk result (λ n. n ≤ length bytes.old) }
{
    let mut n = 0;
    // Kept: the step is what a read gives, and `read_exact` does not say how much an input that ends early had.
    while n < bytes.len() {
        let more = input.read(&mut bytes[n..])?;
        if more == 0 {
            return Ok(n);
        }
        n += more;
    }
    Ok(n)
}

// At most 524,288 bytes are read: a longer sample is cut there.
fn run(
    rt: &impl Print,
    input: &mut impl Read,
    sample: &mut [u8; 524288],
    room: &mut [u8; 131072],
) -> io::Result<()> {
    let n = read_full(input, sample)?;
    report(rt, &sample[..n], room)
}

fn main(rt: HostRuntime) -> io::Result<()> {
    let mut sample = [0u8; 524288];
    let mut room = [0u8; 131072];
    run(&rt, &mut rt.stdin(), &mut sample, &mut room)
}
