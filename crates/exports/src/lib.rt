// The entries for callers in other languages, in one static library. Each takes its input and the room that is lent for
// the listing, and gives its answer in one word: number + length * 2^8 + place * 2^40.

#![tactic(auto)]

ghost use Rattle.std.specs.Prelude.{◌≡◌, ◌<◌, ◌^◌};
ghost use Rattle.climber.specs.Climbing.{climbing};
ghost use Rattle.lexer.specs.Lexing.{lexing};
ghost use Rattle.exports.specs.Packed.{packed, Packs};

use fields::Answer;

fn pack(answer: Answer) -> u64
    requires { (answer.length < 2 ^ 32) × (answer.place < 2 ^ 24) }
    ensures { result ≡ packed answer }
{
    // Kept: `as`, since there is no `From` of a usize for u64.
    let length = answer.length as u64;
    let place = answer.place as u64;
    u64::from(answer.number) + length * 256 + place * 1099511627776
}

// Kept: two functions of one shape, since C calls each by its name.

#[unsafe(no_mangle)]
pub extern "C" fn filter_climb(row: &[u8], out: &mut [u8]) -> u64
    ensures { Packs (climbing row.now) out.old out.new result }
{
    pack(Answer::from(climber::climb(row, out)))
}

#[unsafe(no_mangle)]
pub extern "C" fn filter_lex(source: &[u8], out: &mut [u8]) -> u64
    ensures { Packs (lexing source.now) out.old out.new result }
{
    pack(Answer::from(lexer::lex(source, out)))
}
