// The classes of bytes. Each is a few comparisons, the commonest bytes first, or a table.
ghost use Rattle.std.specs.Prelude.{◌≡◌};
ghost use Rattle.lexer.specs.Word.{letter, digit, word_byte};
ghost use Rattle.lexer.specs.Sym.{operator, follows};
ghost use Rattle.lexer.specs.Kind.{kind};
ghost use Rattle.lexer.specs.Meets.{tag_at};

use crate::token::Tag;

// [a-zA-Z_]
#[tactic(auto, unfolding(crate::specs::Word::letter))]
pub fn letter(b: u8) -> bool
    ensures { result ≡ letter b }
{
    if b >= b'a' {
        b <= b'z'
    } else if b >= b'A' {
        b <= b'Z' || b == b'_'
    } else {
        false
    }
}

// [0-9]
pub fn digit(b: u8) -> bool
    ensures { result ≡ digit b }
{
    b.is_ascii_digit()
}

// [a-zA-Z0-9_]
#[tactic(auto, unfolding(crate::specs::Word::word_byte))]
pub fn word_byte(b: u8) -> bool
    ensures { result ≡ word_byte b }
{
    letter(b) || digit(b)
}

// One of `|=!<>+*/%`. No arm has bytes that are neighbours, here and in `kind`: a run of these is tested by its ends, and all arms by one
// comparison after the other, where arms of single bytes become one table. Sources of short symbols took up to 1.8 times as long so.
#[tactic(auto, unfolding(crate::specs::Sym::follows, crate::specs::Sym::operator))]
pub fn follows(b: u8) -> bool
    ensures { result ≡ follows b }
{
    match b {
        b'|' | b'=' | b'/' | b'+' | b'!' | b'%' => true,
        b'*' | b'<' | b'>' => true,
        _ => false,
    }
}

// One of `|=!<>+-*/%`.
#[tactic(auto, unfolding(crate::specs::Sym::follows, crate::specs::Sym::operator))]
pub fn operator(b: u8) -> bool
    ensures { result ≡ operator b }
{
    b == b'-' || follows(b)
}

// The tag of the token that starts with the byte, if one does.
#[tactic(auto, unfolding(crate::specs::Kind::kind, crate::specs::Word::letter, crate::specs::Word::digit, crate::specs::Sym::operator))]
pub fn kind(b: u8) -> Option<Tag>
    ensures { tag_at result ≡ kind b }
{
    if letter(b) {
        return Some(Tag::Word);
    }
    if digit(b) {
        return Some(Tag::Num);
    }
    match b {
        b'.' | b',' | b':' | b'?' => Some(Tag::Sym),
        b'|' | b'=' | b'/' | b'+' | b'!' | b'%' | b';' => Some(Tag::Sym),
        b'*' | b'<' | b'>' | b'-' => Some(Tag::Sym),
        b'(' | b'[' | b'{' => Some(Tag::Block),
        b'"' => Some(Tag::Str),
        b'$' => Some(Tag::Var),
        b'@' => Some(Tag::Fmt),
        _ => None,
    }
}
