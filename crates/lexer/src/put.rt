// The rooms of tokens and of errors, and the fields that are put into them.
ghost use Rattle.std.specs.Prelude.{◌≡◌, [], ◌∷◌, ◌+◌, ◌*◌, ◌^◌, ◌≤◌, ◌<◌, length};
ghost use Rattle.lexer.specs.Token.{one, leaf, char};
ghost use Rattle.lexer.specs.Lex.{text};
ghost use Rattle.lexer.specs.Listing.{pair, error_tag, tokens_bytes};
ghost use Rattle.lexer.specs.Meets.{expect_of, Opened, Put, Puts, Erred, Leaves, Encloses, tag_of};

use crate::token::Tag;

// What was expected where something else stands, as "Digit" or "Delim also its opener byte".
#[derive(Clone, Copy)]
pub enum Expected {
    Digit,
    Ident,
    Closer(u8),
    Escape,
    Unicode,
    Any,
}

impl Expected {
    #[tactic(auto, unfolding(crate::specs::Listing::error_tag))]
    fn tag(self) -> u8
        ensures { result ≡ error_tag (expect_of self) }
    {
        match self {
            Expected::Digit => 0x20,
            Expected::Ident => 0x21,
            Expected::Closer(_) => 0x22,
            Expected::Escape => 0x23,
            Expected::Unicode => 0x24,
            Expected::Any => 0x25,
        }
    }
}

// Room that is lent for a listing, and the offset where the listing goes on. The offset counts on behind the room's end, so
// that over a room that is too short, or empty, the same code counts.
#[derive(Drop)]
pub struct Room<'a> {
    pub bytes: &'a mut [u8],
    pub next: usize,
}

impl<'a> Room<'a> {
    // A room in which a listing opens with its edition.
    pub fn new(bytes: &'a mut [u8]) -> Room<'a>
        ensures same { result.bytes.ghost_name ≡ bytes.entry.ghost_name }
        ensures opened { Opened bytes.old result }
    {
        let mut room = Room { bytes, next: 0 };
        room.put(&[0, 1, 0, 1]);
        room
    }

    // Puts bytes, as far as there is room for them.
    pub fn put(&mut self, bytes: &[u8])
        requires { self.old.next + length bytes.now < 2 ^ 64 }
        ensures { Put self.old bytes.now self.new }
    {
        self.next = fields::put(self.bytes, self.next, bytes);
    }

    // Puts a field of two numbers.
    fn put_pair(&mut self, tag: u8, a: usize, b: usize)
        requires { self.old.next + 7 < 2 ^ 64 }
        ensures { Put self.old (pair 2 tag a b) self.new }
    {
        self.next = fields::put_pair(self.bytes, self.next, tag, a, b);
    }

    // An error: something was expected at a place.
    pub fn put_error(&mut self, expected: Expected, place: usize)
        requires { self.old.next + 6 < 2 ^ 64 }
        ensures { Erred (expect_of expected) place self.old self.new }
    {
        let [low, high] = fields::number(place);
        match expected {
            Expected::Closer(opener) => self.put(&[expected.tag(), 3, 0, low, high, opener]),
            _ => self.put(&[expected.tag(), 2, 0, low, high]),
        }
    }

    // A token with its start and length.
    pub fn put_leaf(&mut self, tag: Tag, start: usize, size: usize)
        requires { self.old.next + 7 < 2 ^ 64 }
        ensures { Puts 7 self.old (tokens_bytes 2 (one (leaf (tag_of tag) start size))) self.new }
    {
        self.put_pair(tag.number(), start, size);
    }

    // A character: what is escaped has two bytes, and two more that are 0.
    pub fn put_char(&mut self, code: u16)
        requires { self.old.next + 7 < 2 ^ 64 }
        ensures { Puts 7 self.old (tokens_bytes 2 (one (char code))) self.new }
    {
        self.put_pair(0x0A, usize::from(code), 0);
    }

    // A text part, unless it is empty.
    pub fn put_text(&mut self, from: usize, to: usize)
        requires { (self.old.next + 7 < 2 ^ 64) × (from ≤ to) }
        ensures { (self.new.next + 10 * from ≤ self.old.next + 10 * to) × Put self.old (tokens_bytes 2 (text from to)) self.new }
    {
        if from < to {
            self.put_leaf(Tag::Text, from, to - from);
        }
    }

    // Leaves seven bytes for the record of a string or block, whose offset is given.
    pub fn leave(&mut self) -> usize
        requires { self.old.next + 7 < 2 ^ 64 }
        ensures { Leaves self.old result self.new }
    {
        let offset = self.next;
        self.next += 7;
        offset
    }

    // The end of a string or block, and its record, into the seven bytes that were left for that.
    pub fn enclose(&mut self, left: usize, tag: Tag, start: usize, size: usize)
        requires { (self.old.next + 3 < 2 ^ 64) × (left + 7 < 2 ^ 64) }
        ensures { Encloses (tag_of tag) left start size self.old self.new }
    {
        self.put(&[9, 0, 0]);
        fields::put_pair(self.bytes, left, tag.number(), start, size);
    }
}
