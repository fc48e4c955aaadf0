// A name that is looked for, by what rows keep of theirs: its word, and its class, length and arity.
ghost use Rattle.std.specs.Prelude.{◌≡◌, ◌*◌, ◌/◌, ◌%◌, ◌<◌, length};
ghost use Rattle.reads.specs.Bytes.{word_of};
ghost use Rattle.cells.specs.Cells.{key_of};
ghost use Rattle.cells.specs.Classes.{class_number};

use cells::Class;

#[derive(Clone, Copy)]
pub struct Sought<'a> {
    pub name: &'a [u8],
    pub word: u64,
    pub key: u64,
    ghost short: { length name.now < 65536 },
    ghost by_word: { word ≡ word_of name.now },
    ghost by_key: { key ≡ key_of (key % 4) (length name.now) (key / 262144) },
}

impl<'a> Sought<'a> {
    // The name of a variable, a label, or a filter with a arguments.
    pub fn new(name: &'a [u8], class: Class, a: usize) -> Self
        requires { (length name.now < 65536) × (a < 65536) }
        ensures { (result.name.now ≡ name.now) × (result.key ≡ key_of (class_number class) (length name.now) a) }
    {
        Sought {
            name,
            word: reads::bytes::word(name),
            key: cells::key(class, name.len(), a),
        }
    }
}
