// The tables of the tree form, and their readers. tools/tree_table.py writes them, here and in specs/Table.antt: of each byte its class, of each byte its
// content, the rows of items.
ghost use Rattle.std.specs.Prelude.{◌≡◌, ◌<◌, ◌/◌, ◌%◌, eqb, get_or};
ghost use Rattle.tree.specs.Table.{items};
ghost use Rattle.tree.specs.Leaf.{class, shape};
ghost use Rattle.tree.specs.Shapes.{IsShape, is_row, leaf_of, number_of_mode};

// In one static, so that one address does for all three: with three, the loop over all headers had too few registers.
struct Tables {
    classes: [u8; 256],
    shapes: [u8; 256],
    items: [u8; 106],
}

static TABLES: Tables = Tables {
    classes: [
        31, 31, 31, 31, 31, 31, 31, 31, 31, 31, 31, 31, 31, 31, 31, 31, 31, 31, 31, 31, 31, 31, 31,
        31, 31, 31, 31, 31, 31, 31, 31, 31, 31, 31, 31, 31, 31, 31, 31, 31, 31, 31, 31, 31, 31, 31,
        31, 31, 31, 31, 31, 31, 31, 31, 31, 31, 31, 31, 31, 31, 31, 31, 31, 31, 31, 31, 31, 31, 31,
        31, 31, 31, 31, 31, 31, 31, 31, 31, 31, 31, 31, 31, 31, 31, 31, 31, 31, 31, 31, 31, 31, 31,
        31, 31, 31, 31, 31, 31, 31, 31, 31, 31, 31, 31, 31, 31, 31, 31, 31, 31, 31, 31, 31, 31, 31,
        31, 31, 31, 31, 31, 31, 31, 31, 31, 31, 31, 31, 31, 1, 2, 3, 4, 5, 6, 7, 8, 9, 10, 11, 31,
        12, 13, 31, 31, 14, 15, 31, 31, 31, 31, 31, 31, 16, 16, 16, 17, 31, 31, 31, 31, 18, 18, 18,
        18, 18, 18, 18, 18, 18, 18, 18, 18, 18, 18, 18, 18, 18, 31, 31, 31, 31, 31, 31, 19, 20, 19,
        21, 22, 22, 23, 24, 24, 25, 26, 27, 31, 31, 31, 31, 31, 31, 31, 31, 31, 31, 31, 31, 31, 31,
        31, 31, 31, 31, 31, 31, 31, 31, 31, 31, 31, 31, 31, 31, 31, 31, 31, 31, 31, 31, 31, 31, 31,
        31, 31, 31, 31, 31, 31, 31, 31, 31, 31, 31, 31, 31, 31, 31, 31, 31, 31, 31, 31, 31, 31, 31,
        31,
    ],
    shapes: [
        255, 255, 255, 255, 255, 255, 255, 255, 255, 255, 255, 255, 255, 255, 255, 255, 255, 255,
        255, 255, 255, 255, 255, 255, 255, 255, 255, 255, 255, 255, 255, 255, 255, 255, 255, 255,
        255, 255, 255, 255, 255, 255, 255, 255, 255, 255, 255, 255, 255, 255, 255, 255, 255, 255,
        255, 255, 255, 255, 255, 255, 255, 255, 255, 255, 255, 255, 255, 255, 255, 255, 255, 255,
        255, 255, 255, 255, 255, 255, 255, 255, 255, 255, 255, 255, 255, 255, 255, 255, 255, 255,
        255, 255, 255, 255, 255, 255, 255, 255, 255, 255, 255, 255, 255, 255, 255, 255, 255, 255,
        255, 255, 255, 255, 255, 255, 255, 255, 255, 255, 255, 255, 255, 255, 255, 255, 255, 255,
        255, 255, 2, 7, 9, 11, 16, 21, 24, 26, 28, 30, 32, 255, 35, 203, 255, 255, 201, 201, 255,
        255, 255, 255, 255, 255, 202, 39, 41, 43, 255, 255, 255, 255, 46, 47, 48, 50, 52, 201, 55,
        202, 59, 62, 201, 65, 68, 73, 77, 80, 83, 255, 255, 255, 255, 255, 255, 85, 87, 204, 201,
        201, 205, 90, 93, 96, 100, 101, 103, 255, 255, 255, 255, 255, 255, 255, 255, 255, 255, 255,
        255, 255, 255, 255, 255, 255, 255, 255, 255, 255, 255, 255, 255, 255, 255, 255, 255, 255,
        255, 255, 255, 255, 255, 255, 255, 255, 255, 255, 255, 255, 255, 255, 255, 255, 255, 255,
        255, 255, 255, 255, 255, 255, 255, 255, 255, 255, 255, 255, 255, 255,
    ],
    items: [
        8, 4, 16, 25, 34, 40, 4, 54, 4, 118, 4, 56, 64, 72, 80, 4, 56, 64, 72, 144, 4, 112, 126, 4,
        94, 4, 110, 4, 118, 4, 102, 4, 104, 112, 4, 112, 122, 144, 4, 134, 4, 142, 4, 144, 128, 4,
        4, 4, 149, 4, 144, 4, 112, 144, 4, 160, 166, 149, 4, 112, 150, 4, 98, 144, 4, 144, 149, 4,
        112, 144, 128, 150, 4, 144, 152, 144, 4, 144, 198, 4, 173, 183, 4, 190, 4, 133, 4, 144,
        144, 4, 144, 149, 4, 144, 205, 4, 213, 221, 205, 4, 4, 144, 4, 144, 4, 0,
    ],
};

// The class of terms.
pub const TERM: u8 = 18;

// What the bytes of a leaf are: a text, a text that starts with `$`, two bytes, an operator's byte, a scalar value in four bytes. A byte that is no tag has
// no content that is right.
#[derive(Clone, Copy)]
pub enum Leaf {
    Text,
    Dollar,
    Two,
    Operator,
    Scalar,
    Unknown,
}

// The content of a tag: a row of members, whose items start at an index, or the bytes of a leaf.
#[derive(Clone, Copy)]
pub enum Shape {
    Row(usize),
    Bytes(Leaf),
}

impl Shape {
    pub fn is_row(self) -> bool
        ensures { result ≡ is_row self }
    {
        matches!(self, Shape::Row(_))
    }
}

// How many members of its class an item takes; `Mixed` is any number of them or of terms.
#[derive(Clone, Copy, PartialEq, Eq)]
pub enum Mode {
    One,
    Optional,
    Many,
    Mixed,
}

// An item of a row: eight times its class, four more if the row may end before it, and its mode.
#[derive(Clone, Copy)]
pub struct Item {
    pub byte: u8,
}

impl Item {
    pub fn takes(self, class: u8) -> bool
        ensures { result ≡ eqb (self.byte / 8) class }
    {
        self.byte / 8 == class
    }

    pub fn mode(self) -> Mode
        ensures { number_of_mode result ≡ self.byte % 4 }
    {
        match self.byte % 4 {
            0 => Mode::One,
            1 => Mode::Optional,
            2 => Mode::Many,
            _ => Mode::Mixed,
        }
    }

    pub fn may_end(self) -> bool
        ensures { result ≡ eqb (self.byte / 4 % 2) 1 }
    {
        self.byte / 4 % 2 == 1
    }
}

// The class of a tag.
// Kept: a class is a number, since it is compared with the items' classes in the table's data; the code names one class alone, `TERM`.
pub fn class_of(k: u8) -> u8
    ensures { (result ≡ class k) × (0 < result) }
{
    TABLES.classes[usize::from(k)]
}

// The kind of leaf that has this number in the table.
fn leaf_of(s: u8) -> Leaf
    ensures { result ≡ leaf_of s }
{
    match s {
        201 => Leaf::Text,
        202 => Leaf::Dollar,
        203 => Leaf::Two,
        204 => Leaf::Operator,
        205 => Leaf::Scalar,
        _ => Leaf::Unknown,
    }
}

// The content of a tag.
pub fn shape_of(k: u8) -> Shape
    ensures { IsShape result (shape k) }
{
    let s = TABLES.shapes[usize::from(k)];
    if s < 200 {
        return Shape::Row(usize::from(s));
    }
    Shape::Bytes(leaf_of(s))
}

// An item of the rows.
pub fn item_at(i: usize) -> Item
    requires { i < 106 }
    ensures { result.byte ≡ get_or items i 0 }
{
    Item {
        byte: TABLES.items[i],
    }
}
