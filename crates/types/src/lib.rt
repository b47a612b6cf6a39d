// The known types of document 01's table as a constant array, a line each, and their look-up.
//
// One public function, `find_type`. It takes any numbers and refuses nothing: a row that is no type's, and a
// type that is not listed there, are answered as such. The column of needs stands in the crate musts.
//
// Types have places, 0 to 25, in the order of the array; the types of one row stand together. A row is named
// by the place of the type whose value it is, and the message itself by 26.
#![tactic(auto)]

ghost use Rattle.std.specs.Prelude.{◌≡◌, ◌&&◌, ◌-◌, ◌≤◌, ◌<◌, eqb};
ghost use Rattle.types.specs.Places.{known_at, line_at, place_in, type_under};
ghost use Rattle.types.specs.Columns.{found, listed, place_of};

// The row that is the whole message.
pub const TOP_LEVEL: usize = 26;

// The lengths that a value may have.
#[derive(Clone, Copy)]
pub enum Length {
    // The value is a row of elements.
    Row,
    // So many bytes.
    Bytes(usize),
    // No byte, or so many.
    NoneOr(usize),
    // So many bytes or more.
    OrMore(usize),
}

// The values that are allowed.
#[derive(Clone, Copy)]
pub enum Values {
    // Every value.
    Any,
    // Every number but 0.
    NotZero,
    // A channel's frequency: a multiple of 62,500, from 62,500 to 1,000,000,000.
    Channel,
}

// What the table says of one type.
#[derive(Clone, Copy)]
pub struct Known {
    pub place: usize,
    pub length: Length,
    pub repeats: bool,
    pub values: Values,
    // How many entries its list takes: elements where it repeats, else bytes of its value.
    pub room: u8,
    // Which of its row's lists it is counted in.
    pub list: usize,
}

// A line of the table: a type, the row that it stands in, and what the table says of it.
#[derive(Clone, Copy)]
struct TypeLine {
    kind: u8,
    parent: usize,
    known: Known,
}

// The rows: the places of the five types whose value is a row.
// Kept: a row is a number, since `find_type` and `lacks_must` take any number, and answer of one that names no row, too.
const CLASSIFIER: usize = 0;

const IP_PART: usize = 5;

const RULE: usize = 1;

const CLIENT_IDS: usize = 14;

const CONFIGURATION: usize = 2;

const REPEATS: bool = true;

const ONCE: bool = false;

// The room of a type without a list: more than a value can have bytes.
const NO_LIST: u8 = 255;

// A line of the table: the place, the row, the type, its length, its repeat mark, the values that are allowed, and the
// room and the number of its list.
macro_rules! line {
    ($place:expr => $parent:expr, $kind:expr, $length:expr, $repeats:expr, $values:expr, $room:expr, $list:expr) => {
        TypeLine {
            kind: $kind,
            parent: $parent,
            known: Known {
                place: $place,
                length: $length,
                repeats: $repeats,
                values: $values,
                room: $room,
                list: $list,
            },
        }
    };
}

// The table.
static TYPES: [TypeLine; 26] = [
    line!(0 => TOP_LEVEL, 23, Length::Row, REPEATS, Values::Any, 32, 0), // 23
    line!(1 => TOP_LEVEL, 50, Length::Row, REPEATS, Values::Any, 32, 1), // 50
    line!(2 => TOP_LEVEL, 51, Length::Row, ONCE, Values::Any, NO_LIST, 2), // 51
    line!(3 => CLASSIFIER, 2, Length::Bytes(2), ONCE, Values::NotZero, NO_LIST, 0), // 23.2
    line!(4 => CLASSIFIER, 5, Length::Bytes(1), ONCE, Values::Any, NO_LIST, 1), // 23.5
    line!(5 => CLASSIFIER, 9, Length::Row, ONCE, Values::Any, NO_LIST, 2), // 23.9
    line!(6 => IP_PART, 3, Length::Bytes(4), ONCE, Values::Any, NO_LIST, 0), // 23.9.3
    line!(7 => IP_PART, 4, Length::Bytes(4), ONCE, Values::Any, NO_LIST, 1), // 23.9.4
    line!(8 => IP_PART, 5, Length::Bytes(4), ONCE, Values::Any, NO_LIST, 2), // 23.9.5
    line!(9 => IP_PART, 9, Length::Bytes(2), ONCE, Values::Any, NO_LIST, 3), // 23.9.9
    line!(10 => IP_PART, 10, Length::Bytes(2), ONCE, Values::Any, NO_LIST, 4), // 23.9.10
    line!(11 => RULE, 1, Length::Bytes(1), ONCE, Values::Any, NO_LIST, 0), // 50.1
    line!(12 => RULE, 2, Length::Bytes(1), ONCE, Values::Any, NO_LIST, 1), // 50.2
    line!(13 => RULE, 3, Length::OrMore(1), ONCE, Values::Any, 16, 2), // 50.3
    line!(14 => RULE, 4, Length::Row, ONCE, Values::Any, NO_LIST, 3), // 50.4
    line!(15 => RULE, 5, Length::Bytes(6), ONCE, Values::Any, NO_LIST, 4), // 50.5
    line!(16 => RULE, 6, Length::Bytes(2), REPEATS, Values::NotZero, 8, 5), // 50.6
    line!(17 => CLIENT_IDS, 1, Length::NoneOr(2), REPEATS, Values::NotZero, 8, 0), // 50.4.1
    line!(18 => CLIENT_IDS, 2, Length::Bytes(6), REPEATS, Values::Any, 8, 0), // 50.4.2
    line!(19 => CLIENT_IDS, 3, Length::Bytes(2), REPEATS, Values::Any, 8, 0), // 50.4.3
    line!(20 => CLIENT_IDS, 4, Length::Bytes(2), REPEATS, Values::Any, 8, 0), // 50.4.4
    line!(21 => CONFIGURATION, 1, Length::Bytes(4), REPEATS, Values::Channel, 32, 0), // 51.1
    line!(22 => CONFIGURATION, 2, Length::Bytes(2), ONCE, Values::NotZero, NO_LIST, 1), // 51.2
    line!(23 => CONFIGURATION, 3, Length::Bytes(2), ONCE, Values::NotZero, NO_LIST, 2), // 51.3
    line!(24 => CONFIGURATION, 4, Length::Bytes(2), ONCE, Values::Any, NO_LIST, 3), // 51.4
    line!(25 => CONFIGURATION, 5, Length::Bytes(2), ONCE, Values::Any, NO_LIST, 4), // 51.5
];

// Whether the type at a place is `kind` in the row `parent`.
fn stands_at(place: usize, parent: usize, kind: u8) -> bool
    requires { place < 26 }
    ensures { result ≡ (eqb (line_at place).parent parent && eqb (line_at place).kind kind) }
{
    TYPES[place].parent == parent && TYPES[place].kind == kind
}

// The first place of the type `kind` in the row `parent` among those from `from` to before `after`.
fn place_between(from: usize, after: usize, parent: usize, kind: u8) -> Option<usize>
    requires { (from ≤ after) × (after ≤ 26) }
    ensures { result ≡ place_of (place_in from (after - from) parent kind) }
{
    for place in from..after {
        if stands_at(place, parent, kind) {
            return Some(place);
        }
    }
    None
}

// Where the type `kind` stands in the row `parent`. Only that row's few places are looked through.
fn find_place(parent: usize, kind: u8) -> Option<usize>
    ensures { result ≡ place_of (place_in 0 26 parent kind) }
{
    match parent {
        TOP_LEVEL => place_between(0, 3, TOP_LEVEL, kind),
        CLASSIFIER => place_between(3, 6, CLASSIFIER, kind),
        IP_PART => place_between(6, 11, IP_PART, kind),
        RULE => place_between(11, 17, RULE, kind),
        CLIENT_IDS => place_between(17, 21, CLIENT_IDS, kind),
        CONFIGURATION => place_between(21, 26, CONFIGURATION, kind),
        _ => None,
    }
}

// What the table says of the type at a place.
fn known_at(place: usize) -> Known
    requires { place < 26 }
    ensures { result ≡ known_at place }
{
    TYPES[place].known
}

// What the table says of the type `kind` in the row `parent`, if it is listed there.
pub fn find_type(parent: usize, kind: u8) -> Option<Known>
    ensures { found result ≡ found (listed (type_under parent kind)) }
{
    let place = find_place(parent, kind)?;
    Some(known_at(place))
}
