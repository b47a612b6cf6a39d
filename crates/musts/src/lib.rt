// The elements that a row must have: whether one is missing.
//
// One public function, `lacks_must`. It takes any number and any counts and refuses nothing: a number that is no
// row's lacks nothing.
//
// Types have places, 0 to 25, as in the arrays of the crate types. A row is named by the place of the type whose
// value it is, and the message itself by 26.
#![tactic(auto)]

ghost use Rattle.std.specs.Prelude.{◌≡◌, ◌&&◌, ◌+◌, ◌-◌, ◌≤◌, ◌<◌, eqb, get_or};
ghost use Rattle.types.specs.Places.{line_at};
ghost use Rattle.musts.specs.Musts.{lacks_must, lacks_in};

const MUST: bool = true;

const FREE: bool = false;

// The need.
// Kept: the column of needs by itself, since test 13 alone reads it, and the look-up of an element would carry it along.
const NEEDS: [bool; 26] = [
    FREE, // 23
    FREE, // 50
    FREE, // 51
    MUST, // 23.2
    MUST, // 23.5
    MUST, // 23.9
    FREE, // 23.9.3
    FREE, // 23.9.4
    MUST, // 23.9.5
    FREE, // 23.9.9
    FREE, // 23.9.10
    MUST, // 50.1
    FREE, // 50.2
    FREE, // 50.3
    MUST, // 50.4
    MUST, // 50.5
    FREE, // 50.6
    FREE, // 50.4.1
    FREE, // 50.4.2
    FREE, // 50.4.3
    FREE, // 50.4.4
    FREE, // 51.1
    FREE, // 51.2
    FREE, // 51.3
    FREE, // 51.4
    FREE, // 51.5
];

// Whether the type at a place, which is counted in `list`, is a must with a count of 0.
fn lacks_at(place: usize, list: usize, counts: &[u8; 8]) -> bool
    requires { (place < 26) × (list < 8) }
    ensures { result ≡ ((line_at place).need && eqb (get_or counts.now list 0) 0) }
{
    NEEDS[place] && counts[list] == 0
}

// Whether a must has a count of 0, of the places from `from`, the first of a row, to before `after`. Where a row has
// musts, its types have a list each.
fn lacks_between(from: usize, after: usize, counts: &[u8; 8]) -> bool
    requires { (from ≤ after) × (after ≤ from + 8) × (after ≤ 26) }
    ensures { result ≡ lacks_in from from (after - from) counts.now }
{
    for place in from..after {
        if lacks_at(place, place - from, counts) {
            return true;
        }
    }
    false
}

// Test 13: whether a must of the row `parent` has a count of 0. `counts` has a count for each of its lists.
pub fn lacks_must(parent: usize, counts: &[u8; 8]) -> bool
    ensures { result ≡ lacks_must parent counts.now }
{
    // Kept: rows by their places, for the reason that stands at the rows of the crate types.
    match parent {
        26 => lacks_between(0, 3, counts),
        0 => lacks_between(3, 6, counts),
        5 => lacks_between(6, 11, counts),
        1 => lacks_between(11, 17, counts),
        14 => lacks_between(17, 21, counts),
        2 => lacks_between(21, 26, counts),
        _ => false,
    }
}
