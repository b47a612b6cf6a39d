// The children of a row, in byte order.
//
// Two public functions give the iterator `Children`: `children_of` that over the elements between two places of a message, and
// `inside` that over those of an element's value. Both take any input. The iterator ends where no element stands, and writes nothing.
#![tactic(auto)]

ghost use Rattle.std.specs.Prelude.{◌≡◌};
ghost use Rattle.std.specs.Iterator.{YieldsFirst, item_count};
ghost use Rattle.children.specs.Rows.{row_in, row_inside};
ghost use Rattle.children.specs.Children.{children_in, left};

// An element of a row: its type, the place of its type byte, which stands two before its value, and the value's length.
#[derive(Clone, Copy)]
pub struct Child {
    pub kind: u8,
    pub at: usize,
    pub len: usize,
}

// The elements of the row of `message` from `at` to `end`.
#[derive(Drop)]
pub struct Children<'a> {
    message: &'a [u8],
    at: usize,
    end: usize,
}

impl<'a> Iterator for Children<'a> {
    type Item = Child;

    ghost next_gives = { YieldsFirst left };

    ghost remaining = { item_count left };

    fn next(&mut self) -> Option<Child> {
        let at = self.at;
        let len = elements::value_at(self.message, at, self.end)?;
        self.at = at + 2 + len;
        Some(Child {
            kind: self.message[at],
            at,
            len,
        })
    }
}

// The children of the row `from` to `end`.
pub fn children_of<'a>(message: &'a [u8], from: usize, end: usize) -> Children<'a>
    ensures { left result ≡ children_in message.now (row_in message.now from end) }
{
    Children {
        message,
        at: from,
        end,
    }
}

// The children of the element at `at`; none where no element stands.
pub fn inside<'a>(message: &'a [u8], at: usize) -> Children<'a>
    ensures { left result ≡ children_in message.now (row_inside message.now at) }
{
    match elements::value_at(message, at, message.len()) {
        Some(len) => children_of(message, at + 2, at + 2 + len),
        None => children_of(message, 0, 0),
    }
}
