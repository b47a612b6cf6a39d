// The receiver, and the writer of a head end, for a host in C: thin functions over the proved ones, with no meaning of their own. The crate `dsg_c` exports them.
//
// A record is lent by pointer and is one of the lower crates' own `#[repr(C)]` structs; bytes are lent as
// pointer and length; an answer is a number or a small struct of numbers. An enum cannot cross to C, so
// each answer has a definition in `dsg_pieces`, `dsg_tables`, `dsg_frames` or `dsg_events` that gives its
// numbers, beside the function by value that is called here. `include/dsg.h` is the host's side.
//
// Every function takes any record, any numbers and any bytes, refuses by number, and after a refusal
// leaves what was lent as it was (but 21 empties the collection, and the pieces of a message that is refused stay collected). A record behind a reference is copied whole, one function by value is
// called, and its record is stored whole; of a prepared tunnel the arrays are lent on instead.
#![tactic(auto)]

pub mod events;
pub mod frames;
pub mod pieces;
pub mod tables;
