// The record of a collection (document 01, "Collecting pieces").
//
// Two public functions. `empty_collection` gives a record with nothing collected under a setting, `begin` one under the setting of a
// record, a count and a number: what a new run starts from, and what refusal 21 leaves. They take any record and numbers, and write
// nothing.
#![tactic(auto)]

ghost use Rattle.std.specs.Prelude.{◌≡◌};
ghost use Rattle.collection.specs.Record.{empty_collection};

// What is held: the count and number of a collection, and for each of sixteen slots whether it is
// filled (1; 0 is empty) and its length. Number 0 means nothing collected. The setting: 0 is loose, any other number strict.
// Kept: C lends it (include/dsg.h), and document 01 names the form: flags and lengths in arrays.
#[repr(C)]
#[derive(Clone, Copy)]
pub struct Collection {
    pub count: u8,
    pub number: u8,
    pub filled: [u8; 16],
    pub lengths: [u16; 16],
    pub strict: u16,
}

// Nothing collected yet under this count and number; the setting is the record's.
pub fn begin(held: Collection, count: u8, number: u8) -> Collection
    ensures { result ≡ empty_collection held.strict count number }
{
    Collection {
        count,
        number,
        ..empty_collection(held.strict)
    }
}

// A record with nothing collected, under a setting.
pub fn empty_collection(strict: u16) -> Collection
    ensures { result ≡ empty_collection strict 0 0 }
{
    Collection {
        count: 0,
        number: 0,
        filled: [0; 16],
        lengths: [0; 16],
        strict,
    }
}
