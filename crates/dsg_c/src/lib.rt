// The exports of the crate `dsg` for a host in C: each calls the function of its name and states its clauses again.
//
// The kit builds a crate as a library or as a static library. `dsg` is the library, on which the demands are proved, and this is
// the static library: nothing but names for C. `include/dsg.h` is the host's side.
#![tactic(auto)]

pub mod events;
pub mod frames;
pub mod pieces;
pub mod tables;
