// Laws only: the steps of a walk by hand, for functions that take a record behind a reference.
#![tactic(auto)]
