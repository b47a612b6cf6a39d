// Definitions and laws only: reading what was written gives the same table, and the test of refusal 19 is exact.
#![tactic(auto)]
