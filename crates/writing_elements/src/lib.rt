// Definitions and laws only: the elements that are written for a table.
#![tactic(auto)]
