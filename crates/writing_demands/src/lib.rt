// Theorems only: what is written is cut between elements, collected in any order, and read as the same table.
#![tactic(auto)]
