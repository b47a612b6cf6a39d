// Theorems only: what the collector's step means for runs of bodies (demand 2) and for a cut message (demand 3).
#![tactic(auto)]
