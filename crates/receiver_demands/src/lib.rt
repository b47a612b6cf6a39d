// Theorems only: what the receiver makes of a cut message, end to end (demand 3).
#![tactic(auto)]
