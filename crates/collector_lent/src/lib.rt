// Theorems only: demand 3 over the message that is lent back, and as a C host sees it.
#![tactic(auto)]
