// No code: theorems only, in proofs/ (the three demands, one answer only, wrong programs refuted, the starred examples).
#![tactic(auto)]
