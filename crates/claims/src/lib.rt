// What is claimed of the meaning, in specs/Claims, and proved, in proofs/: of runs and their beginnings, the book, and calls. There
// is no code here.

#![tactic(auto)]
