// The three demands, as theorems about what the operations promise, in specs/Demands, and their proofs, in proofs/. There is no code here.

#![tactic(auto)]
