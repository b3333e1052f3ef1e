// The one text of a program, in specs/, and examples of it, in proofs/. There is no code here.

#![tactic(auto)]
