// What is claimed of the text of a program, in specs/, and proved, in proofs/: reading it gives the program again. There is no code here.

#![tactic(auto)]
