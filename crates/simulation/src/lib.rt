// The run of a program's code is the book of its specified run: a crate of laws, with no code.

#![tactic(auto)]
