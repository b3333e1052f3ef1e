// What is written from a program's code and tokens is its text: a crate of laws, with no code.

#![tactic(auto)]
