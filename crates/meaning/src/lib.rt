// What IMG programs mean, in specs/, and examples and laws of it, in proofs/. There is no code here: every other crate's
// contracts cite these definitions.

#![tactic(auto)]
