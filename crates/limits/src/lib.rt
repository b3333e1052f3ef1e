// Programs at the fixed limits of document 01: what is read of them and answered to them, proved about the definitions in proofs/. They take longer
// to compute than all other examples, so they stand apart from `meaning`. There is no code here.

#![tactic(auto)]
