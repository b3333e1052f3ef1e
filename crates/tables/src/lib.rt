// Entries of tables, with an index by hash: a look-up takes as long whatever the tables hold.
#![tactic(auto)]

pub mod entries;
pub mod hashes;
pub mod keys;
