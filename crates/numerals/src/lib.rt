// Numbers as text, behind a byte string.
#![tactic(auto)]

mod number;

pub use number::write_number_at;
