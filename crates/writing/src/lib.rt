// Bytes and decimals written into a slice that is lent. A writer fills the front of the slice, or what follows a place in it.
// What does not fit is left out, and the count or place that a writer returns is that of the whole text all the same.
#![tactic(auto)]

mod decimal;
mod place;

pub use decimal::{decimal_length, pair_length, write_decimal_at, write_digits_at, write_pair_at};
pub use place::{saturating_add, write_bytes, write_bytes_at};
