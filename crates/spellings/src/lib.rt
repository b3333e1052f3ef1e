// The spelling of one word: names, constants and signs, and lists of names. Each function writes from a place on and returns the place behind.
#![tactic(auto)]

mod leaf;
mod listing;

pub use leaf::{encloses, is_name_part, write_leaf, write_name, write_sign};
pub use listing::write_names;
