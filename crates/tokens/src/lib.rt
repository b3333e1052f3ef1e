// Tokens as words, their spellings, and the reserved words.
#![tactic(auto)]

pub mod kind;
mod text;
mod word;

pub use text::{same_text, spelling, word_kind};
pub use word::{kind_of, place_of, token_size, token_text, word_of};
