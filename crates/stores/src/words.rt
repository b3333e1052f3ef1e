// A word at any place.
pub use slices::{put as put_word, word_at};
