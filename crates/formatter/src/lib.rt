// Writing the text of a program from its code. Each function writes from a place on and returns the place behind.
#![tactic(auto)]

mod procedure;
mod statement;

pub use procedure::write_text;
