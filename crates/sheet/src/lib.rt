// The text around a drawing: the line before the program, and what is shown of an answer.
#![tactic(auto)]

mod failure;
mod line;
mod shown;

pub use failure::write_error;
pub use line::{Sheet, read_sheet};
pub use shown::put_answer;
