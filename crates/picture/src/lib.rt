// The bytes of a picture, by the writers of its lines.
#![tactic(auto)]

mod frame;
mod line;

pub use frame::{head_length, tail_length, write_head_at, write_tail_at};
pub use line::{Shape, line_length, write_line, write_line_at};
