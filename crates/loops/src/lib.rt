// How a loop over a group finds the next figure.
#![tactic(auto)]

pub mod looking;
pub mod marks;
