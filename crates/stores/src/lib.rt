// The words that are lent for a run: counters, shapes, components of groups, and the stack of arguments.
#![tactic(auto)]

pub mod arguments;
pub mod components;
pub mod counters;
pub mod shapes;
pub mod words;
