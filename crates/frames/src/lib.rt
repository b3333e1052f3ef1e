// The frames of calls in the words that are lent for a run: the variables of the call under way, and what belongs to calls that wait.
#![tactic(auto)]

pub mod calls;
pub mod variables;
