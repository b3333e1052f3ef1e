// Groups made and copied, and made of new shapes that wait for them.
#![tactic(auto)]

pub mod making;
pub mod waiting;
