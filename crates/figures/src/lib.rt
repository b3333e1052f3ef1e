// Figures: moved, scaled and compared.
#![tactic(auto)]

pub mod changes;
pub mod comparing;
