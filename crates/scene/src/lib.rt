// The lines of the shapes that variables hold, with all in the groups among them, and how long they are.
#![tactic(auto)]

pub mod lines;
pub mod measuring;

pub use measuring::measure_scene;
