// What is said about a program that was checked: that it is well formed, or the number, where it stands, its line with a mark, and a sentence.
#![tactic(auto)]

mod heading;
mod place;
mod sentence;
mod whole;

pub use whole::write_report;
