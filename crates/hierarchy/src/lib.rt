// Role inheritance without circles.
#![tactic(auto)]

mod edits;
pub mod fault;
pub mod hierarchy;
mod order;
mod reach;
