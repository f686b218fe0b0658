// Sets of small numbers, a bit to each member.
#![tactic(auto)]

pub mod set;
pub mod word;
