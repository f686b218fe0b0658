// The law of histories.
#![tactic(auto)]

pub mod law;
