// Calls on a consent register, run one after another, each with what it was answered.
#![tactic(auto)]

pub mod entry;
pub mod makes;
pub mod number;
pub mod run;
pub mod show;
