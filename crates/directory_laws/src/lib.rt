// Calls on a directory made one after another, and what is true after every list of them.
#![tactic(auto)]

pub mod call;
pub mod run;
pub mod turn;
