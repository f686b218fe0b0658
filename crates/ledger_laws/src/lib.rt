// What holds of the ledgers over every list of events: each law is the contract of a call.
#![tactic(auto)]

pub mod draws;
pub mod event;
pub mod history;
pub mod run;
