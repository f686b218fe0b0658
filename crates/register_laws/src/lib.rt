// What holds over every register, whatever its make: each law is the contract of a call.
#![tactic(auto)]

pub mod owners;
pub mod undone;
