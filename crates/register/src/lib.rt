// The consent register: its meaning, and its makes.
#![tactic(auto)]

pub mod bit_consents;
pub mod bit_register;
pub mod fault;
pub mod lent;
pub mod list_consents;
pub mod list_register;
pub mod open;
mod ranges;
pub mod register;
