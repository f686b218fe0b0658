// The commands of the kernel as types, and how each is laid out in a record: its kind and its fields.
#![tactic(auto)]

pub mod command;
pub mod encode;
pub mod encoded;
pub mod layout;
pub mod name;
