// Users, roles, assignments, inheritance and sessions: who may activate what, and which sessions end when a right is lost.
#![tactic(auto)]

pub mod directory;
pub mod fault;
mod inheritance;
mod roles;
pub mod session;
mod session_calls;
mod sessions;
mod tables;
mod users;
