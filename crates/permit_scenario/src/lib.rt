// A morning at a pay desk: what a host does with permits, as lines to print.
#![tactic(auto)]

pub mod desk;
pub mod line;
pub mod scenario;
