// Sets of records without repeats, in a slice that the caller provides.
#![tactic(auto)]

pub mod kinds;
pub mod methods;
pub mod reads;
pub mod record;
mod rows;
pub mod set;
