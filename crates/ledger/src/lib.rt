// The ledgers of the owners: permits that are drawn, and then entered, handed back or lapsed.
#![tactic(auto)]

pub mod counts;
pub mod fault;
pub mod ledger;
pub mod ledgers;
pub mod permit;
pub mod permits;
pub mod place;
