// The command book: records of commands one after another in one buffer, each with a field for its answer.
#![tactic(auto)]

pub mod answer;
pub mod reader;
pub mod record;
pub mod records;
pub mod survey;
pub mod types;
