// How a call and its answer are printed.
ghost use Rattle.std.specs.Prelude.{Some};
ghost use Rattle.account.specs.Texts.{step_text, answer_text};

use crate::entry::{Answer, Step};
use records::kinds::Consent;
use std::fmt;

impl fmt::Display for Step {
    ghost output = { λ s. Some (step_text s) };

    fn fmt<W: fmt::Write>(&self, f: &mut fmt::Formatter<W>) -> fmt::Result {
        match *self {
            Step::Give(
                Consent {
                    owner,
                    purpose,
                    data_type,
                },
            ) => write!(f, "give {owner} {purpose} {data_type}"),
            Step::Withdraw(
                Consent {
                    owner,
                    purpose,
                    data_type,
                },
            ) => write!(f, "withdraw {owner} {purpose} {data_type}"),
            Step::Erase(owner) => write!(f, "erase {owner}"),
            Step::Strike(pair) => write!(f, "strike {} {}", pair.purpose, pair.data_type),
            Step::Ask(
                Consent {
                    owner,
                    purpose,
                    data_type,
                },
            ) => write!(f, "owner {owner} holds {purpose} {data_type}"),
        }
    }
}

// A change shows its number, and a question yes or no.
impl fmt::Display for Answer {
    ghost output = { λ a. Some (answer_text a) };

    fn fmt<W: fmt::Write>(&self, f: &mut fmt::Formatter<W>) -> fmt::Result {
        match self {
            Answer::Change(_) => write!(f, "{}", self.number()),
            Answer::Held(true) => f.write_str("yes"),
            Answer::Held(false) => f.write_str("no"),
        }
    }
}
