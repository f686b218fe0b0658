// The calls of an account, and what they are answered.
ghost use Rattle.std.specs.Prelude.{◌≡◌};
ghost use Rattle.account.specs.Answers.{number_of};

use crate::number::number;
use records::kinds::Consent;
use records::record::Pair;
use register::fault::RegisterFault;

// A call on a register. An enum and no closures: calls are compared, printed, and read by the specification.
#[derive(Clone, Copy, PartialEq, Eq, Debug)]
pub enum Step {
    Give(Consent),
    Withdraw(Consent),
    Erase(u16),
    Strike(Pair),
    Ask(Consent),
}

// What a call is answered: a change is made or refused, a question has yes or no.
#[derive(Clone, Copy, PartialEq, Eq, Debug)]
pub enum Answer {
    Change(Result<(), RegisterFault>),
    Held(bool),
}

impl Answer {
    // A change that was made has 0 and a refused one the number of its fault; yes is 1 and no is 0.
    pub fn number(self) -> u8
        ensures { result ≡ number_of self }
    {
        match self {
            Answer::Change(answer) => number(answer),
            Answer::Held(held) => held as u8,
        }
    }
}

// A line of the account: a call, and its answer once it was made.
#[derive(Clone, Copy, PartialEq, Eq, Debug)]
pub struct Entry {
    pub step: Step,
    pub answer: Option<Answer>,
}
