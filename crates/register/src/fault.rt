// Why a register refuses.
ghost use Rattle.std.specs.Prelude.{◌≡◌};
ghost use Rattle.register.specs.Answers.{fault_number, of_set_fault};

use records::set::SetFault;

#[derive(Clone, Copy, PartialEq, Eq, Debug)]
pub enum RegisterFault {
    OutOfRange = 1,
    AlreadyGiven = 9,
    NotGiven = 10,
    Full = 13,
}

impl RegisterFault {
    // Each enum of refusals states its own table of numbers: a trait would have this body in each all the same.
    pub fn number(self) -> u8
        ensures { result ≡ fault_number self }
    {
        self as u8
    }
}

impl From<SetFault> for RegisterFault {
    ghost from_gives = { λ f r. r ≡ of_set_fault f };

    fn from(fault: SetFault) -> RegisterFault {
        match fault {
            SetFault::AlreadyThere => RegisterFault::AlreadyGiven,
            SetFault::NotThere => RegisterFault::NotGiven,
            SetFault::NoPlace => RegisterFault::Full,
        }
    }
}
