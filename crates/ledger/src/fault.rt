// Why a ledger refuses.
ghost use Rattle.std.specs.Prelude.{◌≡◌};
ghost use Rattle.ledger.specs.Answers.{fault_number, number_of};

#[derive(Clone, Copy, PartialEq, Eq, Debug)]
pub enum LedgerFault {
    OutOfRange = 1,
    PlacesTaken = 16,
    SerialsUsedUp = 17,
    NotOpen = 18,
}

impl LedgerFault {
    // The number of the question that was answered no.
    pub fn number(self) -> u8
        ensures { result ≡ fault_number self }
    {
        self as u8
    }
}

// The number of an answer, as a book's answer field has it: 0 where the call was accepted.
pub fn answer_number<T>(answer: &Result<T, LedgerFault>) -> u8
    ensures { result ≡ number_of answer.now }
{
    match answer {
        Ok(_) => 0,
        Err(fault) => fault.number(),
    }
}
