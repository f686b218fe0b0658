// Answers of a register by number.
ghost use Rattle.std.specs.Prelude.{◌≡◌};
ghost use Rattle.register.specs.Answers.{answer_number};

use register::fault::RegisterFault;

// The number of an answer: 0 where it was accepted. That of a ledger is the same over another fault: the two crates share
// none below them but the words of the specifications, and a trait and a crate for one match would be no plainer.
pub fn number(answer: Result<(), RegisterFault>) -> u8
    ensures { result ≡ answer_number answer }
{
    match answer {
        Ok(()) => 0,
        Err(fault) => fault.number(),
    }
}
