// Whole histories: events from ledgers in which nothing was ever drawn.
ghost use Rattle.std.specs.Prelude.{◌≡◌, ℕ, ◌<◌, reverse};
ghost use Rattle.ledger.specs.Answers.{number_of};
ghost use Rattle.ledger.specs.Table.{ledgers_of};
ghost use Rattle.ledger_laws.specs.Fates.{account, Accounted, account_answer};

use crate::event::{LedgerEvent, OwnerCall};
use crate::run::{call, run};
use ledger::fault::LedgerFault;
use ledger::ledgers::Ledgers;

// Lets the events happen, in their order. The ledger of every owner is then as the account of the events has it.
pub fn history(events: &[LedgerEvent]) -> Ledgers
    ensures { (o : ℕ) → o < 128 → Accounted (account o (reverse events.now)) (ledgers_of result o) }
{
    let mut ledgers = Ledgers::new();
    run(&mut ledgers, events);
    ledgers
}

// Makes one call after the events. It is answered as the account of the events says.
pub fn next_answer(events: &[LedgerEvent], owner: u16, made: OwnerCall) -> Result<(), LedgerFault>
    ensures { number_of result ≡ account_answer owner made (account owner (reverse events.now)) }
{
    let mut ledgers = history(events);
    call(&mut ledgers, owner, made)
}
