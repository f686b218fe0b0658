// What holds of a permit that was drawn.
ghost use Rattle.std.specs.Prelude.{◌≡◌, ◌<◌, IfOk};
ghost use Rattle.vocabulary.specs.Questions.{first_no};
ghost use Rattle.ledger.specs.Answers.{number_of};
ghost use Rattle.ledger.specs.Table.{ledgers_of, draw_asked};
ghost use Rattle.ledger_laws.specs.Events.{once_left};

use crate::event::LedgerEvent;
use crate::run::run;
use ledger::fault::LedgerFault;
use ledger::ledgers::Ledgers;
use ledger::place::{Closing, Use};

// The answers of two draws. A struct and no tuple: the clause names them.
pub struct TwoDraws {
    pub first: Result<u16, LedgerFault>,
    pub second: Result<u16, LedgerFault>,
}

// Draws twice for one owner, with any events between, be it that everything lapses: the second serial is above the first.
pub fn draw_twice(ledgers: &mut Ledgers, owner: u16, usage: Use, events: &[LedgerEvent]) -> TwoDraws
    ensures later { IfOk result.first (λ m. IfOk result.second (λ n. m < n)) }
{
    let first = ledgers.draw_serial(owner, usage);
    run(ledgers, events);
    let second = ledgers.draw_serial(owner, usage);
    TwoDraws { first, second }
}

// Draws a permit and closes it. A permit just drawn is never refused that, and the places are as they were.
pub fn draw_then_close(
    ledgers: &mut Ledgers,
    owner: u16,
    usage: Use,
    closing: Closing,
) -> Result<(), LedgerFault>
    ensures answer { number_of result ≡ first_no (draw_asked owner (ledgers_of ledgers.old)) }
    ensures left { ledgers_of ledgers.new ≡ once_left closing owner (ledgers_of ledgers.old) }
{
    let mut permit = ledgers.draw(owner, usage)?;
    ledgers.close(&mut permit, closing)
}
