// The calls on permits. Each permit that is drawn is spent exactly once: entered, handed back or lapsed. That it was not
// spent before is the only thing that a call asks of its caller, and that it was is asked where a permit is let go. Each call
// is that of the ledgers on the permit's number, with the mark set.
ghost use Rattle.std.specs.Prelude.{◌≡◌, ◌+◌, true, false, IfOk, Some};
ghost use Rattle.ledger.specs.Answers.{done_answer, permit_answer};
ghost use Rattle.ledger.specs.Places.{usage_in};
ghost use Rattle.ledger.specs.Table.{ledgers_of, draw_permit, draw_left, close_answer, close_left};

use crate::fault::LedgerFault;
use crate::ledgers::Ledgers;
use crate::permit::{Permit, PermitNumber};
use crate::place::{Closing, Use};

impl Ledgers {
    // Issues a permit.
    pub fn draw(&mut self, owner: u16, usage: Use) -> Result<Permit, LedgerFault>
        ensures answer { permit_answer result ≡ draw_permit owner (ledgers_of self.old) }
        ensures left { ledgers_of self.new ≡ draw_left owner usage (ledgers_of self.old) }
        ensures opened { IfOk result (λ p. usage_in (ledgers_of self.new p.number.owner).places p.number.serial ≡ Some usage) }
        ensures serial { IfOk result (λ p. (p.number.owner ≡ owner) × (p.number.serial ≡ (ledgers_of self.old owner).issued + 1) × (p.number.serial ≡ (ledgers_of self.new owner).issued)) }
        ensures fresh { IfOk result (λ p. p.spent ≡ false) }
    {
        let serial = self.draw_serial(owner, usage)?;
        Ok(Permit {
            number: PermitNumber { owner, serial },
            spent: false,
        })
    }

    // Enters the permit, hands it back or lets it lapse, which spends it, refused or not. A lapse is an entry that is
    // refused by what is above.
    pub fn close(&mut self, permit: &mut Permit, closing: Closing) -> Result<(), LedgerFault>
        requires fresh { permit.old.spent ≡ false }
        ensures answer { done_answer result ≡ close_answer permit.old.number.owner permit.old.number.serial (ledgers_of self.old) }
        ensures left { ledgers_of self.new ≡ close_left closing permit.old.number.owner permit.old.number.serial (ledgers_of self.old) }
        ensures spent { permit.new.spent ≡ true }
        ensures numbers { permit.new.number ≡ permit.old.number }
    {
        permit.spent = true;
        self.close_serial(permit.number, closing)
    }
}
