// The ledgers of all owners, with the calls on bare numbers.
ghost use Rattle.std.specs.Prelude.{◌≡◌, ℕ, ◌+◌, IfOk, Some};
ghost use Rattle.ledger.specs.Answers.{counts_answer, done_answer, serial_answer, usage_answer};
ghost use Rattle.ledger.specs.Places.{usage_in};
ghost use Rattle.ledger.specs.States.{Sound};
ghost use Rattle.ledger.specs.Table.{ledgers_of, bare_ledgers, draw_answer, draw_left, close_answer, close_left, use_answer, owner_answer, owner_left, sessions_left, ledger_answer};

use crate::counts::Counts;
use crate::fault::LedgerFault;
use crate::ledger::Ledger;
use crate::permit::PermitNumber;
use crate::place::{Closing, Use, Which};
use bits::set::SessionSet;

// One ledger for each owner number. Clauses read it by `ledgers_of`, since the value of an `impl Model` cannot be a function.
#[derive(Drop)]
pub struct Ledgers {
    // by the owner's number, in fixed memory; after the question of range one is lent as `&mut self.all[..]`, a form that is
    // wanted here
    all: [Ledger; 128],
}

impl Ledgers {
    pub fn new() -> Ledgers
        ensures { ledgers_of result ≡ bare_ledgers }
    {
        Ledgers {
            all: [Ledger::new(); 128],
        }
    }

    // Does nothing: it tells what is true of every ledger.
    pub fn stands(&self)
        ensures { (o : ℕ) → Sound (ledgers_of self.now o) }
    {}

    // Issues a permit and gives its serial.
    pub fn draw_serial(&mut self, owner: u16, usage: Use) -> Result<u16, LedgerFault>
        ensures answer { serial_answer result ≡ draw_answer owner (ledgers_of self.old) }
        ensures left { ledgers_of self.new ≡ draw_left owner usage (ledgers_of self.old) }
        ensures opened { IfOk result (λ n. usage_in (ledgers_of self.new owner).places n ≡ Some usage) }
        ensures serial { IfOk result (λ n. (n ≡ (ledgers_of self.old owner).issued + 1) × (n ≡ (ledgers_of self.new owner).issued)) }
    {
        if owner >= 128 {
            return Err(LedgerFault::OutOfRange);
        }
        let ledger = &mut self.all[owner as usize];
        ledger.draw(usage)
    }

    // Closes one permit: it is entered, handed back or lapses, which is an entry that is refused by what is above.
    pub fn close_serial(
        &mut self,
        number: PermitNumber,
        closing: Closing,
    ) -> Result<(), LedgerFault>
        ensures answer { done_answer result ≡ close_answer number.owner number.serial (ledgers_of self.old) }
        ensures left { ledgers_of self.new ≡ close_left closing number.owner number.serial (ledgers_of self.old) }
    {
        if number.owner >= 128 {
            return Err(LedgerFault::OutOfRange);
        }
        let ledger = &mut self.all[number.owner as usize];
        ledger.settle(number.serial, closing)
    }

    // What an open permit was drawn for.
    pub fn usage_of(&self, number: PermitNumber) -> Result<Use, LedgerFault>
        ensures answer { usage_answer result ≡ use_answer number.owner number.serial (ledgers_of self.now) }
        ensures found { IfOk result (λ u. usage_in (ledgers_of self.now number.owner).places number.serial ≡ Some u) }
    {
        if number.owner >= 128 {
            return Err(LedgerFault::OutOfRange);
        }
        self.all[number.owner as usize]
            .usage(number.serial)
            .ok_or(LedgerFault::NotOpen)
    }

    // All open permits of the owner lapse.
    pub fn lapse_owner(&mut self, owner: u16) -> Result<(), LedgerFault>
        ensures answer { done_answer result ≡ owner_answer owner }
        ensures left { ledgers_of self.new ≡ owner_left owner (ledgers_of self.old) }
    {
        if owner >= 128 {
            return Err(LedgerFault::OutOfRange);
        }
        let ledger = &mut self.all[owner as usize];
        ledger.close(Which::All, Closing::Lapse);
        Ok(())
    }

    // All open permits of these sessions lapse, in every ledger.
    pub fn lapse_sessions(&mut self, sessions: SessionSet)
        ensures { ledgers_of self.new ≡ sessions_left sessions (ledgers_of self.old) }
    {
        for ledger in &mut self.all {
            ledger.close(Which::Sessions(sessions), Closing::Lapse);
        }
    }

    // The ledger question.
    pub fn counts(&self, owner: u16) -> Result<Counts, LedgerFault>
        ensures answer { counts_answer result ≡ ledger_answer owner (ledgers_of self.now) }
        ensures sum { IfOk result (λ c. c.issued ≡ c.entered + (c.handed_back + (c.lapsed + c.«open»))) }
    {
        if owner >= 128 {
            return Err(LedgerFault::OutOfRange);
        }
        Ok(self.all[owner as usize].counts())
    }
}
