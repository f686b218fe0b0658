// Events, one by one and one after another.
ghost use Rattle.std.specs.Prelude.{◌≡◌, ℕ, ◌<◌, ◌≤◌, ◌≢◌, List, ◌++◌, reverse};
ghost use Rattle.ledger.specs.Answers.{number_of};
ghost use Rattle.ledger.specs.Table.{ledgers_of};
ghost use Rattle.ledger_laws.specs.Fates.{account, Accounted};
ghost use Rattle.ledger_laws.specs.Events.{call_answer, call_left, event_answer, event_left, all_left, calls_left};

use crate::event::{LedgerEvent, OwnerCall};
use ledger::fault::LedgerFault;
use ledger::ledgers::Ledgers;
use ledger::permit::PermitNumber;

// Makes one call for an owner.
pub fn call(ledgers: &mut Ledgers, owner: u16, call: OwnerCall) -> Result<(), LedgerFault>
    ensures answer { number_of result ≡ call_answer owner call (ledgers_of ledgers.old) }
    ensures left { ledgers_of ledgers.new ≡ call_left owner call (ledgers_of ledgers.old) }
{
    match call {
        OwnerCall::Draw(usage) => ledgers.draw_serial(owner, usage).map(|_| ()),
        OwnerCall::Close { serial, closing } => {
            ledgers.close_serial(PermitNumber { owner, serial }, closing)
        }
        OwnerCall::LapseAll => ledgers.lapse_owner(owner),
    }
}

// Lets one event happen.
pub fn apply(ledgers: &mut Ledgers, event: LedgerEvent) -> Result<(), LedgerFault>
    ensures answer { number_of result ≡ event_answer event (ledgers_of ledgers.old) }
    ensures left { ledgers_of ledgers.new ≡ event_left event (ledgers_of ledgers.old) }
{
    match event {
        LedgerEvent::Of { owner, call: made } => call(ledgers, owner, made),
        LedgerEvent::SessionsEnd(sessions) => {
            ledgers.lapse_sessions(sessions);
            Ok(())
        }
    }
}

// Lets the events happen, in their order. No count of issued permits ever falls, and a ledger that is as the account of
// earlier events has it is then as the account of all has it.
pub fn run(ledgers: &mut Ledgers, events: &[LedgerEvent])
    ensures left { ledgers_of ledgers.new ≡ all_left events.now (ledgers_of ledgers.old) }
    ensures grows { (o : ℕ) → (ledgers_of ledgers.old o).issued ≤ (ledgers_of ledgers.new o).issued }
    ensures accounted { (o : ℕ) (before : List LedgerEvent) → o < 128 → Accounted (account o before) (ledgers_of ledgers.old o) → Accounted (account o (reverse events.now ++ before)) (ledgers_of ledgers.new o) }
{
    for event in events {
        let _ = apply(ledgers, *event);
    }
}

// Makes calls for one owner, in their order. The ledger of every other owner is as it was. A loop of its own and not `run` over
// any iterator of events: that would ask of its callers that the iterator ends.
pub fn run_owner(ledgers: &mut Ledgers, owner: u16, calls: &[OwnerCall])
    ensures left { ledgers_of ledgers.new ≡ calls_left owner calls.now (ledgers_of ledgers.old) }
    ensures others { (k : ℕ) → (k ≢ owner) → ledgers_of ledgers.new k ≡ ledgers_of ledgers.old k }
{
    for made in calls {
        let _ = call(ledgers, owner, *made);
    }
}
