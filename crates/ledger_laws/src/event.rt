// The events that change the ledgers, as values: the laws are about every list of them.
use bits::set::SessionSet;
use ledger::place::{Closing, Use};

// What is done for one owner. The owner goes beside it and not in it: a run for one owner has many calls of one number.
#[derive(Clone, Copy)]
pub enum OwnerCall {
    Draw(Use),
    Close { serial: u16, closing: Closing },
    LapseAll,
}

#[derive(Clone, Copy)]
pub enum LedgerEvent {
    Of { owner: u16, call: OwnerCall },
    SessionsEnd(SessionSet),
}
