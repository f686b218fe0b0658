// What a call is answered.
use crate::fault::KernelFault;
use ledger::counts::Counts;

// What an accepted call gives back.
#[derive(Clone, Copy, PartialEq, Eq, Debug)]
pub enum Given {
    Nothing,
    Permit { owner: u16, serial: u16 },
    Counts(Counts),
}

pub type Answer = Result<Given, KernelFault>;
