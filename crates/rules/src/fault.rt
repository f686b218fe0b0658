// Why the kernel refuses a call. What its register refuses travels whole inside.
ghost use Rattle.std.specs.Prelude.{◌≡◌};
ghost use Rattle.book.specs.Numbers.{layer_number};
ghost use Rattle.rules.specs.Told.{fault_number, fault_layer};

use book::types::Layer;
use register::fault::RegisterFault;

#[derive(Clone, Copy, PartialEq, Eq, Debug)]
pub enum KernelFault {
    OutOfRange,
    NoUser,
    NoRole,
    NoObject,
    NoOwner,
    NoSession,
    NotOffered,
    WrongSort,
    AlreadyThere,
    NotThere,
    Circle,
    NotAuthorised,
    NoPlace,
    NotGranted,
    NoConsent,
    PlacesTaken,
    SerialsUsedUp,
    NotOpen,
    NotCovered,
    Register(RegisterFault),
}

impl KernelFault {
    // A table: an enum with a value in one of its cases has no number to cast to.
    pub fn number(self) -> u8
        ensures { result ≡ fault_number self }
    {
        match self {
            KernelFault::OutOfRange => 1,
            KernelFault::NoUser => 2,
            KernelFault::NoRole => 3,
            KernelFault::NoObject => 4,
            KernelFault::NoOwner => 5,
            KernelFault::NoSession => 6,
            KernelFault::NotOffered => 7,
            KernelFault::WrongSort => 8,
            KernelFault::AlreadyThere => 9,
            KernelFault::NotThere => 10,
            KernelFault::Circle => 11,
            KernelFault::NotAuthorised => 12,
            KernelFault::NoPlace => 13,
            KernelFault::NotGranted => 14,
            KernelFault::NoConsent => 15,
            KernelFault::PlacesTaken => 16,
            KernelFault::SerialsUsedUp => 17,
            KernelFault::NotOpen => 18,
            KernelFault::NotCovered => 19,
            KernelFault::Register(fault) => fault.number(),
        }
    }

    // Which layer refused.
    pub fn layer(self) -> Layer
        ensures { layer_number result ≡ fault_layer self }
    {
        match self {
            KernelFault::Register(_) => Layer::Register,
            _ => Layer::Kernel,
        }
    }
}
