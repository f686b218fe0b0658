ghost use Rattle.std.specs.Prelude.{◌≡◌};
ghost use Rattle.bits.specs.Sets.{none};
ghost use Rattle.directory_laws.specs.Turns.{told, as_told};

use crate::call::DirectoryCall;
use bits::set::SessionSet;
use directory::fault::DirectoryFault;

// A call, and its answer: the sessions that ended by it, or why it was refused.
#[derive(Clone, Copy)]
pub struct Turn {
    pub call: DirectoryCall,
    pub answer: Result<SessionSet, DirectoryFault>,
}

impl Turn {
    // A call that has not been made.
    pub fn new(call: DirectoryCall) -> Turn
        ensures { told result ≡ as_told call 0 none }
    {
        Turn {
            call,
            answer: Ok(SessionSet::empty()),
        }
    }
}
