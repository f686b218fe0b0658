// Why a call on a directory is refused.
ghost use Rattle.std.specs.Prelude.{◌≡◌};
ghost use Rattle.directory.specs.Answers.{fault_number};
ghost use Rattle.hierarchy.specs.Edits.{fault_number as hierarchy_number};

use hierarchy::fault::HierarchyFault;

#[derive(Clone, Copy, PartialEq, Eq, Debug)]
pub enum DirectoryFault {
    OutOfRange = 1,
    NoUser = 2,
    NoRole = 3,
    NoSession = 6,
    AlreadyThere = 9,
    NotThere = 10,
    Circle = 11,
    NotAuthorised = 12,
}

impl DirectoryFault {
    pub fn number(self) -> u8
        ensures { result ≡ fault_number self }
    {
        self as u8
    }
}

impl From<HierarchyFault> for DirectoryFault {
    ghost from_gives = { λ f r. fault_number r ≡ hierarchy_number f };

    fn from(fault: HierarchyFault) -> DirectoryFault {
        match fault {
            HierarchyFault::OutOfRange => DirectoryFault::OutOfRange,
            HierarchyFault::AlreadyThere => DirectoryFault::AlreadyThere,
            HierarchyFault::NotThere => DirectoryFault::NotThere,
            HierarchyFault::Circle => DirectoryFault::Circle,
        }
    }
}
