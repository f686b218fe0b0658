// Why an edit of a hierarchy is refused.
ghost use Rattle.std.specs.Prelude.{◌≡◌};
ghost use Rattle.hierarchy.specs.Edits.{fault_number};

#[derive(Clone, Copy, PartialEq, Eq, Debug)]
pub enum HierarchyFault {
    OutOfRange = 1,
    AlreadyThere = 9,
    NotThere = 10,
    Circle = 11,
}

impl HierarchyFault {
    pub fn number(self) -> u8
        ensures { result ≡ fault_number self }
    {
        self as u8
    }
}
