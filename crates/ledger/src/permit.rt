// A permit that was drawn. It has to be spent before it is let go: entered, handed back or lapsed.
ghost use Rattle.std.specs.Prelude.{◌≡◌, true};

// Which permit is meant: the owner whose ledger issued it, and its serial there.
#[derive(Clone, Copy, PartialEq, Eq, Debug)]
pub struct PermitNumber {
    pub owner: u16,
    pub serial: u16,
}

// The mark is a field and not a type of spent permits: a rule of the project has a permit spent by `&mut`, so that to spend
// it twice is refused because a fact fails.
pub struct Permit {
    pub(crate) number: PermitNumber,
    pub(crate) spent: bool,
}

impl Permit {
    pub fn number(&self) -> PermitNumber
        ensures { result ≡ self.now.number }
    {
        self.number
    }
}

impl Drop for Permit {
    fn drop(self)
        requires { self.spent ≡ true }
    {
        let Permit {
            number: _,
            spent: _,
        } = self;
    }
}
