// A register that is lent: for a kernel that owns its register by value, over one that its caller keeps.
ghost use Rattle.std.specs.Prelude.{◌≡◌};

use crate::fault::RegisterFault;
use crate::register::ConsentRegister;
use records::kinds::Consent;
use records::record::Pair;

#[derive(Drop)]
pub struct Lent<'r, R> {
    register: &'r mut R,
}

impl<'r, R: ConsentRegister> Lent<'r, R> {
    pub fn new(register: &'r mut R) -> Lent<'r, R>
        ensures { R.ConsentRegister.meaning result.register.now ≡ R.ConsentRegister.meaning register.old }
    {
        Lent { register }
    }
}

impl<'r, R: ConsentRegister> ConsentRegister for Lent<'r, R> {
    ghost meaning = { λ s. R.ConsentRegister.meaning s.register.now };

    ghost sound = { λ s. R.ConsentRegister.sound s.register.now };

    fn limit(&self) -> u16 {
        self.register.limit()
    }

    fn holds(&self, consent: Consent) -> bool {
        self.register.holds(consent)
    }

    fn give(&mut self, consent: Consent) -> Result<(), RegisterFault> {
        self.register.give(consent)
    }

    fn withdraw(&mut self, consent: Consent) -> Result<(), RegisterFault> {
        self.register.withdraw(consent)
    }

    fn erase(&mut self, owner: u16) {
        self.register.erase(owner)
    }

    fn strike(&mut self, pair: Pair) {
        self.register.strike(pair)
    }
}
