// The consent register, by its meaning: whoever is above a register is proved from this alone.
ghost use Rattle.std.specs.Prelude.{◌≡◌};
ghost use Rattle.register.specs.Meaning.{Register, held, Sound};
ghost use Rattle.register.specs.Answers.{answer_number, give_answer, after_give, withdraw_answer, after_withdraw, after_erase, after_strike};

use crate::fault::RegisterFault;
use records::kinds::Consent;
use records::record::Pair;

pub trait ConsentRegister {
    ghost meaning: { Self → Register };

    // How many consents an owner may have.
    fn limit(&self) -> u16
        ensures { result ≡ (meaning self.now).limit };

    fn holds(&self, consent: Consent) -> bool
        ensures { result ≡ held (meaning self.now) consent.owner consent.purpose consent.data_type };

    fn give(&mut self, consent: Consent) -> Result<(), RegisterFault>
        ensures answer { answer_number result ≡ give_answer (meaning self.old) consent.owner consent.purpose consent.data_type }
        ensures left { meaning self.new ≡ after_give (meaning self.old) consent.owner consent.purpose consent.data_type };

    fn withdraw(&mut self, consent: Consent) -> Result<(), RegisterFault>
        ensures answer { answer_number result ≡ withdraw_answer (meaning self.old) consent.owner consent.purpose consent.data_type }
        ensures left { meaning self.new ≡ after_withdraw (meaning self.old) consent.owner consent.purpose consent.data_type };

    // Takes out all consents of an owner.
    fn erase(&mut self, owner: u16)
        ensures { meaning self.new ≡ after_erase (meaning self.old) owner };

    // Takes out one pair for all owners.
    fn strike(&mut self, pair: Pair)
        ensures { meaning self.new ≡ after_strike (meaning self.old) pair.purpose pair.data_type };

    // What is true of every register.
    ghost sound: { (s : Self) → Sound (meaning s) };

    // Does nothing: it tells what is true of every register.
    final fn stands(&self)
        ensures { Sound (meaning self.now) }
    {}
}
