// The bit register's calls.
ghost use Rattle.std.specs.Prelude.{◌≡◌, ℕ, false, ◌≢◌};
ghost use Rattle.register.specs.Answers.{answer_number, give_answer, after_give};
ghost use Rattle.register.specs.BitMeaning.{bit_meaning};
ghost use Rattle.register.specs.Laws.{bit_sound};

use crate::bit_register::BitRegister;
use crate::fault::RegisterFault;
use crate::ranges::in_range;
use crate::register::ConsentRegister;
use bits::set::TypeSet;
use records::kinds::Consent;
use records::record::Pair;

impl BitRegister {
    pub fn new() -> BitRegister
        ensures { (o q t : ℕ) → (bit_meaning result).entries o q t ≡ false }
    {
        BitRegister {
            types: [[TypeSet::empty(); 16]; 128],
        }
    }
}

impl ConsentRegister for BitRegister {
    ghost meaning = { bit_meaning };

    ghost sound = { bit_sound };

    fn limit(&self) -> u16 {
        256
    }

    fn holds(&self, consent: Consent) -> bool {
        if in_range(consent).is_err() {
            return false;
        }
        let types = self.types[consent.owner as usize][consent.purpose as usize];
        types.contains(consent.data_type)
    }

    fn give(&mut self, consent: Consent) -> Result<(), RegisterFault>
        ensures answer { answer_number result ≡ give_answer (bit_meaning self.old) consent.owner consent.purpose consent.data_type }
        ensures left { bit_meaning self.new ≡ after_give (bit_meaning self.old) consent.owner consent.purpose consent.data_type }
        ensures never_full { answer_number result ≢ 13 }
    {
        in_range(consent)?;
        let types = &mut self.types[consent.owner as usize][consent.purpose as usize];
        if types.contains(consent.data_type) {
            return Err(RegisterFault::AlreadyGiven);
        }
        *types = types.with(consent.data_type);
        Ok(())
    }

    fn withdraw(&mut self, consent: Consent) -> Result<(), RegisterFault> {
        in_range(consent)?;
        let types = &mut self.types[consent.owner as usize][consent.purpose as usize];
        if !types.contains(consent.data_type) {
            return Err(RegisterFault::NotGiven);
        }
        *types = types.without(consent.data_type);
        Ok(())
    }

    fn erase(&mut self, owner: u16) {
        if owner < 128 {
            self.types[owner as usize] = [TypeSet::empty(); 16];
        }
    }

    fn strike(&mut self, pair: Pair) {
        if pair.purpose < 16 && pair.data_type < 16 {
            for of_owner in &mut self.types {
                let types = &mut of_owner[pair.purpose as usize];
                *types = types.without(pair.data_type);
            }
        }
    }
}
