// One owner's calls beside another's.
ghost use Rattle.std.specs.Prelude.{◌≡◌, ℕ, ◌≢◌};
ghost use Rattle.register.specs.Answers.{answer_number, give_answer, withdraw_answer};
ghost use Rattle.register_laws.specs.Owners.{AlikeToOthers};

use records::kinds::Consent;
use register::fault::RegisterFault;
use register::register::ConsentRegister;

// Gives a consent: no other owner can tell.
pub fn give<R: ConsentRegister>(register: &mut R, consent: Consent) -> Result<(), RegisterFault>
    ensures answer { answer_number result ≡ give_answer (R.ConsentRegister.meaning register.old) consent.owner consent.purpose consent.data_type }
    ensures others { AlikeToOthers consent.owner (R.ConsentRegister.meaning register.old) (R.ConsentRegister.meaning register.new) }
{
    register.give(consent)
}

// Withdraws a consent: no other owner can tell.
pub fn withdraw<R: ConsentRegister>(register: &mut R, consent: Consent) -> Result<(), RegisterFault>
    ensures answer { answer_number result ≡ withdraw_answer (R.ConsentRegister.meaning register.old) consent.owner consent.purpose consent.data_type }
    ensures others { AlikeToOthers consent.owner (R.ConsentRegister.meaning register.old) (R.ConsentRegister.meaning register.new) }
{
    register.withdraw(consent)
}

// What two gives were answered. A struct and no tuple: the clauses name them.
pub struct BothGiven {
    pub first: Result<(), RegisterFault>,
    pub second: Result<(), RegisterFault>,
}

// Gives two consents. Where they are of different owners, each is answered as if the other had not been given.
pub fn give_both<R: ConsentRegister>(register: &mut R, first: Consent, second: Consent) -> BothGiven
    ensures first { answer_number result.first ≡ give_answer (R.ConsentRegister.meaning register.old) first.owner first.purpose first.data_type }
    ensures second { (second.owner ≢ first.owner) → answer_number result.second ≡ give_answer (R.ConsentRegister.meaning register.old) second.owner second.purpose second.data_type }
{
    let first = give(register, first);
    let second = give(register, second);
    BothGiven { first, second }
}
