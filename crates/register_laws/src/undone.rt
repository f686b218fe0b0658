// What is undone again.
ghost use Rattle.std.specs.Prelude.{◌≡◌};
ghost use Rattle.register.specs.Answers.{answer_number, give_answer};
ghost use Rattle.register_laws.specs.Owners.{HoldsNothing};

use records::kinds::Consent;
use register::fault::RegisterFault;
use register::register::ConsentRegister;

// Gives a consent and withdraws it again: the register is as it was, and what was given is never refused its withdrawal.
pub fn give_then_withdraw<R: ConsentRegister>(
    register: &mut R,
    consent: Consent,
) -> Result<(), RegisterFault>
    ensures answer { answer_number result ≡ give_answer (R.ConsentRegister.meaning register.old) consent.owner consent.purpose consent.data_type }
    ensures left { R.ConsentRegister.meaning register.new ≡ R.ConsentRegister.meaning register.old }
{
    register.give(consent)?;
    register.withdraw(consent)
}

// Erases every owner: the register then holds nothing.
pub fn erase_all<R: ConsentRegister>(register: &mut R)
    ensures none { HoldsNothing (R.ConsentRegister.meaning register.new) }
    ensures limit { (R.ConsentRegister.meaning register.new).limit ≡ (R.ConsentRegister.meaning register.old).limit }
{
    // Owners are numbers: there is nothing to walk along.
    for owner in 0..128u16 {
        register.erase(owner);
    }
}
