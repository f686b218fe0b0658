// The same account over each make of register. Where their limits agree, so do all answers.
ghost use Rattle.std.specs.Prelude.{◌≡◌, ◌<◌, ◌≤◌, length, map, IfOk, IfErr, MatchResult};
ghost use Rattle.register.specs.Answers.{fault_number};
ghost use Rattle.register.specs.ListMeaning.{share};
ghost use Rattle.account.specs.Answers.{entry_number};
ghost use Rattle.account.specs.Steps.{answered, numbers, nothing};

use crate::entry::Entry;
use crate::run::run;
use records::kinds::Consent;
use register::bit_register::BitRegister;
use register::fault::RegisterFault;
use register::list_register::ListRegister;

// Runs the account over a new register of bits.
pub fn run_bits(entries: &mut [Entry])
    ensures answers { entries.new ≡ answered (nothing 256) entries.old }
    ensures numbers { map entry_number entries.new ≡ numbers (nothing 256) entries.old }
{
    let mut register = BitRegister::new();
    run(&mut register, entries);
}

// Runs the account over a new list register in the places. Fewer than 128 places are refused, so that this stands beside
// `run_bits`, which cannot be refused.
pub fn run_list(places: &mut [Consent], entries: &mut [Entry]) -> Result<(), RegisterFault>
    ensures answers { MatchResult result (λ _. (128 ≤ length places.old) × (entries.new ≡ answered (nothing (share (length places.old))) entries.old)) (λ f. (length places.old < 128) × (fault_number f ≡ 13) × (entries.new ≡ entries.old)) }
    ensures numbers { IfOk result (λ _. map entry_number entries.new ≡ numbers (nothing (share (length places.old))) entries.old) }
    ensures refused { IfErr result (λ _. places.new ≡ places.old) }
{
    // Asked here and not left to `ListRegister::new`, whose contract cannot say that refused places are as they were.
    if places.len() < 128 {
        return Err(RegisterFault::Full);
    }
    let mut list = ListRegister::new(places)?;
    run(&mut list, entries);
    Ok(())
}
