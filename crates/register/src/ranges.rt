// The ranges of a consent's numbers.
ghost use Rattle.std.specs.Prelude.{◌≡◌, true, false, MatchResult};
ghost use Rattle.register.specs.Meaning.{in_range};
ghost use Rattle.register.specs.declared.fault.RegisterFault.TheVariants.{OutOfRange};

use crate::fault::RegisterFault;
use records::kinds::Consent;

// Refuses a consent of which a number is out of range.
pub(crate) fn in_range(consent: Consent) -> Result<(), RegisterFault>
    ensures { MatchResult result (λ _. in_range consent.owner consent.purpose consent.data_type ≡ true) (λ f. (f ≡ OutOfRange) × (in_range consent.owner consent.purpose consent.data_type ≡ false)) }
{
    if consent.owner < 128 && consent.purpose < 16 && consent.data_type < 16 {
        Ok(())
    } else {
        Err(RegisterFault::OutOfRange)
    }
}
