// The list register's calls.
ghost use Rattle.std.specs.Prelude.{◌≡◌, ◌<◌, ◌≤◌, [], length, filter, MatchResult};
ghost use Rattle.records.specs.Sets.{records, room};
ghost use Rattle.register.specs.ListMeaning.{of_owner, list_meaning};
ghost use Rattle.register.specs.Laws.{list_sound};
ghost use Rattle.register.specs.declared.fault.RegisterFault.TheVariants.{Full};

use crate::fault::RegisterFault;
use crate::list_register::ListRegister;
use crate::ranges::in_range;
use crate::register::ConsentRegister;
use records::kinds::Consent;
use records::record::{Pair, Thing};
use records::set::RecordSet;

impl<'a> ListRegister<'a> {
    // An empty register. Fewer than 128 places are refused: every owner needs one at least.
    pub fn new(places: &'a mut [Consent]) -> Result<ListRegister<'a>, RegisterFault>
        ensures { MatchResult result (λ r. (128 ≤ length places.old) × (records r.set ≡ []) × (room r.set ≡ length places.old)) (λ f. (length places.old < 128) × (f ≡ Full)) }
    {
        if places.len() < 128 {
            return Err(RegisterFault::Full);
        }
        Ok(ListRegister::over(places))
    }

    pub(crate) fn over(places: &'a mut [Consent]) -> ListRegister<'a>
        requires { 128 ≤ length places.old }
        ensures none { records result.set ≡ [] }
        ensures room { room result.set ≡ length places.old }
    {
        ListRegister {
            set: RecordSet::new(places, usize::MAX),
        }
    }

    // How many consents the owner has.
    fn count(&self, owner: u16) -> usize
        ensures { result ≡ length (filter (of_owner owner) (records self.now.set)) }
    {
        let mut many = 0;
        for consent in self.set.as_slice() {
            if consent.owner == owner {
                many += 1;
            }
        }
        many
    }
}

impl<'a> ConsentRegister for ListRegister<'a> {
    ghost meaning = { λ s. list_meaning (room s.set) (records s.set) };

    ghost sound = { list_sound };

    fn limit(&self) -> u16 {
        (self.set.places() / 128).min(256) as u16
    }

    fn holds(&self, consent: Consent) -> bool {
        self.set.contains(&consent)
    }

    fn give(&mut self, consent: Consent) -> Result<(), RegisterFault> {
        in_range(consent)?;
        if self.set.contains(&consent) {
            return Err(RegisterFault::AlreadyGiven);
        }
        let limit = self.limit() as usize;
        if self.count(consent.owner) >= limit {
            return Err(RegisterFault::Full);
        }
        // It finds a place: the owner is under the limit.
        self.set.add(consent)?;
        Ok(())
    }

    fn withdraw(&mut self, consent: Consent) -> Result<(), RegisterFault> {
        in_range(consent)?;
        self.set.remove(&consent)?;
        Ok(())
    }

    fn erase(&mut self, owner: u16) {
        self.set.strike(Thing::Owner(owner));
    }

    fn strike(&mut self, pair: Pair) {
        self.set.strike(Thing::Pair(pair));
    }
}
