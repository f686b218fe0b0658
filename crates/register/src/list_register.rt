ghost use Rattle.std.specs.Prelude.{◌≤◌};
ghost use Rattle.records.specs.Sets.{records, room};
ghost use Rattle.register.specs.ListMeaning.{share, Inside, Under};

use records::kinds::Consent;
use records::set::RecordSet;

// A list of consents in places that the caller provides. Each of the 128 owners has an equal share of the places for
// itself, so that an owner under the limit finds a place whatever the other owners hold.
#[derive(Drop)]
pub struct ListRegister<'a> {
    pub(crate) set: RecordSet<'a, Consent>,
    ghost inside: { Inside (records set) },
    ghost under: { Under (share (room set)) (records set) },
    ghost enough: { 128 ≤ room set },
}
