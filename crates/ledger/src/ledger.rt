// The ledger of one owner.
ghost use Rattle.std.specs.Prelude.{◌≡◌, ◌+◌, true, length, count_by};
ghost use Rattle.ledger.specs.Places.{is_open, inside, distinct};

use crate::place::Place;

mod calls;
mod places;

// Eight places, and the counts of what became of the permits that were issued. They start at 0 and are never reset.
#[derive(Clone, Copy)]
pub struct Ledger {
    places: [Place; 8],
    issued: u16,
    entered: u16,
    handed_back: u16,
    lapsed: u16,
    ghost eight: { length places ≡ 8 },
    ghost balance: { issued ≡ entered + (handed_back + (lapsed + count_by is_open places)) },
    ghost within: { inside issued places ≡ true },
    ghost apart: { distinct places ≡ true },
}
