// Walks over the places of a ledger.
ghost use Rattle.std.specs.Prelude.{◌≡◌, ◌≤◌, not, map, length, position, count_by};
ghost use Rattle.ledger.specs.Places.{is_open, meets, cleared, placed, permits_of, usage_in};

use crate::place::{Closing, Event, Place, Use, Which};

// Where the first empty place is.
fn first_empty(places: &[Place]) -> Option<usize>
    ensures { result ≡ position (λ p. not (is_open p)) places.now }
{
    places.iter().position(|place| place.is_empty())
}

// The first empty place takes the draw.
pub(super) fn draw(places: &mut [Place], serial: u16, usage: Use)
    ensures { places.new ≡ placed serial usage places.old }
{
    if let Some(at) = first_empty(places) {
        let _ = places[at].take(Event::Draw { serial, usage });
    }
}

// Closes the permits that are meant, and says how many there were. A loop and no chain: a place is changed as it is counted,
// and of what a closure changed a proof knows nothing.
pub(super) fn close(places: &mut [Place], which: Which, closing: Closing) -> u16
    requires { length places.old ≤ 8 }
    ensures many { result ≡ count_by (meets (permits_of which)) places.old }
    ensures few { result ≤ count_by is_open places.old }
    ensures left { places.new ≡ map (cleared (permits_of which)) places.old }
{
    let mut closed = 0;
    for place in places.iter_mut() {
        if place.close(which, closing) {
            closed += 1;
        }
    }
    closed
}

// What the open permit with this serial was drawn for.
pub(super) fn usage(places: &[Place], serial: u16) -> Option<Use>
    ensures { result ≡ usage_in places.now serial }
{
    places
        .iter()
        .find(|place| place.meets(Which::Serial(serial)))
        .and_then(|place| place.usage())
}
