// A place of a ledger, and the events that it takes.
ghost use Rattle.std.specs.Prelude.{◌≡◌, not};
ghost use Rattle.ledger.specs.Places.{is_open, place_answer, place_after, meets, cleared, permits_of, usage_at};
ghost use Rattle.ledger.specs.Answers.{done_answer};

use crate::fault::LedgerFault;
use bits::set::SessionSet;

// What a permit is drawn for.
#[derive(Clone, Copy, PartialEq, Eq, Debug)]
pub struct Use {
    pub session: u16,
    pub operation: u16,
    pub object: u16,
    pub purpose: u16,
}

// An enum of its own and not an `Option`: a rule of the project has it matched together with the event, and changed in place.
#[derive(Clone, Copy)]
pub enum Place {
    Empty,
    Open { serial: u16, usage: Use },
}

// How a permit stops being open.
#[derive(Clone, Copy, PartialEq, Eq, Debug)]
pub enum Closing {
    Entry,
    HandingBack,
    Lapse,
}

#[derive(Clone, Copy)]
pub enum Event {
    Draw { serial: u16, usage: Use },
    Close(Closing),
}

// Which open permits are meant. An enum and not a closure: the contracts name by it which these are.
#[derive(Clone, Copy)]
pub enum Which {
    Serial(u16),
    Sessions(SessionSet),
    All,
}

impl Which {
    pub(crate) fn means(self, serial: u16, usage: Use) -> bool
        ensures { result ≡ permits_of self serial usage }
    {
        match self {
            Which::Serial(wanted) => wanted == serial,
            Which::Sessions(sessions) => sessions.contains(usage.session),
            Which::All => true,
        }
    }
}

impl Place {
    // An empty place takes a draw, an open one takes the others. What does not fit is refused.
    pub fn take(&mut self, event: Event) -> Result<(), LedgerFault>
        ensures answer { done_answer result ≡ place_answer self.old event }
        ensures left { self.new ≡ place_after self.old event }
    {
        match (*self, event) {
            (Place::Empty, Event::Draw { serial, usage }) => {
                *self = Place::Open { serial, usage };
                Ok(())
            }
            (Place::Open { .. }, Event::Close(_)) => {
                *self = Place::Empty;
                Ok(())
            }
            (Place::Open { .. }, Event::Draw { .. }) => Err(LedgerFault::PlacesTaken),
            (Place::Empty, Event::Close(_)) => Err(LedgerFault::NotOpen),
        }
    }

    pub(crate) fn is_empty(&self) -> bool
        ensures { result ≡ not (is_open self.now) }
    {
        matches!(self, Place::Empty)
    }

    pub(crate) fn usage(&self) -> Option<Use>
        ensures { result ≡ usage_at self.now }
    {
        match self {
            Place::Empty => None,
            Place::Open { usage, .. } => Some(*usage),
        }
    }

    // Whether there is an open permit here that is meant.
    pub(crate) fn meets(&self, which: Which) -> bool
        ensures { result ≡ meets (permits_of which) self.now }
    {
        match self {
            Place::Empty => false,
            Place::Open { serial, usage } => which.means(*serial, *usage),
        }
    }

    // Closes the permit here if it is meant, and says whether it was.
    pub(crate) fn close(&mut self, which: Which, closing: Closing) -> bool
        ensures met { result ≡ meets (permits_of which) self.old }
        ensures left { self.new ≡ cleared (permits_of which) self.old }
    {
        self.meets(which) && self.take(Event::Close(closing)).is_ok()
    }
}
