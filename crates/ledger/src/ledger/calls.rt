// What is done with a ledger.
ghost use Rattle.std.specs.Prelude.{◌≡◌, ◌+◌, [], ◌∷◌, IfOk, Some, count_by};
ghost use Rattle.ledger.specs.Answers.{answered, done_answer, serial_answer};
ghost use Rattle.ledger.specs.Places.{meets, permits_of, usage_in};
ghost use Rattle.ledger.specs.States.{state_of, empty_ledger, opens, counts_of, draw_questions, close_questions, closed, after_draw, after_close};

use super::{Ledger, places};
use crate::counts::Counts;
use crate::fault::LedgerFault;
use crate::place::{Closing, Place, Use, Which};

impl Ledger {
    pub(crate) fn new() -> Ledger
        ensures { state_of result ≡ empty_ledger }
    {
        Ledger {
            places: [Place::Empty; 8],
            issued: 0,
            entered: 0,
            handed_back: 0,
            lapsed: 0,
        }
    }

    // How many permits are open.
    fn open(&self) -> u16
        ensures { result ≡ opens (state_of self.now) }
    {
        self.issued - self.entered - self.handed_back - self.lapsed
    }

    pub(crate) fn counts(&self) -> Counts
        ensures value { result ≡ counts_of (state_of self.now) }
        ensures sum { result.issued ≡ result.entered + (result.handed_back + (result.lapsed + result.«open»)) }
    {
        Counts {
            issued: self.issued,
            entered: self.entered,
            handed_back: self.handed_back,
            lapsed: self.lapsed,
            open: self.open(),
        }
    }

    // What the open permit with this serial was drawn for.
    pub(crate) fn usage(&self, serial: u16) -> Option<Use>
        ensures { result ≡ usage_in (state_of self.now).places serial }
    {
        places::usage(&self.places, serial)
    }

    // Issues a permit and gives its serial.
    pub(crate) fn draw(&mut self, usage: Use) -> Result<u16, LedgerFault>
        ensures answer { serial_answer result ≡ answered (draw_questions (state_of self.old)) ((self.old.issued + 1) ∷ []) [] }
        ensures left { state_of self.new ≡ after_draw usage (state_of self.old) }
        ensures opened { IfOk result (λ n. usage_in self.new.places n ≡ Some usage) }
        ensures serial { IfOk result (λ n. (n ≡ self.old.issued + 1) × (n ≡ self.new.issued)) }
    {
        if self.open() >= 8 {
            return Err(LedgerFault::PlacesTaken);
        }
        if self.issued >= 65_535 {
            return Err(LedgerFault::SerialsUsedUp);
        }
        let serial = self.issued + 1;
        places::draw(&mut self.places, serial, usage);
        self.issued = serial;
        Ok(serial)
    }

    // Closes the permits that are meant and counts them.
    #[tactic(auto, using(crate::proofs::Closings::kept))]
    pub(crate) fn close(&mut self, which: Which, closing: Closing) -> u16
        ensures many { result ≡ count_by (meets (permits_of which)) self.old.places }
        ensures left { state_of self.new ≡ closed closing (permits_of which) (state_of self.old) }
    {
        let many = places::close(&mut self.places, which, closing);
        match closing {
            Closing::Entry => self.entered += many,
            Closing::HandingBack => self.handed_back += many,
            Closing::Lapse => self.lapsed += many,
        }
        many
    }

    // Closes one permit.
    pub(crate) fn settle(&mut self, serial: u16, closing: Closing) -> Result<(), LedgerFault>
        ensures answer { done_answer result ≡ answered (close_questions serial (state_of self.old)) [] [] }
        ensures left { state_of self.new ≡ after_close closing serial (state_of self.old) }
    {
        if self.close(Which::Serial(serial), closing) == 0 {
            return Err(LedgerFault::NotOpen);
        }
        Ok(())
    }
}
