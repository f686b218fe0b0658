// Reading a whole book, record after record.
ghost use Rattle.std.specs.Prelude.{◌≡◌, ℕ, ◌+◌, ◌^◌, ◌<◌};
ghost use Rattle.book.specs.Tiling.{Surveyed, counted};

use crate::records::Records;
use crate::types::{Survey, Tally};
use calls::command::Family;

impl Tally {
    fn count(&mut self, family: Family)
        requires { self.old.directory + self.old.consent + self.old.session + self.old.question + 1 < 2 ^ 64 }
        ensures { self.new ≡ counted family self.old }
    {
        match family {
            Family::Directory => self.directory += 1,
            Family::Consent => self.consent += 1,
            Family::Session => self.session += 1,
            Family::Question => self.question += 1,
        }
    }
}

// Reads a book from its first byte to its end or its first fault, and counts its records.
pub fn survey(book: &[u8]) -> Survey
    ensures { Surveyed book.now result }
{
    let mut tally = Tally::default();
    let mut records = Records::new(book);
    // step by step, since of a `for` over `&mut records` nobody knows where it stopped
    while let Some(record) = records.next() {
        tally.count(record.command().unwrap().family());
    }
    Survey {
        tally,
        ending: records.ending(),
    }
}
