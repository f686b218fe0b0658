// A new set, and what a set is asked.
ghost use Rattle.std.specs.Prelude.{◌≡◌, ◌≤◌, min, true, [], length, take};
ghost use Rattle.records.specs.Lists.{holds, apart};
ghost use Rattle.records.specs.Sets.{records, room, fault_number};

use crate::record::Record;
use crate::set::{RecordSet, SetFault};

impl SetFault {
    pub fn number(self) -> u8
        ensures { result ≡ fault_number self }
    {
        self as u8
    }
}

impl<'a, T: Record + Copy> RecordSet<'a, T> {
    // An empty set over these places, of which at most `cap` are ever used.
    pub fn new(places: &'a mut [T], cap: usize) -> RecordSet<'a, T>
        ensures none { records result ≡ [] }
        ensures room { room result ≡ min (length places.old) cap }
    {
        RecordSet {
            places,
            cap,
            count: 0,
        }
    }

    // How many records there are.
    pub fn len(&self) -> usize
        ensures many { result ≡ length (records self.now) }
        ensures fits { result ≤ length self.now.places.now }
        ensures front { take result self.now.places.now ≡ records self.now }
    {
        self.count
    }

    // How many records there is room for.
    pub fn places(&self) -> usize
        ensures { result ≡ room self.now }
    {
        self.places.len().min(self.cap)
    }

    // The records in their order. No two are the same: that is an invariant of the type.
    pub fn as_slice(&self) -> &[T]
        ensures value { result.now ≡ records self.now }
        ensures apart { apart T.equal (records self.now) ≡ true }
    {
        &self.places[..self.count]
    }

    pub fn contains(&self, item: &T) -> bool
        ensures { result ≡ holds T.equal (records self.now) item.now }
    {
        self.as_slice().iter().any(|record| record.same(item))
    }
}
