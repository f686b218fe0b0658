// Records without repeats, in a slice that the caller provides.
ghost use Rattle.std.specs.Prelude.{◌≡◌, ◌≤◌, min, true, length, take};
ghost use Rattle.records.specs.Lists.{apart};

use crate::record::Record;

// Why a record is not added or removed.
#[derive(Clone, Copy, PartialEq, Eq, Debug)]
pub enum SetFault {
    AlreadyThere = 9,
    NotThere = 10,
    NoPlace = 13,
}

// The first `count` places of a slice that the caller provides, of which at most `cap` are used. Places past the count
// are free. A count stands beside the places and no `Vec`: a set has no heap, and its places are the caller's.
#[derive(Drop)]
pub struct RecordSet<'a, T: Record> {
    pub(crate) places: &'a mut [T],
    // a number beside the places and no shorter slice: they are lent whole, and how many are used is the set's own
    pub(crate) cap: usize,
    pub(crate) count: usize,
    ghost within: { count ≤ min (length places.now) cap },
    ghost alone: { apart T.equal (take count places.now) ≡ true },
}
