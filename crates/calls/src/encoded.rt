ghost use Rattle.std.specs.Prelude.{◌≤◌};

use crate::layout::MAX_FIELDS;

// The numbers of a record: its kind, and its fields, which are the first words. An array with a count, since a caller
// may copy the value, also in a struct of its own: `ArrayVec` is not `Copy`, and a struct that holds one with a model
// (tried) cannot be passed by value twice.
#[derive(Clone, Copy)]
pub struct Encoded {
    pub(crate) kind: u16,
    pub(crate) count: usize,
    pub(crate) words: [u16; MAX_FIELDS],
    ghost few: { count ≤ 4 },
}
