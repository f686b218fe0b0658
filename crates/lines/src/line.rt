ghost use Rattle.std.specs.Prelude.{◌≤◌};

// Room for the longest line, with every number at its longest.
pub const MAX_LINE: usize = 160;

// One line of output, in a buffer of its own: it takes no heap. An array with a length, since a caller may copy the
// value, also in a struct of its own: a struct that holds an `ArrayString`, or any value with a model, cannot be passed
// by value twice.
#[derive(Clone, Copy)]
pub struct Line {
    pub(crate) bytes: [u8; MAX_LINE],
    pub(crate) len: usize,
    ghost fits: { len ≤ 160 },
}

// "PLACE KIND", with which the line of a record begins.
#[derive(Clone, Copy, PartialEq, Eq, Debug)]
pub struct Head {
    pub place: usize,
    pub kind: u16,
}
