// The words that a set keeps its members in.
ghost use Rattle.std.specs.Prelude.{◌≡◌, ℕ, ◌%◌, ◌^◌, ◌<◌, ◌≤◌, ◌==◌};
ghost use Rattle.std.proofs.Common.{rules};

// A word of WIDTH bits, read as a number.
pub trait Word: Copy + Eq {
    ghost value: { Self → ℕ };

    ghost WIDTH: { ℕ };

    const WIDTH: u16;

    // The number of the word.
    fn widen(self) -> u64
        ensures value { result ≡ value self }
        ensures fits { result < 2 ^ WIDTH };

    // The word of the number, of which the bits past the width are left out. The two conversions are calls of this trait and
    // no `From`: a width has to be said with them.
    fn narrow(bits: u64) -> Self
        ensures { value result ≡ bits % 2 ^ WIDTH };

    // No word is wider than 64 bits.
    ghost width: { WIDTH ≤ 64 };

    // Words are equal where their numbers are, and are then the same word.
    ghost equal: { (v w : Self) → Self.eq v w ≡ (value v == value w) };

    ghost same: { (v w : Self) → value v ≡ value w → v ≡ w };
}

impl Word for u16 {
    ghost value = { λ w. w };

    ghost WIDTH = { 16 };

    const WIDTH: u16 = 16;

    ghost width = { Prim.search rules };

    ghost equal = { Prim.search rules };

    ghost same = { Prim.search rules };

    fn widen(self) -> u64 {
        self as u64
    }

    fn narrow(bits: u64) -> u16 {
        (bits % 65_536) as u16
    }
}

impl Word for u64 {
    ghost value = { λ w. w };

    ghost WIDTH = { 64 };

    const WIDTH: u16 = 64;

    ghost width = { Prim.search rules };

    ghost equal = { Prim.search rules };

    ghost same = { Prim.search rules };

    fn widen(self) -> u64 {
        self
    }

    fn narrow(bits: u64) -> u64 {
        bits
    }
}
