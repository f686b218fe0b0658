// Sets of small numbers, over a word of any width.
ghost use Rattle.std.specs.Prelude.{◌≡◌, ℕ, ◌+◌, ◌-◌, ◌*◌, ◌/◌, ◌%◌, ◌^◌, ◌<◌, true, false, if◌then◌else◌, Decides, bit_and, bit_or, nat_lt};
ghost use Rattle.bits.specs.Sets.{members, members_by, joined, spread, none, either, but, Meet, Within};
ghost use Rattle.bits.specs.Tables.{put, count_below};

use crate::word::Word;
use std::marker::PhantomData;

// A set over the numbers from 0 to the last bit of the word. K says what is numbered, and keeps sets of roles and sets of
// sessions apart. Clauses name its members by `members_by`: an `impl Model` could not use the number of a word, which is a
// member of the bound.
#[derive_where(Clone, Copy, PartialEq, Eq, Debug; W)]
pub struct BitSet<W, K> {
    bits: W,
    #[derive_where(skip)]
    of: PhantomData<K>,
}

pub enum Role {}

pub enum Session {}

pub enum DataType {}

// Sets over the numbers from 0 to 63.
pub type RoleSet = BitSet<u64, Role>;

pub type SessionSet = BitSet<u64, Session>;

// Sets over the numbers from 0 to 15.
pub type TypeSet = BitSet<u16, DataType>;

// What a set is made of and taken apart into, `from_bits`, `bits`, `from_words` and `words`, are calls with these names and
// no `From`: a caller sees which numbers are meant, and two of them promise two things.
impl<W: Word, K> BitSet<W, K> {
    // The set whose member n is the bit worth 2^n.
    pub fn from_bits(bits: W) -> BitSet<W, K>
        ensures { result.bits ≡ bits }
    {
        BitSet {
            bits,
            of: PhantomData,
        }
    }

    fn from_number(bits: u64) -> BitSet<W, K>
        requires { bits < 2 ^ W.WIDTH }
        ensures { W.value result.bits ≡ bits }
    {
        BitSet::from_bits(W::narrow(bits))
    }

    pub fn empty() -> BitSet<W, K>
        ensures value { W.value result.bits ≡ 0 }
        ensures members { members_by W.value result ≡ none }
    {
        BitSet::from_number(0)
    }

    pub fn bits(self) -> W
        ensures { result ≡ self.bits }
    {
        self.bits // the bit worth 2^n tells of member n
    }

    pub fn contains(self, n: u16) -> bool
        ensures { result ≡ members_by W.value self n }
    {
        let bits = self.bits.widen();
        n < W::WIDTH && (bits >> n) & 1 == 1
    }

    // The set and one member more; a number past the width adds nothing.
    pub fn with(self, n: u16) -> BitSet<W, K>
        ensures value { W.value result.bits ≡ (if nat_lt n W.WIDTH then bit_or (W.value self.bits) (2 ^ n) else W.value self.bits) }
        ensures members { members_by W.value result ≡ (if nat_lt n W.WIDTH then put n true (members_by W.value self) else members_by W.value self) }
    {
        let bits = self.bits.widen();
        if n >= W::WIDTH {
            return self;
        }
        BitSet::from_number(bits | 1 << n)
    }

    pub fn without(self, n: u16) -> BitSet<W, K>
        ensures value { W.value result.bits ≡ (if nat_lt n W.WIDTH then bit_and (W.value self.bits) (2 ^ W.WIDTH - 1 - 2 ^ n) else W.value self.bits) }
        ensures members { members_by W.value result ≡ put n false (members_by W.value self) }
    {
        let bits = self.bits.widen();
        if n >= W::WIDTH {
            return self;
        }
        BitSet::from_number(bits & !(1 << n))
    }

    pub fn union(self, other: BitSet<W, K>) -> BitSet<W, K>
        ensures value { W.value result.bits ≡ bit_or (W.value self.bits) (W.value other.bits) }
        ensures members { members_by W.value result ≡ either (members_by W.value self) (members_by W.value other) }
    {
        BitSet::from_number(self.bits.widen() | other.bits.widen())
    }

    // The members that the other set has not.
    pub fn minus(self, other: BitSet<W, K>) -> BitSet<W, K>
        ensures value { W.value result.bits ≡ bit_and (W.value self.bits) (2 ^ W.WIDTH - 1 - W.value other.bits) }
        ensures members { members_by W.value result ≡ but (members_by W.value self) (members_by W.value other) }
    {
        BitSet::from_number(self.bits.widen() & !other.bits.widen())
    }

    // Whether some number is a member of both.
    pub fn intersects(self, other: BitSet<W, K>) -> bool
        ensures { Decides result (Meet (members_by W.value self) (members_by W.value other)) }
    {
        self.bits.widen() & other.bits.widen() != 0
    }

    pub fn is_empty(self) -> bool
        ensures { Decides result (members_by W.value self ≡ none) }
    {
        self.bits.widen() == 0
    }

    // Whether every member is a member of the other set too.
    pub fn is_subset(self, other: BitSet<W, K>) -> bool
        ensures { Decides result (Within (members_by W.value self) (members_by W.value other)) }
    {
        self.minus(other).is_empty()
    }

    // Whether the two sets have the same members: they are then the same set. It is `==`, with what it means for the members.
    pub fn equals(self, other: BitSet<W, K>) -> bool
        ensures members { Decides result (members_by W.value self ≡ members_by W.value other) }
        ensures same { Decides result (self ≡ other) }
    {
        self == other
    }

    // How many members there are.
    pub fn len(self) -> u32
        ensures { result ≡ count_below (members_by W.value self) W.WIDTH }
    {
        self.bits.widen().count_ones()
    }
}

impl<K> BitSet<u64, K> {
    // The set in four words of 16 bits: the first has the members 0 to 15, the last 48 to 63.
    pub fn from_words(words: [u16; 4]) -> BitSet<u64, K>
        ensures value { result.bits ≡ joined words }
        ensures members { members result ≡ spread words }
    {
        let high = words[2] as u64 + 65_536 * words[3] as u64;
        let low = words[0] as u64 + 65_536 * words[1] as u64;
        BitSet::from_bits(low + 4_294_967_296 * high)
    }

    // The words that `from_words` makes the set of.
    pub fn words(self) -> [u16; 4]
        ensures value { joined result ≡ self.bits }
        ensures members { spread result ≡ members self }
    {
        let bits = self.bits;
        [
            (bits % 65_536) as u16,
            (bits / 65_536 % 65_536) as u16,
            (bits / 4_294_967_296 % 65_536) as u16,
            (bits / 281_474_976_710_656) as u16,
        ]
    }
}
