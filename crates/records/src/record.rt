// What a set has to know of its records.
ghost use Rattle.std.specs.Prelude.{◌≡◌, Bool};
ghost use Rattle.std.specs.Cmp.{IsEquivalence};
ghost use Rattle.records.specs.declared.record.Thing.{Thing};

// A purpose and a data type.
#[derive(Clone, Copy, PartialEq, Eq, Debug)]
pub struct Pair {
    pub purpose: u16,
    pub data_type: u16,
}

// What a record may name, and what a set can strike records by.
#[derive(Clone, Copy, PartialEq, Eq, Debug)]
pub enum Thing {
    Role(u16),
    Object(u16),
    Owner(u16),
    Pair(Pair),
}

// A record tells whether it is the same as another, and whether it names a thing. A set uses of sameness only that it is an
// equivalence: it is `==` for the kinds here, and no `Eq` is asked, since for another kind `==` may tell more.
pub trait Record {
    ghost equal: { Self → Self → Bool };

    ghost naming: { Self → Thing → Bool };

    fn same(&self, other: &Self) -> bool
        ensures { result ≡ equal self.now other.now };

    fn names(&self, thing: Thing) -> bool
        ensures { result ≡ naming self.now thing };

    ghost laws: { IsEquivalence equal };
}
