// The three kinds of records: plain grants, private grants and consents.
ghost use Rattle.std.specs.Prelude.{◌≡◌, Decides};
ghost use Rattle.records.specs.Kinds.{same_plain, names_plain, same_private, names_private, names_grant, same_consent, names_consent};
ghost use Rattle.std.proofs.Common.{rules};
ghost use Rattle.std.specs.Cmp.Rules.{comparing};

use crate::record::{Pair, Record, Thing};

// A role may do an operation on a plain object. It names the role and the object.
#[derive(Clone, Copy, PartialEq, Eq, Debug)]
pub struct PlainGrant {
    pub operation: u16,
    pub object: u16,
    pub role: u16,
}

// A role may do an operation on a personal object for one purpose. It names the role and the object.
#[derive(Clone, Copy, PartialEq, Eq, Debug)]
pub struct PrivateGrant {
    pub operation: u16,
    pub object: u16,
    pub purpose: u16,
    pub role: u16,
}

// An owner's consent to one purpose and one data type. It names the owner and the pair of the two.
#[derive(Clone, Copy, PartialEq, Eq, Debug)]
pub struct Consent {
    pub owner: u16,
    pub purpose: u16,
    pub data_type: u16,
}

fn grant_names(object: u16, role: u16, thing: Thing) -> bool
    ensures { result ≡ names_grant object role thing }
{
    match thing {
        Thing::Role(named) => named == role,
        Thing::Object(named) => named == object,
        Thing::Owner(_) => false,
        Thing::Pair(_) => false,
    }
}

impl Record for PlainGrant {
    ghost equal = { same_plain };

    ghost naming = { names_plain };

    ghost laws = { Prim.search (comparing, rules) };

    fn same(&self, plain: &PlainGrant) -> bool
        ensures value { result ≡ same_plain self.now plain.now }
        ensures fields { Decides result (self.now ≡ plain.now) }
    {
        self == plain
    }

    fn names(&self, thing: Thing) -> bool {
        grant_names(self.object, self.role, thing)
    }
}

impl Record for PrivateGrant {
    ghost equal = { same_private };

    ghost naming = { names_private };

    ghost laws = { Prim.search (comparing, rules) };

    fn same(&self, private: &PrivateGrant) -> bool
        ensures value { result ≡ same_private self.now private.now }
        ensures fields { Decides result (self.now ≡ private.now) }
    {
        self == private
    }

    fn names(&self, thing: Thing) -> bool {
        grant_names(self.object, self.role, thing)
    }
}

impl Record for Consent {
    ghost equal = { same_consent };

    ghost naming = { names_consent };

    ghost laws = { Prim.search (comparing, rules) };

    fn same(&self, consent: &Consent) -> bool
        ensures value { result ≡ same_consent self.now consent.now }
        ensures fields { Decides result (self.now ≡ consent.now) }
    {
        self == consent
    }

    fn names(&self, thing: Thing) -> bool {
        match thing {
            Thing::Role(_) => false,
            Thing::Object(_) => false,
            Thing::Owner(owner) => self.owner == owner,
            Thing::Pair(pair) => self.purpose == pair.purpose && self.data_type == pair.data_type,
        }
    }
}
