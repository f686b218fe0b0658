// The reach of a set of roles.
ghost use Rattle.std.specs.Prelude.{◌≡◌, ℕ, ◌<◌, true, ◌&&◌, Decides, nat_lt};
ghost use Rattle.bits.specs.Sets.{members};
ghost use Rattle.hierarchy.specs.Inheritance.{pairs_in};
ghost use Rattle.hierarchy.specs.Chains.{Above};
ghost use Rattle.hierarchy.specs.Reach.{juniors_of, reach_of, above_or_equal};
ghost use Rattle.hierarchy.specs.Laws.{Exactly, Reached};

use crate::hierarchy::Hierarchy;
use bits::set::RoleSet;

impl Hierarchy {
    // Whether the senior is put directly above the junior.
    pub fn is_immediate(&self, senior: u16, junior: u16) -> bool
        ensures { result ≡ pairs_in self.now.juniors senior junior }
    {
        self.juniors
            .get(senior as usize)
            .is_some_and(|juniors| juniors.contains(junior))
    }

    fn juniors_of(&self, set: RoleSet) -> RoleSet
        ensures { members result ≡ juniors_of (pairs_in self.now.juniors) (members set) }
    {
        let mut found = RoleSet::empty();
        for (role, juniors) in self.juniors.iter().enumerate() {
            if set.contains(role as u16) {
                found = found.union(*juniors);
            }
        }
        found
    }

    // Every role that a member of the set is above or equal to. Each round goes one step down from the last; the
    // rounds come to an end because no chain goes round, and there are at most 64 of them.
    pub fn reach(&self, set: RoleSet) -> RoleSet
        ensures value { members result ≡ reach_of (pairs_in self.now.juniors) (members set) }
        ensures reached { (k : ℕ) → Exactly (members result k ≡ true) (Reached (pairs_in self.now.juniors) (members set) k) }
    {
        let mut frontier = set;
        let mut all = set;
        while !frontier.is_empty() {
            frontier = self.juniors_of(frontier);
            all = all.union(frontier);
        }
        all
    }

    // Whether the senior is above or equal to the junior; a number out of range is neither.
    pub fn above_or_equal(&self, senior: u16, junior: u16) -> bool
        ensures value { result ≡ (nat_lt senior 64 && above_or_equal (pairs_in self.now.juniors) senior junior) }
        ensures chain { Decides result ((senior < 64) × Above (pairs_in self.now.juniors) senior junior) }
    {
        self.reach(RoleSet::empty().with(senior)).contains(junior)
    }
}
