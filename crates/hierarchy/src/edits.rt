// Edits of a hierarchy: each takes it by value and gives the edited one back whole. A pair is two numbers, the senior first,
// as in every definition: a struct would be made at each call only to be taken apart there.
ghost use Rattle.std.specs.Prelude.{◌≡◌, ℕ, ◌<◌, true, false, ◌&&◌, ◌||◌, is_ok, IfOk, IfErr, ◌==◌};
ghost use Rattle.hierarchy.specs.Inheritance.{pairs_in};
ghost use Rattle.hierarchy.specs.Edits.{edit_number, in_range, add_answer, remove_answer, put_pair, without_role};
ghost use Rattle.hierarchy.specs.declared.fault.HierarchyFault.TheVariants.{OutOfRange};
ghost use Rattle.hierarchy.specs.Laws.{Joined, Cut};

use crate::fault::HierarchyFault;
use crate::hierarchy::Hierarchy;
use bits::set::RoleSet;

// Both numbers are of roles, or the pair is refused.
fn in_range(senior: u16, junior: u16) -> Result<(), HierarchyFault>
    ensures value { is_ok result ≡ in_range senior junior }
    ensures both { IfOk result (λ _. (senior < 64) × (junior < 64)) }
    ensures refused { IfErr result (λ f. f ≡ OutOfRange) }
{
    if senior >= 64 || junior >= 64 {
        return Err(HierarchyFault::OutOfRange);
    }
    Ok(())
}

impl Hierarchy {
    // No role above another.
    pub fn new() -> Hierarchy
        ensures { pairs_in result.juniors ≡ (λ _ _. false) }
    {
        Hierarchy {
            juniors: [RoleSet::empty(); 64],
        }
    }

    // Puts the senior directly above the junior.
    pub fn with_edge(self, senior: u16, junior: u16) -> Result<Hierarchy, HierarchyFault>
        ensures answer { edit_number result ≡ add_answer (pairs_in self.juniors) senior junior }
        ensures left { IfOk result (λ h. pairs_in h.juniors ≡ put_pair senior junior true (pairs_in self.juniors)) }
        ensures above { IfOk result (λ h. Joined (pairs_in self.juniors) senior junior (pairs_in h.juniors)) }
    {
        in_range(senior, junior)?;
        if self.juniors[senior as usize].contains(junior) {
            return Err(HierarchyFault::AlreadyThere);
        }
        let circle = self.above_or_equal(junior, senior);
        if circle {
            return Err(HierarchyFault::Circle);
        }
        let mut juniors = self.juniors;
        juniors[senior as usize] = juniors[senior as usize].with(junior);
        Ok(Hierarchy { juniors })
    }

    // Takes the immediate pair out. Nothing is put in the place of the chains that it carried.
    pub fn without_edge(self, senior: u16, junior: u16) -> Result<Hierarchy, HierarchyFault>
        ensures answer { edit_number result ≡ remove_answer (pairs_in self.juniors) senior junior }
        ensures left { IfOk result (λ h. pairs_in h.juniors ≡ put_pair senior junior false (pairs_in self.juniors)) }
        ensures above { IfOk result (λ h. Cut (pairs_in self.juniors) (λ x y. (x == senior) && y == junior) (pairs_in h.juniors)) }
    {
        in_range(senior, junior)?;
        if !self.juniors[senior as usize].contains(junior) {
            return Err(HierarchyFault::NotThere);
        }
        let mut juniors = self.juniors;
        juniors[senior as usize] = juniors[senior as usize].without(junior);
        Ok(Hierarchy { juniors })
    }

    // Takes out every pair that names the role, on either side.
    pub fn without_role(self, role: u16) -> Hierarchy
        ensures left { pairs_in result.juniors ≡ without_role role (pairs_in self.juniors) }
        ensures above { Cut (pairs_in self.juniors) (λ x y. (x == role) || y == role) (pairs_in result.juniors) }
    {
        if role >= 64 {
            return self;
        }
        let mut juniors = self.juniors;
        for row in juniors.iter_mut() {
            *row = row.without(role);
        }
        juniors[role as usize] = RoleSet::empty();
        Hierarchy { juniors }
    }
}
