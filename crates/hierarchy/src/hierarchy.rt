// The hierarchy of the roles.
ghost use Rattle.hierarchy.specs.Inheritance.{pairs_in, Bounded};
ghost use Rattle.hierarchy.specs.Chains.{Acyclic};

use bits::set::RoleSet;

// Each role's immediate juniors. No value of this type has a role above itself by a chain of one or more steps, and
// none names a role out of range. Clauses read it by `pairs_in`, since the value of an `impl Model` cannot be a function.
#[derive(Clone, Copy)]
pub struct Hierarchy {
    pub(crate) juniors: [RoleSet; 64],
    ghost acyclic: { Acyclic (pairs_in juniors) },
    ghost inside: { Bounded (pairs_in juniors) },
}
