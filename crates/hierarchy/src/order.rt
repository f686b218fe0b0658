// What is true of every hierarchy.
ghost use Rattle.hierarchy.specs.Inheritance.{pairs_in};
ghost use Rattle.hierarchy.specs.Laws.{Order};

use crate::hierarchy::Hierarchy;

impl Hierarchy {
    // Does nothing: it tells that the hierarchy is a partial order of the roles.
    pub fn stands(&self)
        ensures { Order (pairs_in self.now.juniors) }
    {}
}
