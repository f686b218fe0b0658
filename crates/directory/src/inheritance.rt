// The calls on inheritance.
ghost use Rattle.std.specs.Prelude.{◌≡◌};
ghost use Rattle.directory.specs.Answers.{answer_number, answer_ends, two_roles_answer, add_inheritance_answer, delete_inheritance_answer};
ghost use Rattle.directory.specs.Effects.{after_add_inheritance, delete_inheritance_ends, after_delete_inheritance};
ghost use Rattle.directory.specs.View.{state_of};

use crate::directory::Directory;
use crate::fault::DirectoryFault;
use bits::set::SessionSet;

impl Directory {
    // Whether both roles exist.
    fn two_roles(&self, ascendant: u16, descendant: u16) -> Result<(), DirectoryFault>
        ensures { answer_number result ≡ two_roles_answer (state_of self.now) ascendant descendant }
    {
        if ascendant >= 64 || descendant >= 64 {
            return Err(DirectoryFault::OutOfRange);
        }
        if !self.has_role(ascendant) || !self.has_role(descendant) {
            return Err(DirectoryFault::NoRole);
        }
        Ok(())
    }

    // Puts the ascendant directly above the descendant.
    pub fn add_inheritance(&mut self, ascendant: u16, descendant: u16) -> Result<(), DirectoryFault>
        ensures answer { answer_number result ≡ add_inheritance_answer (state_of self.old) ascendant descendant }
        ensures left { state_of self.new ≡ after_add_inheritance (state_of self.old) ascendant descendant }
    {
        self.two_roles(ascendant, descendant)?;
        let hierarchy = self.hierarchy;
        self.hierarchy = hierarchy.with_edge(ascendant, descendant)?;
        Ok(())
    }

    // The immediate pair goes, and nothing is put in the place of the chains that it carried; then every session of
    // every user is looked at. It gives back the sessions that ended.
    pub fn delete_inheritance(
        &mut self,
        ascendant: u16,
        descendant: u16,
    ) -> Result<SessionSet, DirectoryFault>
        ensures answer { answer_number result ≡ delete_inheritance_answer (state_of self.old) ascendant descendant }
        ensures ended { answer_ends result ≡ delete_inheritance_ends (state_of self.old) ascendant descendant }
        ensures left { state_of self.new ≡ after_delete_inheritance (state_of self.old) ascendant descendant }
    {
        self.two_roles(ascendant, descendant)?;
        let hierarchy = self.hierarchy;
        self.hierarchy = hierarchy.without_edge(ascendant, descendant)?;
        Ok(self.review())
    }
}
