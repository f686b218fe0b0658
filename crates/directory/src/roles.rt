// The calls on roles.
ghost use Rattle.std.specs.Prelude.{◌≡◌, false};
ghost use Rattle.bits.specs.Tables.{put};
ghost use Rattle.directory.specs.Answers.{answer_number, answer_ends, add_role_answer, delete_role_answer};
ghost use Rattle.directory.specs.Effects.{after_add_role, delete_role_ends, after_delete_role};
ghost use Rattle.directory.specs.State.{with_assigned};
ghost use Rattle.directory.specs.View.{state_of};

use crate::directory::Directory;
use crate::fault::DirectoryFault;
use bits::set::SessionSet;

impl Directory {
    pub fn add_role(&mut self, role: u16) -> Result<(), DirectoryFault>
        ensures answer { answer_number result ≡ add_role_answer (state_of self.old) role }
        ensures left { state_of self.new ≡ after_add_role (state_of self.old) role }
    {
        if role >= 64 {
            return Err(DirectoryFault::OutOfRange);
        }
        if self.has_role(role) {
            return Err(DirectoryFault::AlreadyThere);
        }
        self.roles = self.roles.with(role);
        Ok(())
    }

    // The role's assignments and inheritances go; then every session of every user is looked at. It gives back the
    // sessions that ended.
    pub fn delete_role(&mut self, role: u16) -> Result<SessionSet, DirectoryFault>
        ensures answer { answer_number result ≡ delete_role_answer (state_of self.old) role }
        ensures ended { answer_ends result ≡ delete_role_ends (state_of self.old) role }
        ensures left { state_of self.new ≡ after_delete_role (state_of self.old) role }
    {
        if role >= 64 {
            return Err(DirectoryFault::OutOfRange);
        }
        if !self.has_role(role) {
            return Err(DirectoryFault::NoRole);
        }
        self.roles = self.roles.without(role);
        self.unassign_all(role);
        let hierarchy = self.hierarchy;
        self.hierarchy = hierarchy.without_role(role);
        Ok(self.review())
    }

    // Takes the role from every user.
    fn unassign_all(&mut self, role: u16)
        ensures { state_of self.new ≡ with_assigned (λ u. put role false ((state_of self.old).assigned u)) (state_of self.old) }
    {
        for roles in self.users.iter_mut() {
            if let Some(assigned) = roles {
                *assigned = assigned.without(role);
            }
        }
    }
}
