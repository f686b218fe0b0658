// The calls on users and their assignments. A user and a role, as a session and a role or two roles, are numbers of a
// command with a question for each: a struct for the two would be made at each call only to be taken apart there.
ghost use Rattle.std.specs.Prelude.{◌≡◌, IfOk};
ghost use Rattle.bits.specs.Sets.{members};
ghost use Rattle.directory.specs.Answers.{answer_number, answer_ends, user_and_role_answer, add_user_answer, delete_user_answer, assign_answer, deassign_answer, authorised_answer};
ghost use Rattle.directory.specs.Effects.{after_add_user, delete_user_ends, after_delete_user, after_assign, deassign_ends, after_deassign};
ghost use Rattle.directory.specs.View.{state_of};

use crate::directory::Directory;
use crate::fault::DirectoryFault;
use crate::session::Which;
use bits::set::{RoleSet, SessionSet};

impl Directory {
    pub fn add_user(&mut self, user: u16) -> Result<(), DirectoryFault>
        ensures answer { answer_number result ≡ add_user_answer (state_of self.old) user }
        ensures left { state_of self.new ≡ after_add_user (state_of self.old) user }
    {
        if user >= 256 {
            return Err(DirectoryFault::OutOfRange);
        }
        if self.user(user).is_some() {
            return Err(DirectoryFault::AlreadyThere);
        }
        self.put_user(user, Some(RoleSet::empty()));
        Ok(())
    }

    // The user's sessions end and the user's assignments go. It gives back the sessions that ended.
    pub fn delete_user(&mut self, user: u16) -> Result<SessionSet, DirectoryFault>
        ensures answer { answer_number result ≡ delete_user_answer (state_of self.old) user }
        ensures ended { answer_ends result ≡ delete_user_ends (state_of self.old) user }
        ensures left { state_of self.new ≡ after_delete_user (state_of self.old) user }
    {
        if user >= 256 {
            return Err(DirectoryFault::OutOfRange);
        }
        self.user(user).ok_or(DirectoryFault::NoUser)?;
        let ended = self.sessions_that(Which::OfUser(user as u8));
        self.end_sessions(ended);
        self.put_user(user, None);
        Ok(ended)
    }

    // The roles of a user who exists, for a call that also names a role.
    fn roles_of(&self, user: u16, role: u16) -> Result<RoleSet, DirectoryFault>
        ensures answer { answer_number result ≡ user_and_role_answer (state_of self.now) user role }
        ensures roles { IfOk result (λ roles. members roles ≡ (state_of self.now).assigned user) }
    {
        if user >= 256 || role >= 64 {
            return Err(DirectoryFault::OutOfRange);
        }
        let roles = self.user(user).ok_or(DirectoryFault::NoUser)?;
        if !self.has_role(role) {
            return Err(DirectoryFault::NoRole);
        }
        Ok(roles)
    }

    pub fn assign(&mut self, user: u16, role: u16) -> Result<(), DirectoryFault>
        ensures answer { answer_number result ≡ assign_answer (state_of self.old) user role }
        ensures left { state_of self.new ≡ after_assign (state_of self.old) user role }
    {
        let roles = self.roles_of(user, role)?;
        if roles.contains(role) {
            return Err(DirectoryFault::AlreadyThere);
        }
        self.put_user(user, Some(roles.with(role)));
        Ok(())
    }

    // The assignment goes; then every session of every user is looked at. It gives back the sessions that ended.
    pub fn deassign(&mut self, user: u16, role: u16) -> Result<SessionSet, DirectoryFault>
        ensures answer { answer_number result ≡ deassign_answer (state_of self.old) user role }
        ensures ended { answer_ends result ≡ deassign_ends (state_of self.old) user role }
        ensures left { state_of self.new ≡ after_deassign (state_of self.old) user role }
    {
        let roles = self.roles_of(user, role)?;
        if !roles.contains(role) {
            return Err(DirectoryFault::NotThere);
        }
        self.put_user(user, Some(roles.without(role)));
        Ok(self.review())
    }

    // Whether the user may activate the role.
    pub fn authorised(&self, user: u16, role: u16) -> Result<(), DirectoryFault>
        ensures { answer_number result ≡ authorised_answer (state_of self.now) user role }
    {
        self.roles_of(user, role)?;
        if !self.is_authorised(user, RoleSet::empty().with(role)) {
            return Err(DirectoryFault::NotAuthorised);
        }
        Ok(())
    }
}
