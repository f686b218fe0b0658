// The calls on sessions.
ghost use Rattle.std.specs.Prelude.{◌≡◌, IfOk, Some};
ghost use Rattle.directory.specs.Answers.{answer_number, answer_ends, session_and_role_answer, open_answer, end_answer, activate_answer, drop_answer};
ghost use Rattle.directory.specs.Effects.{after_open, end_ends, after_end, after_activate, after_drop};
ghost use Rattle.directory.specs.View.{session_state, state_of};

use crate::directory::Directory;
use crate::fault::DirectoryFault;
use crate::session::Session;
use bits::set::{RoleSet, SessionSet};

impl Directory {
    // Opens a session for the user, with no active roles.
    pub fn open_session(&mut self, session: u16, user: u16) -> Result<(), DirectoryFault>
        ensures answer { answer_number result ≡ open_answer (state_of self.old) session user }
        ensures left { state_of self.new ≡ after_open (state_of self.old) session user }
    {
        if session >= 64 || user >= 256 {
            return Err(DirectoryFault::OutOfRange);
        }
        self.user(user).ok_or(DirectoryFault::NoUser)?;
        if self.is_open(session) {
            return Err(DirectoryFault::AlreadyThere);
        }
        let opened = Session {
            user: user as u8,
            active: RoleSet::empty(),
        };
        self.put_session(session, Some(opened));
        Ok(())
    }

    // Gives back the session, which has ended, as a set.
    pub fn end_session(&mut self, session: u16) -> Result<SessionSet, DirectoryFault>
        ensures answer { answer_number result ≡ end_answer (state_of self.old) session }
        ensures ended { answer_ends result ≡ end_ends (state_of self.old) session }
        ensures left { state_of self.new ≡ after_end (state_of self.old) session }
    {
        if session >= 64 {
            return Err(DirectoryFault::OutOfRange);
        }
        if !self.is_open(session) {
            return Err(DirectoryFault::NoSession);
        }
        self.put_session(session, None);
        Ok(SessionSet::empty().with(session))
    }

    // The open session, for a call that also names a role.
    fn session_for(&self, session: u16, role: u16) -> Result<Session, DirectoryFault>
        ensures answer { answer_number result ≡ session_and_role_answer (state_of self.now) session role }
        ensures found { IfOk result (λ x. session_state (Some x) ≡ (state_of self.now).session session) }
    {
        if session >= 64 || role >= 64 {
            return Err(DirectoryFault::OutOfRange);
        }
        if !self.has_role(role) {
            return Err(DirectoryFault::NoRole);
        }
        self.session(session).ok_or(DirectoryFault::NoSession)
    }

    // Switches on the named role and no other.
    pub fn activate_role(&mut self, session: u16, role: u16) -> Result<(), DirectoryFault>
        ensures answer { answer_number result ≡ activate_answer (state_of self.old) session role }
        ensures left { state_of self.new ≡ after_activate (state_of self.old) session role }
    {
        let Session { user, active } = self.session_for(session, role)?;
        if active.contains(role) {
            return Err(DirectoryFault::AlreadyThere);
        }
        if !self.is_authorised(user as u16, RoleSet::empty().with(role)) {
            return Err(DirectoryFault::NotAuthorised);
        }
        let active = active.with(role);
        self.put_session(session, Some(Session { user, active }));
        Ok(())
    }

    pub fn drop_role(&mut self, session: u16, role: u16) -> Result<(), DirectoryFault>
        ensures answer { answer_number result ≡ drop_answer (state_of self.old) session role }
        ensures left { state_of self.new ≡ after_drop (state_of self.old) session role }
    {
        let Session { user, active } = self.session_for(session, role)?;
        if !active.contains(role) {
            return Err(DirectoryFault::NotThere);
        }
        let active = active.without(role);
        self.put_session(session, Some(Session { user, active }));
        Ok(())
    }
}
