// Reading and writing one place of a directory's tables.
ghost use Rattle.std.specs.Prelude.{◌≡◌, ℕ, ◌<◌, is_some};
ghost use Rattle.bits.specs.Tables.{put};
ghost use Rattle.bits.specs.Sets.{members};
ghost use Rattle.directory.specs.State.{bare, is_open, active_in, with_users, with_assigned};
ghost use Rattle.directory.specs.Effects.{put_session};
ghost use Rattle.directory.specs.View.{roles_in, session_state, state_of};

use crate::directory::Directory;
use crate::session::Session;
use bits::set::RoleSet;
use hierarchy::hierarchy::Hierarchy;

impl Directory {
    // A directory with nothing in it.
    pub fn new() -> Directory
        ensures { state_of result ≡ bare }
    {
        Directory {
            users: [None; 256],
            roles: RoleSet::empty(),
            hierarchy: Hierarchy::new(),
            sessions: [None; 64],
        }
    }

    // The roles that the user is assigned to; none where there is no such user.
    pub(crate) fn user(&self, user: u16) -> Option<RoleSet>
        ensures exists { is_some result ≡ (state_of self.now).user user }
        ensures roles { roles_in result ≡ (state_of self.now).assigned user }
    {
        *self.users.get(user as usize)?
    }

    pub fn has_role(&self, role: u16) -> bool
        ensures { result ≡ (state_of self.now).role role }
    {
        self.roles.contains(role)
    }

    // The session of this number; none where it is closed, or the number is out of range.
    pub fn session(&self, session: u16) -> Option<Session>
        ensures { session_state result ≡ (state_of self.now).session session }
    {
        *self.sessions.get(session as usize)?
    }

    pub fn is_open(&self, session: u16) -> bool
        ensures { result ≡ is_open ((state_of self.now).session session) }
    {
        self.session(session).is_some()
    }

    // The active roles of the session: none where it is closed.
    pub fn active_roles(&self, session: u16) -> RoleSet
        ensures { members result ≡ active_in ((state_of self.now).session session) }
    {
        match self.session(session) {
            Some(found) => found.active,
            None => RoleSet::empty(),
        }
    }

    pub(crate) fn put_user(&mut self, user: u16, roles: Option<RoleSet>)
        requires { user < 256 }
        ensures { state_of self.new ≡ with_users (put user (is_some roles) (state_of self.old).user) (with_assigned (put user (roles_in roles) (state_of self.old).assigned) (state_of self.old)) }
    {
        self.users[user as usize] = roles;
    }

    pub(crate) fn put_session(&mut self, session: u16, value: Option<Session>)
        requires { session < 64 }
        ensures { state_of self.new ≡ put_session session (session_state value) (state_of self.old) }
    {
        self.sessions[session as usize] = value;
    }
}
