// Which sessions end when a right is lost.
ghost use Rattle.std.specs.Prelude.{◌≡◌, ◌<◌};
ghost use Rattle.bits.specs.Tables.{count_below};
ghost use Rattle.bits.specs.Sets.{members};
ghost use Rattle.directory.specs.State.{is_open};
ghost use Rattle.directory.specs.Sessions.{authorised, is_meant, sessions_that, ended, reviewed};
ghost use Rattle.directory.specs.View.{session_state, state_of};
ghost use Rattle.directory.specs.declared.session.Which.TheVariants.{Stale};

use crate::directory::Directory;
use crate::session::{Session, Which};
use bits::set::{RoleSet, SessionSet};

impl Directory {
    // Whether the user may activate all of the wanted roles.
    pub fn is_authorised(&self, user: u16, wanted: RoleSet) -> bool
        ensures { result ≡ authorised (state_of self.now) user (members wanted) }
    {
        let assigned = self.user(user).unwrap_or(RoleSet::empty());
        wanted.is_subset(self.hierarchy.reach(assigned))
    }

    fn is_meant(&self, which: Which, session: Option<Session>) -> bool
        ensures { result ≡ is_meant (state_of self.now) which (session_state session) }
    {
        let Some(Session { user, active }) = session else {
            return false;
        };
        match which {
            Which::AllOpen => true,
            Which::OfUser(named) => user == named,
            Which::Stale => !self.is_authorised(user as u16, active),
        }
    }

    pub(crate) fn sessions_that(&self, which: Which) -> SessionSet
        ensures { members result ≡ sessions_that (state_of self.now) which }
    {
        let mut found = SessionSet::empty();
        for (number, session) in self.sessions.iter().enumerate() {
            if self.is_meant(which, *session) {
                found = found.with(number as u16);
            }
        }
        found
    }

    // How many sessions are open.
    pub fn open_sessions(&self) -> u32
        ensures { result ≡ count_below (λ s. is_open ((state_of self.now).session s)) 64 }
    {
        self.sessions_that(Which::AllOpen).len()
    }

    pub(crate) fn end_sessions(&mut self, which: SessionSet)
        ensures { state_of self.new ≡ ended (members which) (state_of self.old) }
    {
        for (number, session) in self.sessions.iter_mut().enumerate() {
            if which.contains(number as u16) {
                *session = None;
            }
        }
    }

    // Ends every stale session, and says which those were.
    pub(crate) fn review(&mut self) -> SessionSet
        ensures ended { members result ≡ sessions_that (state_of self.old) Stale }
        ensures left { state_of self.new ≡ reviewed (state_of self.old) }
    {
        let stale = self.sessions_that(Which::Stale);
        self.end_sessions(stale);
        stale
    }
}
