// Sessions, and which of them are meant.
use bits::set::RoleSet;

// A session that is open. Where a session is closed there is none.
#[derive(Clone, Copy, PartialEq, Eq)]
pub struct Session {
    pub user: u8,
    pub active: RoleSet,
}

// Which sessions are meant: every open one, those of a user, or those with an active role that their user is not
// authorised for. An enum and no closure: the contracts name by it which sessions are meant.
#[derive(Clone, Copy, PartialEq, Eq, Debug)]
pub enum Which {
    AllOpen,
    OfUser(u8),
    Stale,
}
