use crate::session::Session;
use bits::set::RoleSet;
use hierarchy::hierarchy::Hierarchy;

// Clauses read it by `state_of`, since the value of an `impl Model` cannot have functions in it.
// Its tables go by number, in fixed memory.
#[derive(Drop)]
pub struct Directory {
    // the roles that each user is assigned to; none where there is no such user
    pub(crate) users: [Option<RoleSet>; 256],
    pub(crate) roles: RoleSet,
    pub(crate) hierarchy: Hierarchy,
    // none where the session is closed
    pub(crate) sessions: [Option<Session>; 64],
}
