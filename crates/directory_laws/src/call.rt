// The calls on a directory.
ghost use Rattle.std.specs.Prelude.{Some};
ghost use Rattle.directory_laws.specs.Texts.{call_text};

use std::fmt;

// A field holds any 16 bits: whether a number is in range is each call's first question.
#[derive(Clone, Copy)]
pub enum DirectoryCall {
    AddUser { user: u16 },
    DeleteUser { user: u16 },
    AddRole { role: u16 },
    DeleteRole { role: u16 },
    Assign { user: u16, role: u16 },
    Deassign { user: u16, role: u16 },
    AddInheritance { ascendant: u16, descendant: u16 },
    DeleteInheritance { ascendant: u16, descendant: u16 },
    OpenSession { session: u16, user: u16 },
    EndSession { session: u16 },
    ActivateRole { session: u16, role: u16 },
    DropRole { session: u16, role: u16 },
    Authorised { user: u16, role: u16 },
}

// The call in words, as an account of calls begins its lines.
impl fmt::Display for DirectoryCall {
    ghost output = { λ c. Some (call_text c) };

    fn fmt<W: fmt::Write>(&self, f: &mut fmt::Formatter<W>) -> fmt::Result {
        match *self {
            DirectoryCall::AddUser { user } => write!(f, "add user {user}"),
            DirectoryCall::DeleteUser { user } => write!(f, "delete user {user}"),
            DirectoryCall::AddRole { role } => write!(f, "add role {role}"),
            DirectoryCall::DeleteRole { role } => write!(f, "delete role {role}"),
            DirectoryCall::Assign { user, role } => {
                write!(f, "assign user {user} to role {role}")
            }
            DirectoryCall::Deassign { user, role } => {
                write!(f, "deassign user {user} from role {role}")
            }
            DirectoryCall::AddInheritance {
                ascendant,
                descendant,
            } => write!(f, "put role {ascendant} above role {descendant}"),
            DirectoryCall::DeleteInheritance {
                ascendant,
                descendant,
            } => write!(f, "put role {ascendant} no longer above role {descendant}"),
            DirectoryCall::OpenSession { session, user } => {
                write!(f, "open session {session} for user {user}")
            }
            DirectoryCall::EndSession { session } => write!(f, "end session {session}"),
            DirectoryCall::ActivateRole { session, role } => {
                write!(f, "activate role {role} in session {session}")
            }
            DirectoryCall::DropRole { session, role } => {
                write!(f, "drop role {role} in session {session}")
            }
            DirectoryCall::Authorised { user, role } => {
                write!(f, "may user {user} activate role {role}")
            }
        }
    }
}
