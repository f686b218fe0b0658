// From the numbers of a record, its kind and its fields, to the command. A kind is a number of the format, and any
// number may stand in its place; the enum of the kinds is `Command`, and a second one would name all thirty again.
ghost use Rattle.std.specs.Prelude.{◌≡◌, ℕ, ◌≤◌, ◌&&◌, length, is_some, IfSome, if◌then◌else◌, Some, None, ◌==◌};
ghost use Rattle.calls.specs.declared.command.Command.{Command as AnyCommand};
ghost use Rattle.calls.specs.Layout.{layout, laid, family_of, family_of_kind, field_count, known};

use crate::command::{Command, Consent, Directory, Family, Question, Session};

// No command has more fields.
pub const MAX_FIELDS: usize = 4;

// How many fields a record of each kind has, which a reader asks before it has the fields.
const FIELD_COUNTS: [usize; 31] = [
    0, // no kind
    1, // 1 add user
    1, // 2 delete user
    1, // 3 add role
    1, // 4 delete role
    2, // 5 assign
    2, // 6 deassign
    2, // 7 add inheritance
    2, // 8 delete inheritance
    1, // 9 add plain object
    3, // 10 add personal object
    1, // 11 delete object
    3, // 12 grant
    3, // 13 revoke
    4, // 14 grant private
    4, // 15 revoke private
    1, // 16 add owner
    1, // 17 delete owner
    2, // 18 offer
    2, // 19 retract
    3, // 20 give
    3, // 21 withdraw
    2, // 22 open session
    1, // 23 end session
    2, // 24 activate role
    2, // 25 drop role
    3, // 26 plain access
    4, // 27 use
    4, // 28 look
    2, // 29 authorised
    3, // 30 consent
];

// How many fields a record of this kind has; 0 where there is no such kind, so that every record has a size, also one
// that a caller put together.
// That there are at most four is a clause of each call that says so; the type that holds a count, `Encoded`, has it as a fact.
pub fn fields_of(kind: u16) -> usize
    ensures value { result ≡ field_count kind }
    ensures few { result ≤ 4 }
{
    FIELD_COUNTS.get(kind as usize).copied().unwrap_or(0)
}

// The same, with none where there is no such kind.
pub fn field_count(kind: u16) -> Option<usize>
    ensures value { result ≡ (if known kind then Some (field_count kind) else None) }
    ensures few { IfSome result (λ n. n ≤ 4) }
{
    if kind == 0 || kind > 30 {
        return None;
    }
    Some(fields_of(kind))
}

impl Family {
    // The family of a kind; none where there is no such kind. A kind has a family and does not become one: no `TryFrom`.
    pub fn of(kind: u16) -> Option<Family>
        ensures { result ≡ family_of_kind kind }
    {
        match kind {
            1..=17 => Some(Family::Directory),
            18..=21 => Some(Family::Consent),
            22..=28 => Some(Family::Session),
            29..=30 => Some(Family::Question),
            _ => None,
        }
    }
}

impl Command {
    // The command of this kind with these fields, in their order; none where no command has both.
    pub fn from_fields(kind: u16, fields: &[u16]) -> Option<Command>
        ensures found { IfSome result (λ c. layout c ≡ laid kind fields.now) }
        ensures only { (c : AnyCommand) → layout c ≡ laid kind fields.now → result ≡ Some c }
        ensures test { is_some result ≡ (known kind && length fields.now == field_count kind) }
    {
        match (kind, fields) {
            (1, &[user]) => Some(Command::Directory(Directory::AddUser { user })),
            (2, &[user]) => Some(Command::Directory(Directory::DeleteUser { user })),
            (3, &[role]) => Some(Command::Directory(Directory::AddRole { role })),
            (4, &[role]) => Some(Command::Directory(Directory::DeleteRole { role })),
            (5, &[user, role]) => Some(Command::Directory(Directory::Assign { user, role })),
            (6, &[user, role]) => Some(Command::Directory(Directory::Deassign { user, role })),
            (7, &[ascendant, descendant]) => Some(Command::Directory(Directory::AddInheritance {
                ascendant,
                descendant,
            })),
            (8, &[ascendant, descendant]) => Some(Command::Directory(
                Directory::DeleteInheritance {
                    ascendant,
                    descendant,
                },
            )),
            (9, &[object]) => Some(Command::Directory(Directory::AddPlainObject { object })),
            (10, &[object, owner, types]) => Some(Command::Directory(
                Directory::AddPersonalObject {
                    object,
                    owner,
                    types,
                },
            )),
            (11, &[object]) => Some(Command::Directory(Directory::DeleteObject { object })),
            (12, &[operation, object, role]) => Some(Command::Directory(Directory::GrantPlain {
                operation,
                object,
                role,
            })),
            (13, &[operation, object, role]) => Some(Command::Directory(Directory::RevokePlain {
                operation,
                object,
                role,
            })),
            (14, &[operation, object, purpose, role]) => Some(Command::Directory(
                Directory::GrantPrivate {
                    operation,
                    object,
                    purpose,
                    role,
                },
            )),
            (15, &[operation, object, purpose, role]) => Some(Command::Directory(
                Directory::RevokePrivate {
                    operation,
                    object,
                    purpose,
                    role,
                },
            )),
            (16, &[owner]) => Some(Command::Directory(Directory::AddOwner { owner })),
            (17, &[owner]) => Some(Command::Directory(Directory::DeleteOwner { owner })),
            (18, &[purpose, data_type]) => Some(Command::Consent(Consent::Offer {
                purpose,
                data_type,
            })),
            (19, &[purpose, data_type]) => Some(Command::Consent(Consent::Retract {
                purpose,
                data_type,
            })),
            (20, &[owner, purpose, data_type]) => Some(Command::Consent(Consent::Give {
                owner,
                purpose,
                data_type,
            })),
            (21, &[owner, purpose, data_type]) => Some(Command::Consent(Consent::Withdraw {
                owner,
                purpose,
                data_type,
            })),
            (22, &[session, user]) => Some(Command::Session(Session::Open { session, user })),
            (23, &[session]) => Some(Command::Session(Session::End { session })),
            (24, &[session, role]) => Some(Command::Session(Session::ActivateRole {
                session,
                role,
            })),
            (25, &[session, role]) => Some(Command::Session(Session::DropRole { session, role })),
            (26, &[session, operation, object]) => Some(Command::Session(Session::AccessPlain {
                session,
                operation,
                object,
            })),
            (27, &[session, operation, object, purpose]) => Some(Command::Session(Session::Use {
                session,
                operation,
                object,
                purpose,
            })),
            (28, &[session, operation, object, purpose]) => Some(Command::Session(Session::Look {
                session,
                operation,
                object,
                purpose,
            })),
            (29, &[user, role]) => Some(Command::Question(Question::Authorised { user, role })),
            (30, &[owner, purpose, data_type]) => Some(Command::Question(Question::Consented {
                owner,
                purpose,
                data_type,
            })),
            _ => None,
        }
    }

    // The family that the command belongs to, which is that of its kind.
    pub fn family(self) -> Family
        ensures value { result ≡ family_of self }
        ensures of_kind { family_of_kind (layout self).kind ≡ Some result }
    {
        match self {
            Command::Directory(_) => Family::Directory,
            Command::Consent(_) => Family::Consent,
            Command::Session(_) => Family::Session,
            Command::Question(_) => Family::Question,
        }
    }
}
