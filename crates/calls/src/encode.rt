// From a command to the numbers of its record: its kind and its fields.
ghost use Rattle.std.specs.Prelude.{◌≡◌, ℕ, ◌≤◌, length, take};
ghost use Rattle.calls.specs.Layout.{layout, laid, directory_layout, consent_layout, session_layout, question_layout};
ghost use Rattle.calls.specs.Encoding.{written};

use crate::command::{Command, Consent, Directory, Question, Session};
use crate::encoded::Encoded;
use crate::layout::MAX_FIELDS;

impl Encoded {
    // A kind with its fields, in their order.
    fn new<const N: usize>(kind: u16, fields: [u16; N]) -> Encoded
        requires { N ≤ 4 }
        ensures { written result ≡ laid kind fields.entry }
    {
        let mut words = [0; MAX_FIELDS];
        words[..N].copy_from_slice(&fields);
        Encoded {
            kind,
            count: N,
            words,
        }
    }

    pub fn kind(&self) -> u16
        ensures { result ≡ (written self.now).kind }
    {
        self.kind
    }

    // The fields in their order.
    pub fn fields(&self) -> &[u16]
        ensures value { result.now ≡ (written self.now).fields }
        ensures few { length result.now ≤ 4 }
    {
        &self.words[0..self.count]
    }
}

// An `encode` for each family: no two arms are alike, so these are tables and no twins. One match over both enums (tried) is
// as long, and each of its patterns is broken over five lines.
impl Directory {
    fn encode(self) -> Encoded
        ensures { written result ≡ directory_layout self }
    {
        match self {
            Directory::AddUser { user } => Encoded::new(1, [user]),
            Directory::DeleteUser { user } => Encoded::new(2, [user]),
            Directory::AddRole { role } => Encoded::new(3, [role]),
            Directory::DeleteRole { role } => Encoded::new(4, [role]),
            Directory::Assign { user, role } => Encoded::new(5, [user, role]),
            Directory::Deassign { user, role } => Encoded::new(6, [user, role]),
            Directory::AddInheritance {
                ascendant,
                descendant,
            } => Encoded::new(7, [ascendant, descendant]),
            Directory::DeleteInheritance {
                ascendant,
                descendant,
            } => Encoded::new(8, [ascendant, descendant]),
            Directory::AddPlainObject { object } => Encoded::new(9, [object]),
            Directory::AddPersonalObject {
                object,
                owner,
                types,
            } => Encoded::new(10, [object, owner, types]),
            Directory::DeleteObject { object } => Encoded::new(11, [object]),
            Directory::GrantPlain {
                operation,
                object,
                role,
            } => Encoded::new(12, [operation, object, role]),
            Directory::RevokePlain {
                operation,
                object,
                role,
            } => Encoded::new(13, [operation, object, role]),
            Directory::GrantPrivate {
                operation,
                object,
                purpose,
                role,
            } => Encoded::new(14, [operation, object, purpose, role]),
            Directory::RevokePrivate {
                operation,
                object,
                purpose,
                role,
            } => Encoded::new(15, [operation, object, purpose, role]),
            Directory::AddOwner { owner } => Encoded::new(16, [owner]),
            Directory::DeleteOwner { owner } => Encoded::new(17, [owner]),
        }
    }
}

impl Consent {
    fn encode(self) -> Encoded
        ensures { written result ≡ consent_layout self }
    {
        match self {
            Consent::Offer { purpose, data_type } => Encoded::new(18, [purpose, data_type]),
            Consent::Retract { purpose, data_type } => Encoded::new(19, [purpose, data_type]),
            Consent::Give {
                owner,
                purpose,
                data_type,
            } => Encoded::new(20, [owner, purpose, data_type]),
            Consent::Withdraw {
                owner,
                purpose,
                data_type,
            } => Encoded::new(21, [owner, purpose, data_type]),
        }
    }
}

impl Session {
    fn encode(self) -> Encoded
        ensures { written result ≡ session_layout self }
    {
        match self {
            Session::Open { session, user } => Encoded::new(22, [session, user]),
            Session::End { session } => Encoded::new(23, [session]),
            Session::ActivateRole { session, role } => Encoded::new(24, [session, role]),
            Session::DropRole { session, role } => Encoded::new(25, [session, role]),
            Session::AccessPlain {
                session,
                operation,
                object,
            } => Encoded::new(26, [session, operation, object]),
            Session::Use {
                session,
                operation,
                object,
                purpose,
            } => Encoded::new(27, [session, operation, object, purpose]),
            Session::Look {
                session,
                operation,
                object,
                purpose,
            } => Encoded::new(28, [session, operation, object, purpose]),
        }
    }
}

impl Question {
    fn encode(self) -> Encoded
        ensures { written result ≡ question_layout self }
    {
        match self {
            Question::Authorised { user, role } => Encoded::new(29, [user, role]),
            Question::Consented {
                owner,
                purpose,
                data_type,
            } => Encoded::new(30, [owner, purpose, data_type]),
        }
    }
}

impl Command {
    // The kind and the fields by which `from_fields` gives the command back. The two are a pair of calls with clauses of their
    // own and no `From` and `TryFrom`, which have one each.
    pub fn encode(self) -> Encoded
        ensures { written result ≡ layout self }
    {
        match self {
            Command::Directory(command) => command.encode(),
            Command::Consent(command) => command.encode(),
            Command::Session(command) => command.encode(),
            Command::Question(command) => command.encode(),
        }
    }
}
