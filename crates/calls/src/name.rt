// The name by which a command is shown to a person.
ghost use Rattle.std.specs.Prelude.{◌≡◌, ◌≤◌, length};
ghost use Rattle.calls.specs.Name.{command_name};

use crate::command::{Command, Consent, Directory, Question, Session};

impl Command {
    // A text and no `Display`: the lines put its bytes into their buffers, and what a formatter promises holds only
    // where it succeeds.
    pub fn name(self) -> &'static str
        ensures value { result.now ≡ command_name self }
        ensures short { length result.now ≤ 20 }
    {
        match self {
            Command::Directory(Directory::AddUser { .. }) => "add user",
            Command::Directory(Directory::DeleteUser { .. }) => "delete user",
            Command::Directory(Directory::AddRole { .. }) => "add role",
            Command::Directory(Directory::DeleteRole { .. }) => "delete role",
            Command::Directory(Directory::Assign { .. }) => "assign",
            Command::Directory(Directory::Deassign { .. }) => "deassign",
            Command::Directory(Directory::AddInheritance { .. }) => "add inheritance",
            Command::Directory(Directory::DeleteInheritance { .. }) => "delete inheritance",
            Command::Directory(Directory::AddPlainObject { .. }) => "add plain object",
            Command::Directory(Directory::AddPersonalObject { .. }) => "add personal object",
            Command::Directory(Directory::DeleteObject { .. }) => "delete object",
            Command::Directory(Directory::GrantPlain { .. }) => "grant",
            Command::Directory(Directory::RevokePlain { .. }) => "revoke",
            Command::Directory(Directory::GrantPrivate { .. }) => "grant private",
            Command::Directory(Directory::RevokePrivate { .. }) => "revoke private",
            Command::Directory(Directory::AddOwner { .. }) => "add owner",
            Command::Directory(Directory::DeleteOwner { .. }) => "delete owner",
            Command::Consent(Consent::Offer { .. }) => "offer",
            Command::Consent(Consent::Retract { .. }) => "retract",
            Command::Consent(Consent::Give { .. }) => "give",
            Command::Consent(Consent::Withdraw { .. }) => "withdraw",
            Command::Session(Session::Open { .. }) => "open session",
            Command::Session(Session::End { .. }) => "end session",
            Command::Session(Session::ActivateRole { .. }) => "activate role",
            Command::Session(Session::DropRole { .. }) => "drop role",
            Command::Session(Session::AccessPlain { .. }) => "plain access",
            Command::Session(Session::Use { .. }) => "use",
            Command::Session(Session::Look { .. }) => "look",
            Command::Question(Question::Authorised { .. }) => "authorised",
            Command::Question(Question::Consented { .. }) => "consent",
        }
    }
}
