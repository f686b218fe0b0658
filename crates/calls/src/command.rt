// The commands, as types: four families, each case with its fields by name.
// A field holds any 16 bits: whether a number is in range is the kernel's first question.
// No comparisons and no `Debug`: to derive them takes three quarters of the crate's checking time, and nothing needs them.

// Who there is and what they may do: users, roles, objects, grants and owners.
#[derive(Clone, Copy)]
pub enum Directory {
    AddUser {
        user: u16,
    },
    DeleteUser {
        user: u16,
    },
    AddRole {
        role: u16,
    },
    DeleteRole {
        role: u16,
    },
    Assign {
        user: u16,
        role: u16,
    },
    Deassign {
        user: u16,
        role: u16,
    },
    AddInheritance {
        ascendant: u16,
        descendant: u16,
    },
    DeleteInheritance {
        ascendant: u16,
        descendant: u16,
    },
    AddPlainObject {
        object: u16,
    },
    AddPersonalObject {
        object: u16,
        owner: u16,
        types: u16,
    },
    DeleteObject {
        object: u16,
    },
    GrantPlain {
        operation: u16,
        object: u16,
        role: u16,
    },
    RevokePlain {
        operation: u16,
        object: u16,
        role: u16,
    },
    GrantPrivate {
        operation: u16,
        object: u16,
        purpose: u16,
        role: u16,
    },
    RevokePrivate {
        operation: u16,
        object: u16,
        purpose: u16,
        role: u16,
    },
    AddOwner {
        owner: u16,
    },
    DeleteOwner {
        owner: u16,
    },
}

// What an owner may be asked for, and what the owner has said to it.
#[derive(Clone, Copy)]
pub enum Consent {
    Offer {
        purpose: u16,
        data_type: u16,
    },
    Retract {
        purpose: u16,
        data_type: u16,
    },
    Give {
        owner: u16,
        purpose: u16,
        data_type: u16,
    },
    Withdraw {
        owner: u16,
        purpose: u16,
        data_type: u16,
    },
}

// What a user does at the desk.
#[derive(Clone, Copy)]
pub enum Session {
    Open {
        session: u16,
        user: u16,
    },
    End {
        session: u16,
    },
    ActivateRole {
        session: u16,
        role: u16,
    },
    DropRole {
        session: u16,
        role: u16,
    },
    AccessPlain {
        session: u16,
        operation: u16,
        object: u16,
    },
    Use {
        session: u16,
        operation: u16,
        object: u16,
        purpose: u16,
    },
    Look {
        session: u16,
        operation: u16,
        object: u16,
        purpose: u16,
    },
}

// What changes nothing.
#[derive(Clone, Copy)]
pub enum Question {
    Authorised {
        user: u16,
        role: u16,
    },
    Consented {
        owner: u16,
        purpose: u16,
        data_type: u16,
    },
}

#[derive(Clone, Copy)]
pub enum Command {
    Directory(Directory),
    Consent(Consent),
    Session(Session),
    Question(Question),
}

#[derive(Clone, Copy, PartialEq, Eq, Debug)]
pub enum Family {
    Directory,
    Consent,
    Session,
    Question,
}
