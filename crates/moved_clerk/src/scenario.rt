// The calls. Role 1 leads payroll and role 3 leads the audit; both are put above role 2, the payroll clerk.
use directory_laws::call::DirectoryCall;
use directory_laws::turn::Turn;

pub const TURNS: usize = 31;

fn add_user(user: u16) -> Turn {
    Turn::new(DirectoryCall::AddUser { user })
}

fn delete_user(user: u16) -> Turn {
    Turn::new(DirectoryCall::DeleteUser { user })
}

fn add_role(role: u16) -> Turn {
    Turn::new(DirectoryCall::AddRole { role })
}

fn delete_role(role: u16) -> Turn {
    Turn::new(DirectoryCall::DeleteRole { role })
}

fn assign(user: u16, role: u16) -> Turn {
    Turn::new(DirectoryCall::Assign { user, role })
}

fn deassign(user: u16, role: u16) -> Turn {
    Turn::new(DirectoryCall::Deassign { user, role })
}

fn put_above(ascendant: u16, descendant: u16) -> Turn {
    Turn::new(DirectoryCall::AddInheritance {
        ascendant,
        descendant,
    })
}

fn no_longer_above(ascendant: u16, descendant: u16) -> Turn {
    Turn::new(DirectoryCall::DeleteInheritance {
        ascendant,
        descendant,
    })
}

fn open(session: u16, user: u16) -> Turn {
    Turn::new(DirectoryCall::OpenSession { session, user })
}

fn end(session: u16) -> Turn {
    Turn::new(DirectoryCall::EndSession { session })
}

fn activate(session: u16, role: u16) -> Turn {
    Turn::new(DirectoryCall::ActivateRole { session, role })
}

fn drop_role(session: u16, role: u16) -> Turn {
    Turn::new(DirectoryCall::DropRole { session, role })
}

fn may(user: u16, role: u16) -> Turn {
    Turn::new(DirectoryCall::Authorised { user, role })
}

pub fn turns() -> [Turn; TURNS] {
    [
        add_role(1),
        add_role(2),
        add_role(3),
        put_above(1, 2),
        put_above(3, 2),
        put_above(2, 1),
        add_user(7),
        add_user(8),
        add_user(9),
        assign(7, 1),
        assign(8, 1),
        assign(8, 3),
        // Clerk 7 works as payroll clerk by role 1 alone, clerk 8 by role 1 and by role 3.
        open(0, 7),
        open(1, 8),
        open(2, 9),
        activate(0, 2),
        activate(1, 2),
        activate(2, 2),
        // Clerk 7 is moved, and the session ends at once.
        deassign(7, 1),
        activate(0, 2),
        may(7, 2),
        // Clerk 8 is moved too, but role 3 still authorises.
        deassign(8, 1),
        may(8, 2),
        // Now that path goes as well.
        no_longer_above(3, 2),
        may(8, 2),
        // A session without active roles ends with its user, or by itself.
        delete_role(2),
        delete_user(9),
        open(5, 8),
        activate(5, 3),
        drop_role(5, 3),
        end(6),
    ]
}
