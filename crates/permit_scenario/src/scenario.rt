// One morning.
ghost use Rattle.std.specs.Prelude.{◌≡◌, true, [], ◌∷◌};
ghost use Rattle.permit_scenario.specs.Accounts.{all_add_up, owners_of};

use crate::desk::{Desk, LINES};
use crate::line::{Account, Line};
use ledger::place::Closing;

// What was written down, and the accounts of the two owners in the end.
#[derive(Drop)]
pub struct Morning {
    // none where no line was written
    pub lines: [Option<Line>; LINES],
    pub accounts: [Account; 2],
}

// Two clerks, in the sessions 1 and 2, see to the pay lines of the owners 4 and 5.
pub fn run() -> Morning
    ensures owners { owners_of result.accounts ≡ 4 ∷ 5 ∷ [] }
    ensures sums { all_add_up result.accounts ≡ true }
{
    let mut desk = Desk::open();

    // An owner has at most eight permits open: the ninth draw is refused.
    let first = desk.draw(1, 4);
    let second = desk.draw(1, 4);
    let third = desk.draw(1, 4);
    let fourth = desk.draw(2, 4);
    let fifth = desk.draw(2, 4);
    let sixth = desk.draw(2, 4);
    let seventh = desk.draw(1, 4);
    let eighth = desk.draw(1, 4);
    let ninth = desk.draw(1, 4);

    // The other owner is not concerned by that.
    let other = desk.draw(2, 5);

    // A place is free again once a permit is entered or handed back, and the serials go on.
    desk.settle(Closing::Entry, first);
    desk.settle(Closing::HandingBack, second);
    let tenth = desk.draw(1, 4);
    desk.settle(Closing::Entry, third);
    desk.settle(Closing::HandingBack, seventh);

    // When a session ends, its open permits lapse. They are spent all the same, and refused.
    desk.end(2);
    desk.settle(Closing::Entry, fourth);
    desk.settle(Closing::Entry, other);
    desk.settle(Closing::HandingBack, fifth);
    desk.settle(Closing::HandingBack, sixth);

    // The other session goes on.
    desk.settle(Closing::Entry, eighth);
    desk.settle(Closing::Entry, ninth);
    desk.settle(Closing::Entry, tenth);
    let _ = desk.see_twice(1, 5);

    Morning {
        accounts: [desk.account(4), desk.account(5)],
        lines: desk.lines,
    }
}
