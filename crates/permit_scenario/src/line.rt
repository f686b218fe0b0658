// What is written down of a morning.
ghost use Rattle.std.specs.Prelude.{◌≡◌, Some};
ghost use Rattle.permit_scenario.specs.declared.line.Line.TheVariants.{Ended};
ghost use Rattle.permit_scenario.specs.Texts.{verb_text, line_text, account_text};

use ledger::counts::Counts;
use ledger::fault::LedgerFault;
use ledger::permit::PermitNumber;
use ledger::place::Closing;
use std::fmt;

// A call and what it was answered.
#[derive(Clone, Copy)]
pub enum Line {
    Drawn {
        session: u16,
        owner: u16,
        answer: Result<u16, LedgerFault>,
    },
    Spent {
        number: PermitNumber,
        closing: Closing,
        answer: Result<(), LedgerFault>,
    },
    Ended {
        session: u16,
    },
}

// What a caller's own list of lines may keep where none was written. By hand, since a derive takes a case with no fields.
impl Default for Line {
    ghost is_default = { λ l. l ≡ Ended 0 };

    fn default() -> Self {
        Line::Ended { session: 0 }
    }
}

// No `Display` of a closing: these words are this morning's, and the type is of another crate.
fn verb(closing: Closing) -> &'static str
    ensures { result.now ≡ verb_text closing }
{
    match closing {
        Closing::Entry => "enter",
        Closing::HandingBack => "hand back",
        Closing::Lapse => "lapse",
    }
}

impl fmt::Display for Line {
    ghost output = { λ l. Some (line_text l) };

    fn fmt<W: fmt::Write>(&self, f: &mut fmt::Formatter<W>) -> fmt::Result {
        match *self {
            Line::Drawn {
                session,
                owner,
                answer: Ok(serial),
            } => write!(
                f,
                "session {session}: draw for owner {owner}: permit {serial}"
            ),
            Line::Drawn {
                session,
                owner,
                answer: Err(fault),
            } => {
                let number = fault.number();
                write!(
                    f,
                    "session {session}: draw for owner {owner}: refused with {number}"
                )
            }
            Line::Spent {
                number: PermitNumber { owner, serial },
                closing,
                answer: Ok(()),
            } => {
                let verb = verb(closing);
                write!(f, "{verb} permit {serial} of owner {owner}: accepted")
            }
            Line::Spent {
                number: PermitNumber { owner, serial },
                closing,
                answer: Err(fault),
            } => {
                let verb = verb(closing);
                let number = fault.number();
                write!(
                    f,
                    "{verb} permit {serial} of owner {owner}: refused with {number}"
                )
            }
            Line::Ended { session } => write!(f, "session {session} ends"),
        }
    }
}

// The account of an owner.
#[derive(Clone, Copy)]
pub struct Account {
    pub owner: u16,
    pub counts: Counts,
}

// The counts, and below them their sum.
impl fmt::Display for Account {
    ghost output = { λ a. Some (account_text a) };

    fn fmt<W: fmt::Write>(&self, f: &mut fmt::Formatter<W>) -> fmt::Result {
        let owner = self.owner;
        let Counts {
            issued,
            entered,
            handed_back,
            lapsed,
            open,
        } = self.counts;
        writeln!(
            f,
            "owner {owner}: issued {issued}, entered {entered}, handed back {handed_back}, lapsed {lapsed}, open {open}"
        )?;
        write!(
            f,
            "  {issued} = {entered} + {handed_back} + {lapsed} + {open}"
        )
    }
}
