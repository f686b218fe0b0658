// A desk where permits are drawn and spent. Every permit that it draws has to be spent: the prover refuses a host that
// loses one, or that spends one twice.
ghost use Rattle.std.specs.Prelude.{◌≡◌, true, false, IfOk};
ghost use Rattle.permit_scenario.specs.Accounts.{adds_up};

use crate::line::{Account, Line};
use bits::set::SessionSet;
use ledger::fault::LedgerFault;
use ledger::ledgers::Ledgers;
use ledger::permit::Permit;
use ledger::place::{Closing, Use};

// How many lines are written down.
pub const LINES: usize = 32;

#[derive(Drop)]
pub(crate) struct Desk {
    ledgers: Ledgers,
    pub(crate) lines: [Option<Line>; LINES],
}

impl Desk {
    pub(crate) fn open() -> Desk {
        Desk {
            ledgers: Ledgers::new(),
            lines: [None; LINES],
        }
    }

    // Where there is no room left, the line is not written down.
    fn write(&mut self, line: Line) {
        if let Some(at) = self.lines.iter().position(|place| place.is_none()) {
            self.lines[at] = Some(line);
        }
    }

    // Draws a permit for the pay line of an owner.
    pub(crate) fn draw(&mut self, session: u16, owner: u16) -> Result<Permit, LedgerFault>
        ensures { IfOk result (λ p. p.spent ≡ false) }
    {
        let usage = Use {
            session,
            operation: 1,
            object: owner,
            purpose: 2,
        };
        let drawn = self.ledgers.draw(owner, usage);
        let answer = drawn
            .as_ref()
            .map(|permit| permit.number().serial)
            .map_err(|fault| *fault);
        self.write(Line::Drawn {
            session,
            owner,
            answer,
        });
        drawn
    }

    // Spends a permit. To enter it is to see the pay line, to hand it back is not to need it.
    fn spend(&mut self, closing: Closing, permit: &mut Permit)
        requires { permit.old.spent ≡ false }
        ensures { permit.new.spent ≡ true }
    {
        let answer = self.ledgers.close(permit, closing);
        self.write(Line::Spent {
            number: permit.number(),
            closing,
            answer,
        });
    }

    // Spends what was drawn, if anything was.
    pub(crate) fn settle(&mut self, closing: Closing, drawn: Result<Permit, LedgerFault>)
        requires { IfOk drawn (λ p. p.spent ≡ false) }
    {
        if let Ok(mut permit) = drawn {
            self.spend(closing, &mut permit);
        }
    }

    // Sees a pay line twice. Each time wants a permit of its own.
    pub(crate) fn see_twice(&mut self, session: u16, owner: u16) -> Result<(), LedgerFault> {
        let mut first = self.draw(session, owner)?;
        self.spend(Closing::Entry, &mut first);
        let mut second = self.draw(session, owner)?;
        self.spend(Closing::Entry, &mut second);
        Ok(())
    }

    // A session ends, and its open permits lapse.
    pub(crate) fn end(&mut self, session: u16) {
        self.ledgers
            .lapse_sessions(SessionSet::empty().with(session));
        self.write(Line::Ended { session });
    }

    pub(crate) fn account(&self, owner: u16) -> Account
        ensures owner { result.owner ≡ owner }
        ensures sum { adds_up result.counts ≡ true }
    {
        let counts = self.ledgers.counts(owner).unwrap_or_default();
        Account { owner, counts }
    }
}
