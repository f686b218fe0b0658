// Tests of the ledgers on examples, in a crate of their own.
#![tactic(auto)]

#[cfg(test)]
mod tests {
    use bits::set::SessionSet;
    use ledger::counts::Counts;
    use ledger::fault::{LedgerFault, answer_number};
    use ledger::ledgers::Ledgers;
    use ledger::permit::PermitNumber;
    use ledger::place::{Closing, Use};
    use ledger_laws::draws::draw_then_close;
    use ledger_laws::event::{LedgerEvent, OwnerCall};
    use ledger_laws::history::{history, next_answer};
    use std::test::Fail;

    fn usage(session: u16) -> Use {
        Use {
            session,
            operation: 3,
            object: 8,
            purpose: 2,
        }
    }

    fn counts(issued: u16, entered: u16, handed_back: u16, lapsed: u16, open: u16) -> Counts {
        Counts {
            issued,
            entered,
            handed_back,
            lapsed,
            open,
        }
    }

    fn permit(owner: u16, serial: u16) -> PermitNumber {
        PermitNumber { owner, serial }
    }

    fn entry_of(serial: u16) -> OwnerCall {
        OwnerCall::Close {
            serial,
            closing: Closing::Entry,
        }
    }

    // Ledgers in which owner 4 has eight permits open, four in session 1 and then four in session 2.
    fn eight_open() -> Ledgers {
        let mut ledgers = Ledgers::new();
        for n in 0..8u16 {
            let _ = ledgers.draw_serial(4, usage(1 + n / 4));
        }
        ledgers
    }

    #[test]
    fn a_ninth_permit_is_refused(rt: HostRuntime) {
        let mut ledgers = eight_open();
        assert_eq!(rt;
            ledgers.draw_serial(4, usage(1)),
            Err(LedgerFault::PlacesTaken)
        );
        assert_eq!(rt; ledgers.draw_serial(5, usage(1)), Ok(1));
        assert_eq!(rt; ledgers.counts(4), Ok(counts(8, 0, 0, 0, 8)));
    }

    #[test]
    fn a_place_that_is_free_again_is_taken(rt: HostRuntime) {
        let mut ledgers = eight_open();
        assert_eq!(rt;
            ledgers.close_serial(permit(4, 3), Closing::HandingBack),
            Ok(())
        );
        assert_eq!(rt; ledgers.draw_serial(4, usage(7)), Ok(9));
        assert_eq!(rt; ledgers.usage_of(permit(4, 9)), Ok(usage(7)));
        assert_eq!(rt; ledgers.usage_of(permit(4, 3)), Err(LedgerFault::NotOpen));
        assert_eq!(rt;
            ledgers.draw_serial(4, usage(7)),
            Err(LedgerFault::PlacesTaken)
        );
        assert_eq!(rt; ledgers.counts(4), Ok(counts(9, 0, 1, 0, 8)));
    }

    #[test]
    fn a_permit_is_closed_once(rt: HostRuntime) {
        let mut ledgers = eight_open();
        assert_eq!(rt; ledgers.close_serial(permit(4, 1), Closing::Entry), Ok(()));
        assert_eq!(rt;
            ledgers.close_serial(permit(4, 1), Closing::Entry),
            Err(LedgerFault::NotOpen)
        );
        assert_eq!(rt;
            ledgers.close_serial(permit(4, 1), Closing::HandingBack),
            Err(LedgerFault::NotOpen)
        );
        assert_eq!(rt; ledgers.close_serial(permit(4, 2), Closing::Lapse), Ok(()));
        assert_eq!(rt;
            ledgers.close_serial(permit(4, 2), Closing::Entry),
            Err(LedgerFault::NotOpen)
        );
        assert_eq!(rt;
            ledgers.close_serial(permit(4, 0), Closing::Entry),
            Err(LedgerFault::NotOpen)
        );
        assert_eq!(rt;
            ledgers.close_serial(permit(4, 9), Closing::Entry),
            Err(LedgerFault::NotOpen)
        );
        assert_eq!(rt;
            ledgers.close_serial(permit(5, 3), Closing::Entry),
            Err(LedgerFault::NotOpen)
        );
        assert_eq!(rt; ledgers.counts(4), Ok(counts(8, 1, 0, 1, 6)));
    }

    #[test]
    fn permits_lapse_with_their_sessions_and_their_owner(rt: HostRuntime) {
        let mut ledgers = eight_open();
        let _ = ledgers.draw_serial(127, usage(2));
        ledgers.lapse_sessions(SessionSet::empty().with(2).with(9));
        assert_eq!(rt; ledgers.counts(4), Ok(counts(8, 0, 0, 4, 4)));
        assert_eq!(rt; ledgers.counts(127), Ok(counts(1, 0, 0, 1, 0)));
        assert_eq!(rt;
            ledgers.close_serial(permit(4, 8), Closing::Entry),
            Err(LedgerFault::NotOpen)
        );
        assert_eq!(rt; ledgers.lapse_owner(4), Ok(()));
        assert_eq!(rt; ledgers.counts(4), Ok(counts(8, 0, 0, 8, 0)));
        assert_eq!(rt; ledgers.draw_serial(4, usage(1)), Ok(9));
    }

    #[test]
    fn an_owner_out_of_range_is_1(rt: HostRuntime) {
        let mut ledgers = eight_open();
        assert_eq!(rt; answer_number(&ledgers.draw_serial(128, usage(1))), 1);
        assert_eq!(rt;
            answer_number(&ledgers.close_serial(permit(128, 1), Closing::Entry)),
            1
        );
        assert_eq!(rt;
            answer_number(&ledgers.close_serial(permit(128, 1), Closing::HandingBack)),
            1
        );
        assert_eq!(rt;
            answer_number(&ledgers.close_serial(permit(128, 1), Closing::Lapse)),
            1
        );
        assert_eq!(rt; answer_number(&ledgers.lapse_owner(65_535)), 1);
        assert_eq!(rt; answer_number(&ledgers.usage_of(permit(128, 1))), 1);
        assert_eq!(rt; answer_number(&ledgers.counts(128)), 1);
    }

    #[test]
    fn serials_end_at_65_535(rt: HostRuntime) {
        let mut ledgers = Ledgers::new();
        for _ in 0..65_534u16 {
            let _ = draw_then_close(&mut ledgers, 4, usage(1), Closing::HandingBack);
        }
        assert_eq!(rt; ledgers.counts(4), Ok(counts(65_534, 0, 65_534, 0, 0)));
        assert_eq!(rt; ledgers.draw_serial(4, usage(1)), Ok(65_535));
        assert_eq!(rt;
            ledgers.draw_serial(4, usage(1)),
            Err(LedgerFault::SerialsUsedUp)
        );
        assert_eq!(rt;
            ledgers.close_serial(permit(4, 65_535), Closing::Entry),
            Ok(())
        );
        assert_eq!(rt;
            ledgers.draw_serial(4, usage(1)),
            Err(LedgerFault::SerialsUsedUp)
        );
        assert_eq!(rt; ledgers.draw_serial(5, usage(1)), Ok(1));
    }

    #[test]
    fn permits_are_drawn_and_spent(rt: HostRuntime) -> Result<(), Fail> {
        let mut ledgers = Ledgers::new();
        let mut first = ledgers.draw(4, usage(1))?;
        let number = answer_number(&ledgers.close(&mut first, Closing::Entry));
        assert_eq!(rt; number, 0);
        let mut second = ledgers.draw(4, usage(1))?;
        let PermitNumber { owner, serial } = second.number();
        let _ = ledgers.lapse_owner(owner);
        let number = answer_number(&ledgers.close(&mut second, Closing::Lapse));
        assert_eq!(rt; serial, 2);
        assert_eq!(rt; number, 18);
        assert_eq!(rt; ledgers.counts(4), Ok(counts(2, 1, 0, 1, 0)));
        Ok(())
    }

    #[test]
    fn events_are_run_in_their_order(rt: HostRuntime) {
        let draw = LedgerEvent::Of {
            owner: 4,
            call: OwnerCall::Draw(usage(1)),
        };
        let enter = LedgerEvent::Of {
            owner: 4,
            call: entry_of(2),
        };
        let end = LedgerEvent::SessionsEnd(SessionSet::empty().with(1));
        let mut ledgers = history(&[enter, draw, draw, enter, end, draw]);
        assert_eq!(rt; ledgers.counts(4), Ok(counts(3, 1, 0, 1, 1)));
        assert_eq!(rt;
            draw_then_close(&mut ledgers, 4, usage(2), Closing::Entry),
            Ok(())
        );
        assert_eq!(rt; ledgers.counts(4), Ok(counts(4, 2, 0, 1, 1)));
        assert_eq!(rt;
            answer_number(&next_answer(&[draw, end], 4, entry_of(1))),
            18
        );
    }
}
