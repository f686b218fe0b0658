// Tests of both makes of the register on the same calls, in a crate of their own.
#![tactic(auto)]

#[cfg(test)]
mod tests {
    use account::number::number;
    use records::kinds::Consent;
    use records::record::Pair;
    use register::bit_register::BitRegister;
    use register::fault::RegisterFault;
    use register::lent::Lent;
    use register::list_register::ListRegister;
    use register::open::{Job, open_list};
    use register::register::ConsentRegister;
    use std::test::Fail;

    // What the calls of `answers_of` are to be answered.
    const ANSWERS: [u8; 12] = [0, 9, 1, 1, 1, 10, 1, 0, 0, 0, 10, 0];

    fn consent(owner: u16, purpose: u16, data_type: u16) -> Consent {
        Consent {
            owner,
            purpose,
            data_type,
        }
    }

    fn pair(purpose: u16, data_type: u16) -> Pair {
        Pair { purpose, data_type }
    }

    // One table of calls, for whichever make.
    fn answers_of<R: ConsentRegister>(register: &mut R) -> [u8; 12] {
        [
            number(register.give(consent(3, 2, 1))),
            number(register.give(consent(3, 2, 1))),
            number(register.give(consent(128, 0, 0))),
            number(register.give(consent(0, 16, 0))),
            number(register.give(consent(0, 0, 16))),
            number(register.withdraw(consent(3, 2, 2))),
            number(register.withdraw(consent(128, 0, 0))),
            number(register.give(consent(127, 15, 15))),
            number(register.give(consent(4, 2, 1))),
            number(register.withdraw(consent(3, 2, 1))),
            number(register.withdraw(consent(3, 2, 1))),
            number(register.give(consent(3, 2, 1))),
        ]
    }

    // What is held after these calls, after an erasure and after a strike.
    fn held_after<R: ConsentRegister>(register: &mut R) -> [bool; 8] {
        let before = register.holds(consent(4, 2, 1));
        register.erase(4);
        register.erase(128);
        let erased = register.holds(consent(4, 2, 1));
        let other = register.holds(consent(3, 2, 1));
        register.strike(pair(16, 1));
        register.strike(pair(2, 16));
        let out_of_range = register.holds(consent(3, 2, 1));
        register.strike(pair(2, 1));
        [
            before,
            erased,
            other,
            out_of_range,
            register.holds(consent(3, 2, 1)),
            register.holds(consent(127, 15, 15)),
            register.holds(consent(128, 0, 0)),
            register.holds(consent(127, 15, 14)),
        ]
    }

    const HELD: [bool; 8] = [true, false, true, true, false, true, false, false];

    // The calls done with a list register, and what came of them.
    #[derive(Drop)]
    struct Trial {
        limit: u16,
        answers: [u8; 12],
        held: [bool; 8],
        third: u8,
        neighbour: u8,
    }

    // Numbers that no call is answered with, where nothing was answered yet.
    fn not_begun() -> Trial {
        Trial {
            limit: 0,
            answers: [255; 12],
            held: [false; 8],
            third: 255,
            neighbour: 255,
        }
    }

    // It promises nothing: what it finds is looked at when the test runs.
    impl Job for Trial {
        ghost done = { λ _ _ _. Unit {0} };

        fn run<R: ConsentRegister + Drop>(&mut self, register: R) {
            let mut register = register;
            self.limit = register.limit();
            self.answers = answers_of(&mut register);
            self.held = held_after(&mut register);
            let _ = register.give(consent(127, 15, 14));
            self.third = number(register.give(consent(127, 15, 13)));
            self.neighbour = number(register.give(consent(126, 15, 13)));
        }
    }

    #[test]
    fn bits_follow_the_table(rt: HostRuntime) {
        let mut register = BitRegister::new();
        assert_eq!(rt; register.limit(), 256);
        assert_eq!(rt; answers_of(&mut register), ANSWERS);
        assert_eq!(rt; held_after(&mut register), HELD);
    }

    #[test]
    fn a_lent_register_follows_the_table(rt: HostRuntime) {
        let mut register = BitRegister::new();
        let mut lent = Lent::new(&mut register);
        assert_eq!(rt; answers_of(&mut lent), ANSWERS);
        assert_eq!(rt; held_after(&mut lent), HELD);
    }

    #[test]
    fn a_list_follows_the_table(rt: HostRuntime) {
        let mut places = [consent(0, 0, 0); 384];
        let mut job = not_begun();
        assert!(rt; open_list(&mut places, &mut job).is_ok());
        assert_eq!(rt; job.limit, 3);
        assert_eq!(rt; job.answers, ANSWERS);
        assert_eq!(rt; job.held, HELD);
        assert_eq!(rt; job.third, 0);
        assert_eq!(rt; job.neighbour, 0);
    }

    #[test]
    fn full_is_an_owner_s_own_affair(rt: HostRuntime) {
        let mut places = [consent(0, 0, 0); 383];
        let mut job = not_begun();
        assert!(rt; open_list(&mut places, &mut job).is_ok());
        assert_eq!(rt; job.limit, 2);
        assert_eq!(rt; job.answers, ANSWERS);
        assert_eq!(rt; job.held, HELD);
        assert_eq!(rt; job.third, 13);
        assert_eq!(rt; job.neighbour, 0);
    }

    #[test]
    fn too_few_places_are_refused(rt: HostRuntime) {
        let mut places = [consent(0, 0, 0); 127];
        let mut job = not_begun();
        assert_eq!(rt; number(open_list(&mut places, &mut job)), 13);
        assert_eq!(rt; job.limit, 0);
    }

    #[test]
    fn a_list_at_hand_follows_the_table(rt: HostRuntime) -> Result<(), Fail> {
        let mut places = [consent(0, 0, 0); 384];
        let mut register = ListRegister::new(&mut places)?;
        assert_eq!(rt; register.limit(), 3);
        assert_eq!(rt; answers_of(&mut register), ANSWERS);
        assert_eq!(rt; held_after(&mut register), HELD);
        let mut few = [consent(0, 0, 0); 127];
        assert_eq!(rt;
            ListRegister::new(&mut few).err(),
            Some(RegisterFault::Full)
        );
        Ok(())
    }
}
