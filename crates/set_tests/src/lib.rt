// Tests of the sets of bits and of records on examples, in a crate of their own.
#![tactic(auto)]

#[cfg(test)]
mod tests {
    use bits::set::{RoleSet, SessionSet, TypeSet};
    use records::kinds::{Consent, PlainGrant, PrivateGrant};
    use records::record::{Pair, Thing};
    use records::set::{RecordSet, SetFault};

    #[test]
    fn wide_borders(rt: HostRuntime) {
        let ends = RoleSet::empty().with(0).with(63).with(64).with(u16::MAX);
        assert_eq!(rt; ends.bits(), 0x8000_0000_0000_0001);
        assert_eq!(rt; ends.len(), 2);
        assert!(rt; ends.contains(63) && !ends.contains(64) && !ends.contains(62));
        assert!(rt; ends.without(64).equals(ends));
        assert_eq!(rt; ends.without(0).bits(), 0x8000_0000_0000_0000);
        assert_eq!(rt; ends.words(), [1, 0, 0, 0x8000]);
        assert!(rt; RoleSet::from_words([1, 0, 0, 0x8000]).equals(ends));
        assert_eq!(rt;
            SessionSet::from_words([1, 2, 3, 4]).bits(),
            0x0004_0003_0002_0001
        );
    }

    #[test]
    fn narrow_borders(rt: HostRuntime) {
        let ends = TypeSet::empty().with(0).with(15).with(16);
        assert_eq!(rt; ends.bits(), 0x8001);
        assert_eq!(rt; ends.len(), 2);
        assert!(rt; ends.contains(15) && !ends.contains(16));
        assert!(rt; TypeSet::empty().is_empty() && !ends.is_empty());
        assert!(rt; ends.without(0).is_subset(ends) && !ends.is_subset(ends.without(0)));
    }

    #[test]
    fn set_algebra(rt: HostRuntime) {
        let odd = RoleSet::from_bits(0xaaaa);
        let low = RoleSet::from_bits(0x000f);
        assert_eq!(rt; odd.union(low).bits(), 0xaaaf);
        assert_eq!(rt; odd.minus(low).bits(), 0xaaa0);
        assert!(rt; odd.intersects(low) && !odd.minus(low).intersects(low));
        assert!(rt; RoleSet::empty().is_subset(low) && low.is_subset(odd.union(low)));
    }

    fn plain(operation: u16, object: u16, role: u16) -> PlainGrant {
        PlainGrant {
            operation,
            object,
            role,
        }
    }

    #[test]
    fn grants_keep_their_order(rt: HostRuntime) {
        let mut places = [plain(0, 0, 0); 4];
        let mut set = RecordSet::new(&mut places, 1024);
        assert_eq!(rt; set.add(plain(1, 7, 2)), Ok(()));
        assert_eq!(rt; set.add(plain(1, 8, 2)), Ok(()));
        assert_eq!(rt; set.add(plain(1, 7, 2)), Err(SetFault::AlreadyThere));
        assert_eq!(rt; set.add(plain(2, 7, 3)), Ok(()));
        assert_eq!(rt; set.add(plain(3, 9, 3)), Ok(()));
        assert_eq!(rt; set.add(plain(4, 9, 3)), Err(SetFault::NoPlace));
        assert_eq!(rt; set.remove(&plain(1, 8, 2)), Ok(()));
        assert_eq!(rt; set.remove(&plain(1, 8, 2)), Err(SetFault::NotThere));
        let rows = set.as_slice();
        assert!(rt; rows.len() == 3);
        assert!(rt; rows[0].operation == 1 && rows[1].operation == 2 && rows[2].operation == 3);
    }

    #[test]
    fn private_grants_by_what_they_name(rt: HostRuntime) {
        let none = PrivateGrant {
            operation: 0,
            object: 0,
            purpose: 0,
            role: 0,
        };
        let mut places = [none; 8];
        let mut set = RecordSet::new(&mut places, 8);
        for role in 1..=3u16 {
            assert_eq!(rt;
                set.add(PrivateGrant {
                    operation: 3,
                    object: 8,
                    purpose: 2,
                    role,
                }),
                Ok(())
            );
            assert_eq!(rt;
                set.add(PrivateGrant {
                    operation: 3,
                    object: 9,
                    purpose: role,
                    role: 2,
                }),
                Ok(())
            );
        }
        set.strike(Thing::Owner(8));
        set.strike(Thing::Pair(Pair {
            purpose: 2,
            data_type: 8,
        }));
        assert_eq!(rt; set.len(), 6);
        set.strike(Thing::Object(9));
        assert_eq!(rt; set.len(), 3);
        set.strike(Thing::Role(2));
        let rows = set.as_slice();
        assert!(rt; rows.len() == 2);
        assert!(rt; rows[0].role == 1 && rows[1].role == 3);
        set.clear();
        assert_eq!(rt; set.len(), 0);
        assert_eq!(rt; set.places(), 8);
    }

    #[test]
    fn consents_by_what_they_name(rt: HostRuntime) {
        let mut places = [Consent {
            owner: 0,
            purpose: 0,
            data_type: 0,
        }; 16];
        let mut set = RecordSet::new(&mut places, usize::MAX);
        for owner in 0..4u16 {
            assert_eq!(rt;
                set.add(Consent {
                    owner,
                    purpose: 2,
                    data_type: 5,
                }),
                Ok(())
            );
            assert_eq!(rt;
                set.add(Consent {
                    owner,
                    purpose: 5,
                    data_type: 2,
                }),
                Ok(())
            );
        }
        set.strike(Thing::Role(2));
        set.strike(Thing::Object(2));
        assert_eq!(rt; set.len(), 8);
        set.strike(Thing::Pair(Pair {
            purpose: 2,
            data_type: 5,
        }));
        assert_eq!(rt; set.len(), 4);
        set.strike(Thing::Owner(3));
        assert_eq!(rt; set.len(), 3);
        assert!(rt;
            set.contains(&Consent {
                owner: 2,
                purpose: 5,
                data_type: 2,
            })
        );
        assert!(rt;
            !set.contains(&Consent {
                owner: 2,
                purpose: 2,
                data_type: 5,
            })
        );
    }

    // How many of the objects 0 to 1,099 find a place.
    fn filled(places: &mut [PlainGrant], cap: usize) -> usize {
        let mut set = RecordSet::new(places, cap);
        for object in 0..1_100u16 {
            let _ = set.add(plain(1, object, 1));
        }
        set.len()
    }

    #[test]
    fn places_and_cap(rt: HostRuntime) {
        assert_eq!(rt; filled(&mut [], 1_024), 0);
        assert_eq!(rt; filled(&mut [plain(0, 0, 0)], 1_024), 1);
        assert_eq!(rt; filled(&mut [plain(0, 0, 0); 1_023], 1_024), 1_023);
        assert_eq!(rt; filled(&mut [plain(0, 0, 0); 1_024], 1_024), 1_024);
        assert_eq!(rt; filled(&mut [plain(0, 0, 0); 1_025], 1_024), 1_024);
        assert_eq!(rt; filled(&mut [plain(0, 0, 0); 1_025], usize::MAX), 1_025);
        assert_eq!(rt; filled(&mut [plain(0, 0, 0); 1_025], 0), 0);
    }
}
