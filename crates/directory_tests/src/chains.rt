// Hierarchies in which each role has at most one immediate junior.
use crate::answers::number;
use bits::set::RoleSet;
use hierarchy::fault::HierarchyFault;
use hierarchy::hierarchy::Hierarchy;
use std::test::Fail;

// Role 0 above role 1 above role 2, and so on to role 63.
fn chain() -> Result<Hierarchy, HierarchyFault> {
    let mut chain = Hierarchy::new();
    for role in 0..63u16 {
        chain = chain.with_edge(role, role + 1)?;
    }
    Ok(chain)
}

#[test]
fn chain_of_all_roles(rt: HostRuntime) -> Result<(), Fail> {
    let chain = chain()?;
    assert_eq!(rt; chain.reach(RoleSet::empty().with(0)).len(), 64);
    assert_eq!(rt; chain.reach(RoleSet::empty().with(63)).len(), 1);
    assert_eq!(rt; chain.reach(RoleSet::empty()).len(), 0);
    assert!(rt; chain.above_or_equal(0, 63) && !chain.above_or_equal(63, 0));
    assert!(rt; chain.above_or_equal(63, 63) && !chain.above_or_equal(64, 64));
    assert_eq!(rt; number(chain.with_edge(63, 0)), 11);
    assert_eq!(rt; number(chain.with_edge(5, 5)), 11);
    assert_eq!(rt; number(chain.with_edge(5, 6)), 9);
    assert_eq!(rt; number(chain.with_edge(64, 0)), 1);
    assert_eq!(rt; number(chain.without_edge(5, 7)), 10);
    assert_eq!(rt; number(chain.without_edge(0, 64)), 1);
    // each refusal by the number that the hierarchy itself gives it
    assert_eq!(rt; HierarchyFault::OutOfRange.number(), 1);
    assert_eq!(rt; HierarchyFault::AlreadyThere.number(), 9);
    assert_eq!(rt; HierarchyFault::NotThere.number(), 10);
    assert_eq!(rt; HierarchyFault::Circle.number(), 11);
    Ok(())
}

#[test]
fn chain_that_is_cut(rt: HostRuntime) -> Result<(), Fail> {
    let cut = chain()?.without_edge(31, 32)?;
    assert_eq!(rt; cut.reach(RoleSet::empty().with(0)).len(), 32);
    assert!(rt; cut.above_or_equal(32, 63) && !cut.above_or_equal(31, 32));
    assert_eq!(rt; number(cut.with_edge(63, 0)), 0);
    let gone = chain()?.without_role(31);
    assert!(rt; !gone.above_or_equal(30, 32) && gone.above_or_equal(32, 63));
    assert_eq!(rt; gone.reach(RoleSet::empty().with(31)).len(), 1);
    assert_eq!(rt;
        gone.without_role(64).reach(RoleSet::empty().with(0)).len(),
        31
    );
    Ok(())
}
