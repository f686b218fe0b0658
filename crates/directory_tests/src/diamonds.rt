// Hierarchies in which a role has two immediate juniors.
use crate::answers::number;
use bits::set::RoleSet;
use directory::directory::Directory;
use directory::fault::DirectoryFault;
use hierarchy::fault::HierarchyFault;
use hierarchy::hierarchy::Hierarchy;
use std::test::Fail;

// Role 0 above roles 1 and 2, and both above role 3.
fn diamond() -> Result<Hierarchy, HierarchyFault> {
    Hierarchy::new()
        .with_edge(0, 1)?
        .with_edge(0, 2)?
        .with_edge(1, 3)?
        .with_edge(2, 3)
}

#[test]
fn diamond_keeps_its_other_side(rt: HostRuntime) -> Result<(), Fail> {
    let diamond = diamond()?;
    assert_eq!(rt; diamond.reach(RoleSet::empty().with(0)).bits(), 15);
    assert_eq!(rt; number(diamond.with_edge(3, 0)), 11);
    assert_eq!(rt; number(diamond.with_edge(1, 2)), 0);
    let half = diamond.without_edge(1, 3)?;
    assert!(rt; half.above_or_equal(0, 3) && !half.above_or_equal(1, 3));
    assert!(rt; !half.without_role(2).above_or_equal(0, 3));
    Ok(())
}

// An inheritance that chains already imply may be added, and taken out again without breaking the chain.
#[test]
fn implied_pair(rt: HostRuntime) -> Result<(), Fail> {
    let three = Hierarchy::new().with_edge(0, 1)?.with_edge(1, 2)?;
    assert!(rt; three.above_or_equal(0, 2) && !three.is_immediate(0, 2));
    let more = three.with_edge(0, 2)?;
    assert!(rt; more.is_immediate(0, 2) && more.without_edge(0, 2)?.above_or_equal(0, 2));
    let direct = more.without_edge(0, 1)?;
    assert!(rt; direct.above_or_equal(0, 2) && !direct.above_or_equal(0, 1));
    Ok(())
}

#[test]
fn session_over_a_diamond(rt: HostRuntime) -> Result<(), Fail> {
    let mut directory = Directory::new();
    directory.add_user(4)?;
    for role in 0..4u16 {
        directory.add_role(role)?;
    }
    directory.add_inheritance(0, 1)?;
    directory.add_inheritance(0, 2)?;
    directory.add_inheritance(1, 3)?;
    directory.add_inheritance(2, 3)?;
    directory.assign(4, 0)?;
    directory.open_session(9, 4)?;
    directory.activate_role(9, 3)?;
    assert!(rt; directory.delete_inheritance(1, 3)?.is_empty());
    assert_eq!(rt; directory.open_sessions(), 1);
    assert_eq!(rt; directory.delete_role(2)?.bits(), 512);
    assert_eq!(rt; number(directory.activate_role(9, 1)), 6);
    assert_eq!(rt; number(directory.authorised(4, 3)), 12);
    assert_eq!(rt; number(directory.authorised(4, 1)), 0);
    Ok(())
}
