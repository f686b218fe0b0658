// Sessions, and users and roles that are added anew.
use crate::answers::number;
use bits::set::RoleSet;
use directory::directory::Directory;
use directory::fault::DirectoryFault;
use std::test::Fail;

// Users 1 and 2, roles 5 above 6, user 1 assigned to role 5.
fn office() -> Result<Directory, DirectoryFault> {
    let mut directory = Directory::new();
    directory.add_user(1)?;
    directory.add_user(2)?;
    directory.add_role(5)?;
    directory.add_role(6)?;
    directory.add_inheritance(5, 6)?;
    directory.assign(1, 5)?;
    Ok(directory)
}

#[test]
fn ranges_and_order_of_questions(rt: HostRuntime) -> Result<(), Fail> {
    let mut directory = office()?;
    assert_eq!(rt; number(directory.add_user(255)), 0);
    assert_eq!(rt; number(directory.add_user(255)), 9);
    assert_eq!(rt; number(directory.add_user(256)), 1);
    assert_eq!(rt; number(directory.add_role(64)), 1);
    assert_eq!(rt; number(directory.assign(3, 7)), 2);
    assert_eq!(rt; number(directory.assign(1, 7)), 3);
    assert_eq!(rt; number(directory.assign(1, 5)), 9);
    assert_eq!(rt; number(directory.assign(3, 64)), 1);
    assert_eq!(rt; number(directory.deassign(1, 6)), 10);
    assert_eq!(rt; number(directory.add_inheritance(7, 7)), 3);
    assert_eq!(rt; number(directory.add_inheritance(5, 5)), 11);
    assert_eq!(rt; number(directory.add_inheritance(6, 5)), 11);
    assert_eq!(rt; number(directory.delete_inheritance(6, 5)), 10);
    assert_eq!(rt; number(directory.open_session(0, 3)), 2);
    assert_eq!(rt; number(directory.open_session(64, 3)), 1);
    assert_eq!(rt; number(directory.activate_role(0, 7)), 3);
    assert_eq!(rt; number(directory.activate_role(0, 5)), 6);
    assert_eq!(rt; number(directory.drop_role(0, 5)), 6);
    assert_eq!(rt; number(directory.end_session(0)), 6);
    Ok(())
}

#[test]
fn activation_is_of_the_named_role(rt: HostRuntime) -> Result<(), Fail> {
    let mut directory = office()?;
    directory.open_session(3, 1)?;
    assert!(rt; directory.active_roles(3).is_empty());
    directory.activate_role(3, 5)?;
    assert!(rt; directory.active_roles(3).equals(RoleSet::empty().with(5)));
    assert_eq!(rt; number(directory.activate_role(3, 5)), 9);
    assert_eq!(rt; number(directory.drop_role(3, 6)), 10);
    assert_eq!(rt; number(directory.open_session(3, 2)), 9);
    assert_eq!(rt; directory.end_session(3)?.bits(), 8);
    assert_eq!(rt; directory.open_sessions(), 0);
    Ok(())
}

#[test]
fn added_anew_has_nothing(rt: HostRuntime) -> Result<(), Fail> {
    let mut directory = office()?;
    directory.open_session(3, 1)?;
    directory.open_session(4, 2)?;
    directory.activate_role(3, 6)?;
    assert_eq!(rt; directory.delete_user(1)?.bits(), 8);
    directory.add_user(1)?;
    assert_eq!(rt; number(directory.authorised(1, 5)), 12);
    directory.assign(1, 5)?;
    directory.open_session(3, 1)?;
    directory.activate_role(3, 6)?;
    assert_eq!(rt; directory.delete_role(5)?.bits(), 8);
    directory.add_role(5)?;
    assert_eq!(rt; number(directory.authorised(1, 5)), 12);
    directory.assign(1, 5)?;
    assert_eq!(rt; number(directory.authorised(1, 6)), 12);
    assert_eq!(rt; directory.open_sessions(), 1);
    Ok(())
}
