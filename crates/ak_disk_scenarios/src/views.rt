//! Views that a forest takes.
ghost use Rattle.std.specs.Prelude.{◌≡◌, true};
ghost use Rattle.ak_tree.specs.Standing.{IsReady};

use crate::forests::{SMALL, made};
use crate::stores::opened;
use ak_host::Disk;
use ak_memhost::MemHost;
use ak_tree::Forest;
use std::test::Fail;

// Takes a view. Whether it was taken.
fn view<D: Disk>(forest: &mut Forest, disk: &mut D) -> bool
    requires { IsReady D.tells forest.old (D.state disk.old) }
    ensures { result ≡ true → IsReady D.tells forest.new (D.state disk.new) }
{
    forest.view(disk).is_ok()
}

// The other slot's gate is open only from the third view on, and is closed then. The frame reaches one block.
#[test]
fn views_take_the_slots_by_turns(rt: HostRuntime) -> Result<(), Fail> {
    let alloc = rt.alloc();
    let mut host = MemHost::new(alloc, &[], &[])?;
    let Some(mut forest) = made(alloc, &mut host, &SMALL) else {
        assert!(rt; false);
        return Ok(());
    };
    let first = host.moments();
    let before = host.writes();
    assert!(rt; view(&mut forest, &mut host));
    assert_eq!(rt; host.writes().saturating_sub(before), 2);
    let second = host.moments();
    assert!(rt; view(&mut forest, &mut host));
    assert_eq!(rt; host.writes().saturating_sub(before), 5);
    let mut image = host.image(alloc, first, &[])?;
    assert_eq!(rt; opened(alloc, &mut image), Ok((1, 0, 48)));
    let mut image = host.image(alloc, second, &[])?;
    assert_eq!(rt; opened(alloc, &mut image), Ok((2, 1, 48)));
    assert_eq!(rt; opened(alloc, &mut host), Ok((3, 0, 48)));
    Ok(())
}

// Making a store takes 8 calls of the disk, and each view begins with the sync of the file.
#[test]
fn a_failed_sync_is_told(rt: HostRuntime) -> Result<(), Fail> {
    let alloc = rt.alloc();
    let mut host = MemHost::new(alloc, &[], &[8])?;
    let Some(mut forest) = made(alloc, &mut host, &SMALL) else {
        assert!(rt; false);
        return Ok(());
    };
    let before = host.writes();
    assert!(rt; !view(&mut forest, &mut host));
    assert_eq!(rt; host.writes(), before);
    assert_eq!(rt; opened(alloc, &mut host), Ok((1, 0, 48)));
    Ok(())
}
