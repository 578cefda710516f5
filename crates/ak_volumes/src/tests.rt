//! The placing of small groups.
use super::*;
use ak_base::Addr;
use std::alloc::AllocError;

/// The address of a block.
fn at(ordinal: u32, index: u32) -> Addr {
    Addr(u64::from(ordinal) * 4_294_967_296 + u64::from(index))
}

/// Places a group and enters it, in a new ordinal where it has to be.
fn enter(volumes: &mut Volumes, group: u32) -> Option<Addr> {
    if volumes.place(group) == Place::Switch {
        volumes.switch();
    }
    match volumes.place(group) {
        Place::Here(a) => {
            volumes.fill(group);
            Some(a)
        }
        _ => None,
    }
}

#[test]
fn thirty_two_groups(rt: HostRuntime) -> Result<(), AllocError> {
    let mut volumes = Volumes::new(rt.alloc(), 2, 16, 0, &[0])?;
    for leaf in 0..31 {
        assert_eq!(rt; enter(&mut volumes, 1), Some(at(leaf / 16, leaf % 16)));
    }
    assert_eq!(rt; volumes.lo(), 0);
    assert_eq!(rt; volumes.n(), 15);
    assert!(rt; volumes.live(at(0, 15)));
    assert_eq!(rt; enter(&mut volumes, 2), Some(at(2, 0)));
    assert_eq!(rt; volumes.lo(), 1);
    assert_eq!(rt; volumes.q(), 2);
    assert_eq!(rt; volumes.n(), 2);
    assert_eq!(rt; volumes.fills(), [15, 2].as_slice());
    assert!(rt; !volumes.live(at(0, 15)));
    assert!(rt; volumes.live(at(2, 1)));
    assert!(rt; !volumes.live(at(1, 15)));
    assert_eq!(rt; volumes.file_of(at(1, 14)), Some(2));
    assert_eq!(rt; volumes.file_of(at(2, 1)), Some(1));
    assert_eq!(rt; volumes.file_of(at(2, 2)), None);
    assert_eq!(rt; volumes.file_of(Addr(u64::MAX)), None);
    Ok(())
}

#[test]
fn last_ordinal(rt: HostRuntime) -> Result<(), AllocError> {
    let volumes = Volumes::new(rt.alloc(), 2, 16, u32::MAX, &[10])?;
    assert_eq!(rt; volumes.place(6), Place::Here(at(u32::MAX, 10)));
    assert_eq!(rt; volumes.place(7), Place::Worn);
    Ok(())
}

#[test]
fn laws_are_called() {
    files_are_apart();
    ordinals_stay_lawful();
    live_after_fill();
    live_after_switch();
}
