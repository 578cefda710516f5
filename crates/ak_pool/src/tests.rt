//! The order of frames.
use super::*;
use ak_base::Point;
use std::alloc::AllocError;

#[test]
fn order_of_writing(rt: HostRuntime) -> Result<(), AllocError> {
    let mut pool = Pool::new(rt.alloc(), 3)?;
    assert_eq!(rt; pool.oldest(), None);
    let five = pool.take(5).expect(&rt, "a free frame");
    let six = pool.take(6).expect(&rt, "a free frame");
    let seven = pool.take(7).expect(&rt, "a free frame");
    assert_eq!(rt; pool.take(8), None);
    pool.touch(five);
    assert_eq!(rt; pool.oldest(), Some(six));
    pool.give(seven);
    let eight = pool.take(8).expect(&rt, "a free frame");
    assert_eq!(rt; pool.oldest(), Some(six));
    assert_eq!(rt; pool.take(9), None);
    assert_eq!(rt; pool.series(five), 5);
    assert_eq!(rt; pool.series(eight), 8);
    let point = Point { ts: 1, value: -2 };
    assert!(rt; pool.leaf_mut(eight).push(point));
    assert_eq!(rt; pool.leaf(eight).points(), [point].as_slice());
    assert_eq!(rt; pool.leaf(five).points().len(), 0);
    Ok(())
}

#[test]
fn links_of_neighbours(rt: HostRuntime) -> Result<(), AllocError> {
    let mut pool = Pool::new(rt.alloc(), 3)?;
    let five = pool.take(5).expect(&rt, "a free frame");
    assert_eq!(rt;
        pool.links()[five.0 as usize],
        Link {
            newer: u32::MAX,
            older: u32::MAX,
        }
    );
    let six = pool.take(6).expect(&rt, "a free frame");
    let seven = pool.take(7).expect(&rt, "a free frame");
    pool.touch(five);
    pool.give(seven);
    let eight = pool.take(8).expect(&rt, "a free frame");
    let links = pool.links();
    assert_eq!(rt; links.len(), 3);
    assert_eq!(rt;
        links[eight.0 as usize],
        Link {
            newer: u32::MAX,
            older: five.0,
        }
    );
    assert_eq!(rt;
        links[five.0 as usize],
        Link {
            newer: eight.0,
            older: six.0,
        }
    );
    assert_eq!(rt;
        links[six.0 as usize],
        Link {
            newer: five.0,
            older: u32::MAX,
        }
    );
    Ok(())
}

#[test]
fn no_frames(rt: HostRuntime) -> Result<(), AllocError> {
    let mut pool = Pool::new(rt.alloc(), 0)?;
    assert_eq!(rt; pool.take(5), None);
    assert_eq!(rt; pool.oldest(), None);
    assert_eq!(rt; pool.links().len(), 0);
    Ok(())
}

#[test]
fn laws_are_called() {
    given_leaves_others();
    moved_leaves_all();
    written_leaves_others();
}
