ghost use Rattle.std.specs.Prelude.{◌≡◌, []};

use crate::LeafBuf;
use ak_base::{Addr, Block, Point};
use ak_bytes::Head;
use std::alloc::AllocError;

/// The head of one point's leaf, the first of series 0, at address 0.
const HEAD: Head = Head {
    kind: Head::LEAF,
    level: 0,
    count: 1,
    series: 0,
    number: 0,
    addr: Addr(0),
    elder: Addr(u64::MAX),
    length: 2,
};

/// The block with that head of the point (100, 5), byte by byte.
fn example() -> Block {
    let mut block = [0; 4096];
    block[0] = 1;
    block[2] = 1;
    for i in 24..32 {
        block[i] = 0xff;
    }
    block[32] = 2;
    block[64] = 0x64;
    block[65] = 0x0a;
    block
}

#[test]
fn one_point_is_written(rt: HostRuntime) -> Result<(), AllocError> {
    let mut leaf = LeafBuf::new(rt.alloc())?;
    let mut block = [7; 4096];
    assert!(rt; leaf.push(Point { ts: 100, value: 5 }));
    assert_eq!(rt; leaf.size(), 2);
    leaf.encode(&HEAD, &mut block);
    assert_eq!(rt; block.as_slice(), example().as_slice());
    Ok(())
}

#[test]
fn one_point_is_read(rt: HostRuntime) -> Result<(), AllocError> {
    let mut leaf = LeafBuf::new(rt.alloc())?;
    assert_eq!(rt; leaf.decode(&example(), 0, 0, Addr(0)), Some(HEAD));
    assert_eq!(rt; leaf.points(), [Point { ts: 100, value: 5 }].as_slice());
    assert_eq!(rt; leaf.size(), 2);
    Ok(())
}

#[test]
fn another_leaf_or_byte_is_refused(rt: HostRuntime) -> Result<(), AllocError> {
    let mut leaf = LeafBuf::new(rt.alloc())?;
    let mut block = example();
    assert!(rt; leaf.decode(&block, 0, 0, Addr(0)).is_some());
    assert!(rt; leaf.decode(&block, 1, 0, Addr(0)).is_none());
    assert!(rt; leaf.points().is_empty());
    block[4095] = 1;
    assert!(rt; leaf.decode(&block, 0, 0, Addr(0)).is_none());
    Ok(())
}

/// Pushes points at 1, 2, 3 and on, up to 3000, with the two values in turn, and tells how many fitted.
fn fill(leaf: &mut LeafBuf, odd: i64, even: i64) -> u64
    requires { leaf.old ≡ [] }
{
    for ts in 1..3000 {
        let value = if ts % 2 == 1 { odd } else { even };
        if !leaf.push(Point { ts, value }) {
            return ts - 1;
        }
    }
    3000
}

#[test]
fn full_leaves(rt: HostRuntime) -> Result<(), AllocError> {
    let mut leaf = LeafBuf::new(rt.alloc())?;
    assert_eq!(rt; fill(&mut leaf, 0, 0), 2016);
    assert_eq!(rt; leaf.points().len(), 2016);
    assert_eq!(rt; leaf.size(), 4032);
    leaf.clear();
    assert_eq!(rt; leaf.size(), 0);
    assert_eq!(rt; fill(&mut leaf, i64::MAX, i64::MIN), 366);
    assert_eq!(rt; leaf.size(), 4026);
    Ok(())
}
