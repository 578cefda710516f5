//! Inner nodes that are read by their addresses.

use crate::disk::put;
use crate::leaves::{PLACE, are_there, host, leaf};
use ak_base::{Addr, Stop};
use ak_bytes::Head;
use ak_cache::{Cached, Reach};
use ak_host::Block;
use ak_inner::{Inner, Ref};
use ak_leaf::LeafBuf;
use ak_memhost::MemHost;
use ak_summary::Summary;
use ak_volumes::Volumes;
use std::alloc::Global;
use std::process::Abort;
use std::test::Fail;

const HEAD: Head = Head {
    kind: Head::INNER,
    level: 2,
    count: 1,
    series: 3,
    number: 0,
    addr: PLACE,
    elder: Addr(u64::MAX),
    length: 104,
};

// A reference to a node below with the point (100, 5). Its rules hold on each level.
const REF: Ref = Ref {
    addr: Addr(0x1_0000_0001),
    first_leaf: Addr(0x1_0000_0000),
    summary: Summary {
        count: 1,
        begin: 100,
        end: 100,
        first: 5,
        last: 5,
        min: 5,
        min_ts: 100,
        max: 5,
        max_ts: 100,
        sum: 5,
    },
};

// The block with that head of the reference.
fn inner() -> Block {
    let mut block = [7; 4096];
    let mut node = Inner::new();
    node.push(REF);
    node.encode(&HEAD, &mut block);
    block
}

// The inner node of a series with this level and this number at an address is answered so, with these references, after so
// many reads. What was held before is gone.
fn answers<R: Abort>(
    rt: &R,
    alloc: Global,
    host: &mut MemHost,
    asked: (Addr, u8, u32, u64),
    answer: Result<Head, Stop>,
    refs: &[Ref],
    reads: u64,
) -> Result<(), Fail> {
    let volumes = Volumes::new(alloc, 2, 16, 0, &[16, 3])?;
    let mut cache = Cached::new(alloc, 1)?;
    let mut scratch = LeafBuf::new(alloc)?;
    let mut node = Inner::new();
    node.push(REF);
    node.push(REF);
    let (a, level, series, number) = asked;
    let before = host.reads();
    assert!(rt; volumes.live(a) && are_there(host));
    let mut reach = Reach {
        disk: host,
        volumes: &volumes,
        cache: &mut cache,
        scratch: &mut scratch,
    };
    assert_eq!(rt; reach.inner(a, level, series, number, &mut node), answer);
    assert_eq!(rt; node.refs(), refs);
    assert_eq!(rt; host.reads() - before, reads);
    Ok(())
}

#[test]
fn an_inner_node_is_read(rt: HostRuntime) -> Result<(), Fail> {
    let alloc = rt.alloc();
    let mut host = host(&rt, alloc, &[])?;
    assert!(rt; put(&mut host, 2, 2, &inner()));
    answers(&rt, alloc, &mut host, (PLACE, 2, 3, 0), Ok(HEAD), &[REF], 1)
}

#[test]
fn another_inner_node_is_damage(rt: HostRuntime) -> Result<(), Fail> {
    let alloc = rt.alloc();
    let mut host = host(&rt, alloc, &[])?;
    let damaged = Err(Stop::Damaged { file: 2, block: 2 });
    answers(&rt, alloc, &mut host, (PLACE, 2, 3, 0), damaged, &[], 1)?;
    assert!(rt; put(&mut host, 2, 2, &inner()));
    answers(&rt, alloc, &mut host, (PLACE, 1, 3, 0), damaged, &[], 1)?;
    answers(&rt, alloc, &mut host, (PLACE, 2, 2, 0), damaged, &[], 1)?;
    answers(&rt, alloc, &mut host, (PLACE, 2, 3, 1), damaged, &[], 1)
}

#[test]
fn an_inner_node_of_another_address_is_damage(rt: HostRuntime) -> Result<(), Fail> {
    let alloc = rt.alloc();
    let mut host = host(&rt, alloc, &[])?;
    assert!(rt; put(&mut host, 2, 1, &inner()));
    let damaged = Err(Stop::Damaged { file: 2, block: 1 });
    let asked = (Addr(0x1_0000_0001), 2, 3, 0);
    answers(&rt, alloc, &mut host, asked, damaged, &[], 1)?;
    assert!(rt; put(&mut host, 1, 2, &inner()));
    let damaged = Err(Stop::Damaged { file: 1, block: 2 });
    answers(&rt, alloc, &mut host, (Addr(2), 2, 3, 0), damaged, &[], 1)
}

#[test]
fn a_leaf_is_no_inner_node(rt: HostRuntime) -> Result<(), Fail> {
    let alloc = rt.alloc();
    let mut host = host(&rt, alloc, &[])?;
    assert!(rt; put(&mut host, 2, 2, &leaf()));
    let damaged = Err(Stop::Damaged { file: 2, block: 2 });
    answers(&rt, alloc, &mut host, (PLACE, 0, 3, 0), damaged, &[], 1)?;
    answers(&rt, alloc, &mut host, (PLACE, 2, 3, 0), damaged, &[], 1)
}

// The read is the fifth call, and fails.
#[test]
fn a_failed_read_of_an_inner_node_is_no_damage(rt: HostRuntime) -> Result<(), Fail> {
    let alloc = rt.alloc();
    let mut host = host(&rt, alloc, &[4])?;
    assert!(rt; put(&mut host, 2, 2, &inner()));
    let asked = (PLACE, 2, 3, 0);
    answers(&rt, alloc, &mut host, asked, Err(Stop::Disk), &[], 0)
}
