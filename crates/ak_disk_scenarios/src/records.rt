//! Records that are opened.
use crate::disk::{make, put};
use ak_base::Stop;
use ak_host::Block;
use ak_memhost::MemHost;
use ak_record::{open_newest, sync_all};
use std::alloc::Global;
use std::test::Fail;

// The frame of a content without series: 2 volumes of 16 blocks, and slots of so many blocks.
fn record(number: u8, slot: u8) -> Block {
    let mut block = [0; 4096];
    // The payload has 48 bytes.
    block[0] = 48;
    block[8] = number;
    // Its format is 1.
    block[16] = 1;
    block[20] = 2;
    block[24] = 16;
    block[28] = slot;
    // The limits pool and every are 1, and scale is 0.
    block[32] = 1;
    block[36] = 1;
    // Ordinal 0 is live and empty, and there is no series.
    block[48] = 1;
    block
}

// Its number, the volumes and how many series there are.
fn opened(alloc: Global, disk: &mut MemHost) -> Result<(u64, u32, usize), Stop> {
    let opened = open_newest(alloc, disk)?;
    Ok((
        opened.gate.number(),
        opened.meta.limits().volumes,
        opened.meta.series().len(),
    ))
}

// A gate, with bytes behind its first.
fn gate(first: u8) -> Block {
    let mut block = [0xAA; 4096];
    block[0] = first;
    block
}

// Two slots of one block, the record behind the first gate, and both volumes.
fn store(alloc: Global, record: &Block, fails: &[u64]) -> Result<Option<MemHost>, Fail> {
    let mut host = MemHost::new(alloc, &[], fails)?;
    let made = make(&mut host, 0, 4)
        && make(&mut host, 1, 16)
        && make(&mut host, 2, 16)
        && put(&mut host, 0, 2, record)
        && put(&mut host, 0, 0, &gate(1));
    if made { Ok(Some(host)) } else { Ok(None) }
}

fn damaged(file: u32, block: u32) -> Result<(u64, u32, usize), Stop> {
    Err(Stop::Damaged { file, block })
}

#[test]
fn the_files_of_the_volumes_are_there(rt: HostRuntime) -> Result<(), Fail> {
    let alloc = rt.alloc();
    let mut host = MemHost::new(alloc, &[], &[])?;
    assert_eq!(rt; opened(alloc, &mut host), Err(Stop::NoStore));
    assert!(rt; make(&mut host, 0, 4));
    assert_eq!(rt; opened(alloc, &mut host), Err(Stop::NoStore));
    assert!(rt; put(&mut host, 0, 2, &record(7, 1)));
    assert!(rt; put(&mut host, 0, 0, &gate(1)));
    assert_eq!(rt; opened(alloc, &mut host), damaged(1, 0));
    assert!(rt; make(&mut host, 1, 15));
    assert_eq!(rt; opened(alloc, &mut host), damaged(1, 15));
    assert!(rt; make(&mut host, 1, 16));
    assert_eq!(rt; opened(alloc, &mut host), damaged(2, 0));
    assert!(rt; make(&mut host, 2, 15));
    assert_eq!(rt; opened(alloc, &mut host), damaged(2, 15));
    assert!(rt; make(&mut host, 2, 17));
    assert_eq!(rt; opened(alloc, &mut host), Ok((7, 2, 0)));
    Ok(())
}

// Of two open slots only the newest has to spell a content.
#[test]
fn only_the_newest_payload_is_read(rt: HostRuntime) -> Result<(), Fail> {
    let alloc = rt.alloc();
    let Some(mut host) = store(alloc, &record(7, 1), &[])? else {
        return Ok(assert!(rt; false));
    };
    let mut other = record(6, 1);
    other[16] = 2;
    assert!(rt; put(&mut host, 0, 3, &other));
    assert!(rt; put(&mut host, 0, 1, &gate(1)));
    assert_eq!(rt; opened(alloc, &mut host), Ok((7, 2, 0)));
    other[8] = 8;
    assert!(rt; put(&mut host, 0, 3, &other));
    assert_eq!(rt; opened(alloc, &mut host), damaged(0, 3));
    assert!(rt; put(&mut host, 0, 3, &record(8, 1)));
    assert_eq!(rt; opened(alloc, &mut host), Ok((8, 2, 0)));
    // It says that slots have two blocks.
    assert!(rt; put(&mut host, 0, 3, &record(8, 2)));
    assert_eq!(rt; opened(alloc, &mut host), damaged(0, 3));
    Ok(())
}

// Calls 0 to 4 make the store, call 6 syncs file 1, and call 8 is a read.
#[test]
fn a_failed_call_is_told(rt: HostRuntime) -> Result<(), Fail> {
    let alloc = rt.alloc();
    let Some(mut host) = store(alloc, &record(7, 1), &[6, 8])? else {
        return Ok(assert!(rt; false));
    };
    assert_eq!(rt; sync_all(&mut host), Err(Stop::Disk));
    assert_eq!(rt; opened(alloc, &mut host), Err(Stop::Disk));
    assert_eq!(rt; sync_all(&mut host), Ok(()));
    assert_eq!(rt; opened(alloc, &mut host), Ok((7, 2, 0)));
    Ok(())
}
