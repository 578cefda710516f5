ghost use Rattle.std.specs.Prelude.{◌≡◌, ◌<◌, true, length, slice_index};

use ak_base::Stop;
use ak_gate::Gate;
use ak_host::{Block, Disk};
use ak_memhost::{MemHost, Tear};
use std::alloc::Global;
use std::test::Fail;

// Tests ask first whether a block is there, so that no fact of the sizes has to last from call to call.
pub(crate) fn is_there<D: Disk>(disk: &D, index: u32) -> bool
    ensures { result ≡ true → (0 < length (D.state disk.now).sizes) × (index < slice_index (D.state disk.now).sizes 0) }
{
    0 < disk.files() && index < disk.blocks(0)
}

// Writes a block of file 0 and syncs it.
fn save<D: Disk>(disk: &mut D, index: u32, block: &Block) -> bool {
    is_there(disk, index)
        && disk.write(0, index, block).is_ok()
        && is_there(disk, 0)
        && disk.sync(0).is_ok()
}

// A gate, with bytes behind its first.
fn gate(first: u8) -> Block {
    let mut block = [0xAA; 4096];
    block[0] = first;
    block
}

// The frame of a payload of one byte, or of what claims to be longer.
fn frame(length: u8, more: u8, number: u8, payload: u8) -> Block {
    let mut block = [0; 4096];
    block[0] = length;
    block[1] = more;
    block[8] = number;
    block[16] = payload;
    block
}

// The number, the slot, the payload's length and its first byte.
pub(crate) fn opened(
    alloc: Global,
    disk: &mut MemHost,
) -> Result<(u64, u32, usize, Option<u8>), Stop> {
    let (gate, payload) = Gate::open(alloc, disk)?;
    Ok((
        gate.number(),
        gate.newest(),
        payload.as_slice().len(),
        payload.as_slice().first().copied(),
    ))
}

#[test]
fn no_gate_is_open(rt: HostRuntime) -> Result<(), Fail> {
    let alloc = rt.alloc();
    let mut host = MemHost::new(alloc, &[], &[])?;
    assert_eq!(rt; opened(alloc, &mut host), Err(Stop::NoStore));
    assert_eq!(rt; host.make(0, 4), Ok(()));
    assert!(rt; save(&mut host, 2, &frame(1, 0, 1, 10)));
    assert_eq!(rt; opened(alloc, &mut host), Err(Stop::NoStore));
    assert!(rt; save(&mut host, 0, &gate(2)));
    assert_eq!(rt; opened(alloc, &mut host), Err(Stop::NoStore));
    assert!(rt; save(&mut host, 0, &gate(1)));
    assert_eq!(rt; opened(alloc, &mut host), Ok((1, 0, 1, Some(10))));
    Ok(())
}

#[test]
fn the_greater_number_is_the_newest(rt: HostRuntime) -> Result<(), Fail> {
    let alloc = rt.alloc();
    let mut host = MemHost::new(alloc, &[], &[])?;
    assert_eq!(rt; host.make(0, 4), Ok(()));
    assert!(rt; save(&mut host, 0, &gate(1)));
    assert!(rt; save(&mut host, 1, &gate(1)));
    assert!(rt; save(&mut host, 2, &frame(1, 0, 7, 70)));
    assert!(rt; save(&mut host, 3, &frame(1, 0, 8, 80)));
    assert_eq!(rt; opened(alloc, &mut host), Ok((8, 1, 1, Some(80))));
    assert!(rt; save(&mut host, 3, &frame(1, 0, 7, 80)));
    assert_eq!(rt; opened(alloc, &mut host), Ok((7, 0, 1, Some(70))));
    assert!(rt; save(&mut host, 0, &gate(0)));
    assert_eq!(rt; opened(alloc, &mut host), Ok((7, 1, 1, Some(80))));
    Ok(())
}

// A frame has a payload of 4080 bytes at most in a slot of one block.
#[test]
fn a_frame_behind_an_open_gate_is_bad(rt: HostRuntime) -> Result<(), Fail> {
    let alloc = rt.alloc();
    let mut host = MemHost::new(alloc, &[], &[])?;
    assert_eq!(rt; host.make(0, 4), Ok(()));
    assert!(rt; save(&mut host, 1, &gate(1)));
    assert!(rt; save(&mut host, 3, &frame(0xF0, 0x0F, 3, 30)));
    assert_eq!(rt; opened(alloc, &mut host), Ok((3, 1, 4080, Some(30))));
    assert!(rt; save(&mut host, 3, &frame(0xF1, 0x0F, 3, 30)));
    assert_eq!(rt;
        opened(alloc, &mut host),
        Err(Stop::Damaged { file: 0, block: 3 })
    );
    assert!(rt; save(&mut host, 1, &gate(0)));
    assert_eq!(rt; opened(alloc, &mut host), Err(Stop::NoStore));
    Ok(())
}

// A stop within the write that opens a gate leaves it with any bytes: the newest record is the old one or the new one.
#[test]
fn a_gate_is_torn(rt: HostRuntime) -> Result<(), Fail> {
    let alloc = rt.alloc();
    let mut host = MemHost::new(alloc, &[], &[])?;
    assert_eq!(rt; host.make(0, 4), Ok(()));
    assert!(rt; save(&mut host, 2, &frame(1, 0, 1, 10)));
    assert!(rt; save(&mut host, 0, &gate(1)));
    assert!(rt; save(&mut host, 3, &frame(1, 0, 2, 20)));
    let before = host.moments();
    assert!(rt; save(&mut host, 1, &gate(1)));
    let closed = Tear {
        file: 0,
        index: 1,
        block: [0; 4096],
    };
    let open = Tear {
        file: 0,
        index: 1,
        block: gate(1),
    };
    let mut image = host.image(alloc, before, &[closed])?;
    assert_eq!(rt; opened(alloc, &mut image), Ok((1, 0, 1, Some(10))));
    let mut image = host.image(alloc, before, &[open])?;
    assert_eq!(rt; opened(alloc, &mut image), Ok((2, 1, 1, Some(20))));
    Ok(())
}
