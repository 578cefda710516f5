ghost use Rattle.std.specs.Prelude.{◌≡◌, ◌<◌, true, length, slice_index, IfOk, codes};

use super::*;
use ak_base::Bytes;
use ak_host::{Block, Disk, Failed, Ports, Turn};
use std::alloc::{AllocError, Global};
use std::test::Fail;

// Tests ask first whether a block is there, so that no fact of the sizes has to last from call to call.
fn is_there<D: Disk>(disk: &D, file: u32, index: u32) -> bool
    ensures { result ≡ true → (file < length (D.state disk.now).sizes) × (index < slice_index (D.state disk.now).sizes file) }
{
    file < disk.files() && index < disk.blocks(file)
}

fn write<D: Disk>(disk: &mut D, file: u32, index: u32, from: &Block) -> bool {
    is_there(disk, file, index) && disk.write(file, index, from).is_ok()
}

fn sync<D: Disk>(disk: &mut D, file: u32) -> bool {
    is_there(disk, file, 0) && disk.sync(file).is_ok()
}

// The first byte of a block.
fn first_byte<D: Disk>(disk: &mut D, file: u32, index: u32) -> Option<u8> {
    let mut block = [0; 4096];
    if is_there(disk, file, index) && disk.read(file, index, &mut block).is_ok() {
        Some(block[0])
    } else {
        None
    }
}

// A write that was not synced may be torn; a synced one stands.
#[test]
fn an_unsynced_block_is_torn(rt: HostRuntime) -> Result<(), Fail> {
    let alloc = rt.alloc();
    let mut host = MemHost::new(alloc, &[], &[])?;
    assert_eq!(rt; host.make(0, 2), Ok(()));
    assert!(rt; write(&mut host, 0, 0, &[1; 4096]));
    assert!(rt; sync(&mut host, 0));
    assert!(rt; write(&mut host, 0, 1, &[1; 4096]));
    assert_eq!(rt; host.moments(), 9);
    let tear = Tear {
        file: 0,
        index: 1,
        block: [2; 4096],
    };
    let mut image = host.image(alloc, 8, &[tear])?;
    assert_eq!(rt; first_byte(&mut image, 0, 0), Some(1));
    assert_eq!(rt; first_byte(&mut image, 0, 1), Some(2));
    assert_eq!(rt; (image.reads(), image.writes(), image.moments()), (2, 0, 5));
    let mut before = host.image(alloc, 6, &[tear])?;
    assert_eq!(rt; first_byte(&mut before, 0, 1), Some(0));
    assert!(rt; matches!(host.image(alloc, 9, &[]), Err(ImageError::NoMoment)));
    Ok(())
}

// A numbered write has still written, and any other numbered call has done nothing.
#[test]
fn numbered_calls_fail(rt: HostRuntime) -> Result<(), Fail> {
    let alloc = rt.alloc();
    let mut host = MemHost::new(alloc, &[MemTurn::End { port: 3 }], &[0, 2, 4, 6])?;
    assert_eq!(rt; host.make(0, 1), Err(Failed));
    assert_eq!(rt; host.make(0, 1), Ok(()));
    assert!(rt; !write(&mut host, 0, 0, &[7; 4096]));
    assert_eq!(rt; first_byte(&mut host, 0, 0), Some(7));
    let mut block = [0; 4096];
    assert_eq!(rt; host.turn(&mut block), Err(Failed));
    assert_eq!(rt; host.turn(&mut block), Ok(Turn::End { port: 3 }));
    assert_eq!(rt; host.reply(3, b"no"), Err(Failed));
    assert_eq!(rt; host.turn(&mut block), Ok(Turn::Done));
    assert_eq!(rt; (host.reads(), host.writes(), host.refused()), (1, 1, 0));
    Ok(())
}

fn piece(alloc: Global) -> Result<Bytes, AllocError>
    ensures { IfOk result (λ bytes. bytes ≡ codes "hi") }
{
    let mut bytes = Bytes::new(alloc);
    bytes.extend(alloc, b"hi")?;
    Ok(bytes)
}

#[test]
fn each_kind_of_turn_is_given(rt: HostRuntime) -> Result<(), Fail> {
    let alloc = rt.alloc();
    let bytes = piece(alloc)?;
    let turns = [
        MemTurn::Bytes { port: 1, bytes },
        MemTurn::End { port: 3 },
        MemTurn::Idle,
        MemTurn::Done,
    ];
    let mut host = MemHost::new(alloc, &turns, &[])?;
    let mut block = [0; 4096];
    assert_eq!(rt; host.turn(&mut block), Ok(Turn::Bytes { port: 1, n: 2 }));
    assert_eq!(rt; (block[0], block[1]), (b'h', b'i'));
    assert_eq!(rt; host.turn(&mut block), Ok(Turn::End { port: 3 }));
    assert_eq!(rt; host.turn(&mut block), Ok(Turn::Idle));
    assert_eq!(rt; host.turn(&mut block), Ok(Turn::Done));
    assert_eq!(rt; host.turn(&mut block), Ok(Turn::Done));
    assert_eq!(rt; host.refused(), 0);
    Ok(())
}

#[test]
fn each_port_hears_what_it_was_told(rt: HostRuntime) -> Result<(), Fail> {
    let mut host = MemHost::new(rt.alloc(), &[], &[])?;
    assert_eq!(rt; host.reply(7, b"ab"), Ok(()));
    assert_eq!(rt; host.reply(2, b"c"), Ok(()));
    assert_eq!(rt; host.reply(7, b"d"), Ok(()));
    assert_eq!(rt; host.told(7), b"abd".as_slice());
    assert_eq!(rt; host.told(2), b"c".as_slice());
    assert_eq!(rt;
        (
            host.told_at(7, 1),
            host.told_at(7, 2),
            host.told_at(7, 5),
            host.told_at(7, 6)
        ),
        (0, 2, 2, 3)
    );
    Ok(())
}

// What is unsynced stays so over a load, and a planted block is stable.
#[test]
fn a_loaded_host_begins_anew(rt: HostRuntime) -> Result<(), Fail> {
    let alloc = rt.alloc();
    let mut host = MemHost::new(alloc, &[], &[])?;
    assert_eq!(rt; host.make(0, 2), Ok(()));
    assert!(rt; write(&mut host, 0, 0, &[1; 4096]));
    assert_eq!(rt; host.reply(1, b"x"), Ok(()));
    host.load(alloc, &[], &[])?;
    assert_eq!(rt;
        (host.moments(), host.writes(), host.told(1).len()),
        (1, 0, 0)
    );
    if is_there(&host, 0, 1) && host.moments() == 1 {
        host.plant(0, 1, &[9; 4096]);
    }
    let tears = [
        Tear {
            file: 0,
            index: 0,
            block: [2; 4096],
        },
        Tear {
            file: 0,
            index: 1,
            block: [3; 4096],
        },
    ];
    let mut image = host.image(alloc, 0, &tears)?;
    assert_eq!(rt; first_byte(&mut image, 0, 0), Some(2));
    assert_eq!(rt; first_byte(&mut image, 0, 1), Some(9));
    Ok(())
}
