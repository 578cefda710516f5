//! Stores that are made.
use ak_base::{Limits, Stop};
use ak_checkpoint::make_store;
use ak_gate::Gate;
use ak_host::Disk;
use ak_memhost::MemHost;
use std::alloc::Global;
use std::test::Fail;

// Slots of one block.
const LIMITS: Limits = Limits {
    volumes: 2,
    blocks: 16,
    slot: 1,
    pool: 3,
    every: 4,
    scale: 5,
};

// The number and the slot of the newest record, and its payload's length.
pub(crate) fn opened(alloc: Global, disk: &mut MemHost) -> Result<(u64, u32, usize), Stop> {
    let (gate, payload) = Gate::open(alloc, disk)?;
    Ok((gate.number(), gate.newest(), payload.as_slice().len()))
}

#[test]
fn a_store_is_made(rt: HostRuntime) -> Result<(), Fail> {
    let alloc = rt.alloc();
    let mut host = MemHost::new(alloc, &[], &[])?;
    match make_store(alloc, &mut host, &LIMITS) {
        Ok((meta, checkpoint)) => {
            assert_eq!(rt; meta.limits(), LIMITS);
            assert_eq!(rt; checkpoint.number(), 1);
            assert_eq!(rt; checkpoint.room(), 4096);
            assert!(rt; !checkpoint.pending());
            assert!(rt; !checkpoint.broken());
        }
        Err(_) => assert!(rt; false),
    }
    assert_eq!(rt; host.files(), 3);
    assert_eq!(rt; opened(alloc, &mut host), Ok((1, 0, 48)));
    assert!(rt; matches!(make_store(alloc, &mut host, &LIMITS), Err(Stop::Exists)));
    Ok(())
}
