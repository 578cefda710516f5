//! Leaves that are read by their addresses.
ghost use Rattle.std.specs.Prelude.{◌≡◌, ◌∷◌, [], true};
ghost use Rattle.ak_image.specs.Blocks.{AreThere};
ghost use Rattle.ak_volumes.specs.Ordinals.{ordinals};

use crate::disk::{make, put};
use ak_base::{Addr, Point, Stop};
use ak_bytes::Head;
use ak_cache::{Cached, Reach};
use ak_host::{Block, Disk};
use ak_leaf::LeafBuf;
use ak_memhost::MemHost;
use ak_volumes::Volumes;
use std::alloc::Global;
use std::process::Abort;
use std::test::Fail;

// Index 2 of ordinal 1, which stands in file 2.
pub(crate) const PLACE: Addr = Addr(0x1_0000_0002);

const HEAD: Head = Head {
    kind: Head::LEAF,
    level: 0,
    count: 1,
    series: 3,
    number: 0,
    addr: PLACE,
    elder: Addr(u64::MAX),
    length: 2,
};

// The block with that head of the point (100, 5), byte by byte.
pub(crate) fn leaf() -> Block {
    let mut block = [0; 4096];
    block[0] = 1;
    block[2] = 1;
    block[4] = 3;
    block[16] = 2;
    block[20] = 1;
    for i in 24..32 {
        block[i] = 0xff;
    }
    block[32] = 2;
    block[64] = 0x64;
    block[65] = 0x0a;
    block
}

// Two volumes of 16 blocks are there.
pub(crate) fn are_there<D: Disk>(disk: &D) -> bool
    ensures { result ≡ true → AreThere (ordinals 2 16 0 (16 ∷ 3 ∷ [])) (D.state disk.now) }
{
    disk.files() == 3 && disk.blocks(1) == 16 && disk.blocks(2) == 16
}

// A host with two volumes of 16 blocks, whose calls with these numbers fail, from 0 on.
pub(crate) fn host<R: Abort>(rt: &R, alloc: Global, fails: &[u64]) -> Result<MemHost, Fail> {
    let mut host = MemHost::new(alloc, &[], fails)?;
    for file in 0..3 {
        assert!(rt; make(&mut host, file, 16));
    }
    Ok(host)
}

// The leaf of a series with this number at an address is answered so, with so many points in the scratch, after so many
// reads.
fn answers<R: Abort>(
    rt: &R,
    alloc: Global,
    host: &mut MemHost,
    asked: (Addr, u32, u64),
    answer: Result<Head, Stop>,
    points: &[Point],
    reads: u64,
) -> Result<(), Fail> {
    let volumes = Volumes::new(alloc, 2, 16, 0, &[16, 3])?;
    let mut cache = Cached::new(alloc, 1)?;
    let mut scratch = LeafBuf::new(alloc)?;
    let (a, series, number) = asked;
    let before = host.reads();
    assert!(rt; volumes.live(a) && are_there(host));
    let mut reach = Reach {
        disk: host,
        volumes: &volumes,
        cache: &mut cache,
        scratch: &mut scratch,
    };
    assert_eq!(rt; reach.leaf(a, series, number), answer);
    assert_eq!(rt; scratch.points(), points);
    assert_eq!(rt; host.reads() - before, reads);
    Ok(())
}

#[test]
fn a_leaf_is_read(rt: HostRuntime) -> Result<(), Fail> {
    let alloc = rt.alloc();
    let mut host = host(&rt, alloc, &[])?;
    assert!(rt; put(&mut host, 2, 2, &leaf()));
    let point = Point { ts: 100, value: 5 };
    answers(&rt, alloc, &mut host, (PLACE, 3, 0), Ok(HEAD), &[point], 1)
}

#[test]
fn another_leaf_is_damage(rt: HostRuntime) -> Result<(), Fail> {
    let alloc = rt.alloc();
    let mut host = host(&rt, alloc, &[])?;
    let damaged = Err(Stop::Damaged { file: 2, block: 2 });
    answers(&rt, alloc, &mut host, (PLACE, 3, 0), damaged, &[], 1)?;
    assert!(rt; put(&mut host, 2, 2, &leaf()));
    answers(&rt, alloc, &mut host, (PLACE, 2, 0), damaged, &[], 1)?;
    answers(&rt, alloc, &mut host, (PLACE, 3, 1), damaged, &[], 1)?;
    assert!(rt; put(&mut host, 2, 1, &leaf()));
    let damaged = Err(Stop::Damaged { file: 2, block: 1 });
    answers(
        &rt,
        alloc,
        &mut host,
        (Addr(0x1_0000_0001), 3, 0),
        damaged,
        &[],
        1,
    )?;
    let damaged = Err(Stop::Damaged { file: 1, block: 2 });
    answers(&rt, alloc, &mut host, (Addr(2), 3, 0), damaged, &[], 1)
}

// The read is the fifth call, and fails.
#[test]
fn a_failed_read_is_no_damage(rt: HostRuntime) -> Result<(), Fail> {
    let alloc = rt.alloc();
    let mut host = host(&rt, alloc, &[4])?;
    assert!(rt; put(&mut host, 2, 2, &leaf()));
    let asked = (PLACE, 3, 0);
    answers(&rt, alloc, &mut host, asked, Err(Stop::Disk), &[], 0)
}
