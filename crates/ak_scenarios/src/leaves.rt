//! Leaves on the disk, and what fills a store.
ghost use Rattle.std.specs.Prelude.{◌≡◌, ◌<◌, true, length, slice_index};

use crate::gates::opened;
use crate::stops::{NO_POINT, ONE_POINT, QUERY, RUN, call, last_moment, made, perform, shows};
use crate::tests::cut;
use ak_base::{Addr, Bytes};
use ak_host::Disk;
use ak_inner::Inner;
use ak_memhost::MemHost;
use std::alloc::{AllocError, Global};
use std::process::Abort;
use std::test::Fail;

const CREATE: &str = "create d --volumes 2 --blocks 16 --slot 1 --pool 4 --every 1000 --scale 0";

// A put of one value.
pub(crate) fn put(
    alloc: Global,
    stream: &mut Bytes,
    name: &[u8],
    time: u64,
    value: &[u8],
) -> Result<(), AllocError> {
    stream.extend(alloc, b"+")?;
    stream.extend(alloc, name)?;
    stream.extend(alloc, b"\r\n:")?;
    stream.extend_decimal(alloc, time)?;
    stream.extend(alloc, b"\r\n:")?;
    stream.extend(alloc, value)?;
    stream.extend(alloc, b"\r\n")
}

// The row of its point.
pub(crate) fn row(
    alloc: Global,
    text: &mut Bytes,
    name: &[u8],
    time: u64,
    value: &[u8],
) -> Result<(), AllocError> {
    text.extend(alloc, name)?;
    text.extend(alloc, b",")?;
    text.extend_decimal(alloc, time)?;
    text.extend(alloc, b",")?;
    text.extend(alloc, value)?;
    text.extend(alloc, b"\n")
}

// The answer to a query that gives these rows.
pub(crate) fn answered(alloc: Global, text: &[u8]) -> Result<Bytes, AllocError> {
    let mut answer = Bytes::new(alloc);
    answer.extend(alloc, b"$")?;
    answer.extend_decimal(alloc, text.len() as u64)?;
    answer.extend(alloc, b"\r\n")?;
    answer.extend(alloc, text)?;
    answer.extend(alloc, b"\r\n")?;
    Ok(answer)
}

pub(crate) fn decimal(alloc: Global, number: u64) -> Result<Bytes, AllocError> {
    let mut digits = Bytes::new(alloc);
    digits.extend_decimal(alloc, number)?;
    Ok(digits)
}

// A point of `cpu` at each time from 1 on, with two values in turn.
fn points(alloc: Global, count: u64, values: [&[u8]; 2]) -> Result<Bytes, AllocError> {
    let mut stream = Bytes::new(alloc);
    for time in 1..count.saturating_add(1) {
        let value = if time % 2 == 1 { values[0] } else { values[1] };
        put(alloc, &mut stream, b"cpu", time, value)?;
    }
    Ok(stream)
}

// The answer to a query of them.
fn rows(alloc: Global, count: u64, values: [&[u8]; 2]) -> Result<Bytes, AllocError> {
    let mut text = Bytes::new(alloc);
    for time in 1..count.saturating_add(1) {
        let value = if time % 2 == 1 { values[0] } else { values[1] };
        row(alloc, &mut text, b"cpu", time, value)?;
    }
    answered(alloc, text.as_slice())
}

// A leaf takes 2016 points of two bytes, or 366 of eleven. One point more is one write more: the end of the run closes the
// open leaf, and takes a view by two writes.
#[test]
fn full_leaves(rt: HostRuntime) -> Result<(), Fail> {
    let alloc = rt.alloc();
    let zeros: [&[u8]; 2] = [b"0", b"0"];
    let extremes: [&[u8]; 2] = [b"9223372036854775807", b"-9223372036854775808"];
    let runs: [(u64, [&[u8]; 2], u64); 4] = [
        (2016, zeros, 3),
        (2017, zeros, 4),
        (366, extremes, 3),
        (367, extremes, 4),
    ];
    for (count, values, writes) in runs {
        let mut host = made(&rt, alloc, CREATE)?;
        let mut stream = points(alloc, count, values)?;
        stream.extend(alloc, QUERY)?;
        let status = call(alloc, &mut host, RUN, stream.as_slice())?;
        let answer = rows(alloc, count, values)?;
        assert_eq!(rt; status, 0);
        assert_eq!(rt; host.told(1), answer.as_slice());
        assert_eq!(rt; host.writes(), writes);
        shows(
            &rt,
            alloc,
            &host,
            last_moment(&host),
            &[],
            answer.as_slice(),
        )?;
    }
    Ok(())
}

// Five series share four frames. The first is closed by the fifth, and read from the disk then.
#[test]
fn more_series_than_frames(rt: HostRuntime) -> Result<(), Fail> {
    let alloc = rt.alloc();
    let mut host = made(&rt, alloc, CREATE)?;
    let mut stream = Bytes::new(alloc);
    for host_name in [b"a", b"b", b"c", b"d", b"e", b"a"] {
        stream.extend(alloc, b"+cpu host=")?;
        stream.extend(alloc, host_name)?;
        stream.extend(alloc, b"\r\n:1\r\n:1\r\n")?;
    }
    stream.extend(alloc, QUERY)?;
    let status = call(alloc, &mut host, RUN, stream.as_slice())?;
    assert_eq!(rt; status, 0);
    assert_eq!(rt;
        host.told(1),
        b"$90\r\ncpu host=a,1,1\ncpu host=a,1,1\ncpu host=b,1,1\ncpu host=c,1,1\ncpu host=d,1,1\ncpu host=e,1,1\n\r\n".as_slice()
    );
    // two leaves are closed for want of a frame, four by the end of the run, and two writes take its view
    assert_eq!(rt; host.writes(), 8);
    Ok(())
}

// The answer to a query of points whose times are their values, from one time on and below another.
fn rows_between(alloc: Global, from: u64, to: u64) -> Result<Bytes, AllocError> {
    let mut text = Bytes::new(alloc);
    for time in from..to {
        let value = decimal(alloc, time)?;
        row(alloc, &mut text, b"cpu", time, value.as_slice())?;
    }
    answered(alloc, text.as_slice())
}

// How many reads an opening of the store makes, which has two views.
fn reads_of_opening<R: Abort>(rt: &R, alloc: Global, host: &MemHost) -> Result<u64, Fail> {
    let mut image = host.image(alloc, last_moment(host), &[])?;
    let status = call(alloc, &mut image, RUN, b"")?;
    assert_eq!(rt; status, 0);
    Ok(image.reads())
}

// The number of the view that a stop at a moment leaves.
fn view_at(alloc: Global, host: &MemHost, moment: u64) -> Result<Option<u64>, Fail> {
    let mut image = host.image(alloc, moment, &[])?;
    match opened(alloc, &mut image) {
        Ok((number, _, _, _)) => Ok(Some(number)),
        Err(_) => Ok(None),
    }
}

// The first moment at which port 1 was told all that it is told.
fn all_told(host: &MemHost) -> u64 {
    let all = host.told(1).len() as u64;
    for moment in 0..host.moments() {
        if host.told_at(1, moment) == all {
            return moment;
        }
    }
    host.moments()
}

// A run in which a point and a flush come for each time from one on and below another, and then a query that gives the
// points kept of them.
fn reused<R: Abort>(
    rt: &R,
    alloc: Global,
    host: &mut MemHost,
    times: (u64, u64),
    kept: u64,
) -> Result<Bytes, Fail> {
    let (from, to) = times;
    let answer = rows_between(alloc, kept, to)?;
    flushed(rt, alloc, host, (from, to), QUERY, answer.as_slice())?;
    shows(rt, alloc, host, last_moment(host), &[], answer.as_slice())?;
    Ok(answer)
}

// Leaves 0 to 15 fill ordinal 0, and leaves 16 to 30 all but one block of ordinal 1. The group of leaf 31 has two blocks, and
// ordinal 2 takes the place of ordinal 0. So the leaves 0 to 15 are lost, and an opening reads the node of level 1 alone. Leaf 46
// gives up ordinal 1. An opening reads that node again, and the 16 leaves behind it. The first view is that of the new store,
// and one is taken by each flush, at each of the two switches and at the end.
#[test]
fn the_oldest_volume_is_reused(rt: HostRuntime) -> Result<(), Fail> {
    let alloc = rt.alloc();
    let mut host = made(&rt, alloc, CREATE)?;
    let _ = call(alloc, &mut host, RUN, b"")?;
    let least = reads_of_opening(&rt, alloc, &host)?;
    let mut host = made(&rt, alloc, CREATE)?;
    let answer = reused(&rt, alloc, &mut host, (1, 33), 17)?;
    assert!(rt; answer.as_slice().starts_with(b"$160\r\n"));
    assert_eq!(rt; view_at(alloc, &host, all_told(&host))?, Some(35));
    assert_eq!(rt; view_at(alloc, &host, last_moment(&host))?, Some(36));
    let reads = reads_of_opening(&rt, alloc, &host)?;
    assert_eq!(rt; reads.saturating_sub(least), 1);
    let answer = reused(&rt, alloc, &mut host, (33, 49), 32)?;
    assert!(rt; answer.as_slice().starts_with(b"$170\r\n"));
    let reads = reads_of_opening(&rt, alloc, &host)?;
    assert_eq!(rt; reads.saturating_sub(least), 17);
    Ok(())
}

// 31 series with names of 20 bytes take 3970 of the 4096 bytes of a slot. One with 21 bytes is refused, and one with 20
// accepted. A point of a known series needs no room.
#[test]
fn metadata_full(rt: HostRuntime) -> Result<(), Fail> {
    let alloc = rt.alloc();
    let mut host = made(
        &rt,
        alloc,
        "create d --volumes 2 --blocks 64 --slot 1 --pool 64 --every 1000 --scale 0",
    )?;
    let mut stream = Bytes::new(alloc);
    for number in 0..31 {
        stream.extend(alloc, b"+m")?;
        stream.extend_decimal(alloc, 1_000_000_000_000_000_000 + number)?;
        stream.extend(alloc, b"\r\n:1\r\n:0\r\n")?;
    }
    stream.extend(
        alloc,
        b"+m10000000000000000000\r\n:1\r\n:0\r\n+m1000000000000000099\r\n:1\r\n:0\r\n+m\r\n:1\r\n:0\r\n\
+m1000000000000000030\r\n:2\r\n:5\r\n+!query\r\n$33\r\n{\"select\":\"m1000000000000000030\"}\r\n",
    )?;
    let status = call(alloc, &mut host, RUN, stream.as_slice())?;
    assert_eq!(rt; status, 0);
    assert_eq!(rt;
        host.told(1),
        b"-ERR 26 metadata full, need 4097 room 4096\r\n-ERR 26 metadata full, need 4203 room 4096\r\n\
$50\r\nm1000000000000000030,1,0\nm1000000000000000030,2,5\n\r\n"
            .as_slice()
    );
    Ok(())
}

const POINT: &[u8] = b"+cpu\r\n:1\r\n:1\r\n+!flush\r\n";

// The status of a run in which one call fails.
fn failing(alloc: Global, host: &mut MemHost, number: u64) -> Result<u8, AllocError> {
    let turns = cut(alloc, POINT, 4096)?;
    host.load(alloc, turns.as_slice(), &[number])?;
    perform(alloc, host, RUN)
}

// The first call of the ports gives the turn, and the next call writes the leaf.
#[test]
fn failed_leaf_write(rt: HostRuntime) -> Result<(), Fail> {
    let alloc = rt.alloc();
    for number in 0..100 {
        let mut host = made(&rt, alloc, CREATE)?;
        if failing(alloc, &mut host, number)? == 4 {
            let mut host = made(&rt, alloc, CREATE)?;
            assert_eq!(rt; failing(alloc, &mut host, number + 1)?, 3);
            assert_eq!(rt; host.told(1), b"".as_slice());
            assert_eq!(rt; host.told(0), b"akl: disk failed\n".as_slice());
            return shows(&rt, alloc, &host, last_moment(&host), &[], NO_POINT);
        }
    }
    assert!(rt; false);
    Ok(())
}

// Whether a block of a file is there.
fn is_block<D: Disk>(disk: &D, file: u32, index: u32) -> bool
    ensures { result ≡ true → (file < length (D.state disk.now).sizes) × (index < slice_index (D.state disk.now).sizes file) }
{
    file < disk.files() && index < disk.blocks(file)
}

// A leaf that was overwritten is told as the store is opened.
#[test]
fn a_zeroed_leaf_is_told(rt: HostRuntime) -> Result<(), Fail> {
    let alloc = rt.alloc();
    let mut host = made(&rt, alloc, CREATE)?;
    let status = call(alloc, &mut host, RUN, POINT)?;
    assert_eq!(rt; status, 0);
    shows(&rt, alloc, &host, last_moment(&host), &[], ONE_POINT)?;
    host.load(alloc, &[], &[])?;
    let is_there = is_block(&host, 1, 0) && host.moments() == 1;
    assert!(rt; is_there);
    host.plant(1, 0, &[0; 4096]);
    let status = call(alloc, &mut host, RUN, b"")?;
    assert_eq!(rt; status, 2);
    assert_eq!(rt; host.told(1), b"".as_slice());
    assert_eq!(rt; host.told(0), b"akl: damaged file 1 block 0\n".as_slice());
    Ok(())
}

// A run in which leaves of one point each are closed by flushes: the point of each has a time and a value, from one on and below
// another. Each flush is told, and then a query is answered so.
fn flushed<R: Abort>(
    rt: &R,
    alloc: Global,
    host: &mut MemHost,
    times: (u64, u64),
    query: &[u8],
    answer: &[u8],
) -> Result<(), Fail> {
    let mut stream = Bytes::new(alloc);
    let mut told = Bytes::new(alloc);
    for time in times.0..times.1 {
        let value = decimal(alloc, time)?;
        put(alloc, &mut stream, b"cpu", time, value.as_slice())?;
        stream.extend(alloc, b"+!flush\r\n")?;
        told.extend(alloc, b"+OK\r\n")?;
    }
    stream.extend(alloc, query)?;
    told.extend(alloc, answer)?;
    let status = call(alloc, host, RUN, stream.as_slice())?;
    assert_eq!(rt; status, 0);
    assert_eq!(rt; host.told(1), told.as_slice());
    Ok(())
}

// A store with 64 blocks to a volume.
const CREATE_WIDER: &str =
    "create d --volumes 2 --blocks 64 --slot 1 --pool 4 --every 1000 --scale 0";

// The references of the inner node of series 0 in a block of file 1, where it is one with this level and this number.
fn inner_node(host: &mut MemHost, index: u32, level: u8, number: u64) -> Option<Inner> {
    let mut block = [0; 4096];
    let mut node = Inner::new();
    if is_block(host, 1, index) && host.read(1, index, &mut block).is_ok() {
        node.decode(&block, level, 0, number, Addr(u64::from(index)))?;
        return Some(node);
    }
    None
}

// The 32nd leaf fills level 1: the block behind it is the first node of that level, and refers to all leaves.
#[test]
fn an_inner_node_behind_leaves(rt: HostRuntime) -> Result<(), Fail> {
    let alloc = rt.alloc();
    let mut host = made(&rt, alloc, CREATE_WIDER)?;
    flushed(&rt, alloc, &mut host, (1, 33), b"", b"")?;
    let Some(node) = inner_node(&mut host, 32, 1, 0) else {
        assert!(rt; false);
        return Ok(());
    };
    let refs = node.refs();
    assert_eq!(rt; refs.len(), 32);
    for (i, r) in refs.iter().enumerate() {
        assert_eq!(rt; r.addr, Addr(i as u64));
        assert_eq!(rt; r.first_leaf, Addr(i as u64));
        assert_eq!(rt; r.summary.count, 1);
        assert_eq!(rt; r.summary.sum, i as i128 + 1);
    }
    Ok(())
}

// What waits is the same after an opening: the node behind the 32nd leaf refers to the leaves of two runs.
#[test]
fn an_inner_node_over_two_runs(rt: HostRuntime) -> Result<(), Fail> {
    let alloc = rt.alloc();
    let mut host = made(&rt, alloc, CREATE_WIDER)?;
    flushed(&rt, alloc, &mut host, (1, 11), b"", b"")?;
    flushed(&rt, alloc, &mut host, (11, 33), b"", b"")?;
    let Some(node) = inner_node(&mut host, 32, 1, 0) else {
        assert!(rt; false);
        return Ok(());
    };
    let refs = node.refs();
    assert_eq!(rt; refs.len(), 32);
    for (i, r) in refs.iter().enumerate() {
        assert_eq!(rt; r.addr, Addr(i as u64));
        assert_eq!(rt; r.summary.sum, i as i128 + 1);
    }
    Ok(())
}

// A block of file 1 is overwritten. Gives whether it is there.
fn zeroed(alloc: Global, host: &mut MemHost, index: u32) -> Result<bool, AllocError> {
    host.load(alloc, &[], &[])?;
    if is_block(host, 1, index) && host.moments() == 1 {
        host.plant(1, index, &[0; 4096]);
        return Ok(true);
    }
    Ok(false)
}

// An inner node that was overwritten is told as the store is opened. A leaf under it isn't read then, but by a query.
#[test]
fn a_zeroed_node_is_told(rt: HostRuntime) -> Result<(), Fail> {
    let alloc = rt.alloc();
    let mut host = made(&rt, alloc, CREATE_WIDER)?;
    flushed(&rt, alloc, &mut host, (1, 33), b"", b"")?;
    assert!(rt; zeroed(alloc, &mut host, 5)?);
    assert_eq!(rt; call(alloc, &mut host, RUN, b"")?, 0);
    assert_eq!(rt; call(alloc, &mut host, RUN, QUERY)?, 2);
    assert_eq!(rt; host.told(0), b"akl: damaged file 1 block 5\n".as_slice());
    assert!(rt; zeroed(alloc, &mut host, 32)?);
    assert_eq!(rt; call(alloc, &mut host, RUN, b"")?, 2);
    assert_eq!(rt; host.told(0), b"akl: damaged file 1 block 32\n".as_slice());
    Ok(())
}
