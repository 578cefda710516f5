//! A store that is run, stopped and run again.
ghost use Rattle.std.specs.Prelude.{◌≤◌};

use crate::gates::is_there;
use crate::tests::cut;
use ak_base::Bytes;
use ak_host::{Block, Disk};
use ak_memhost::{MemHost, Tear};
use ak_top::akl;
use std::alloc::{AllocError, Global};
use std::process::Abort;
use std::test::Fail;

// Slot 0 is block 2 of file 0, and slot 1 is block 3. The first view is in slot 0.
const CREATE: &str = "create d --volumes 2 --blocks 16 --slot 1 --pool 1 --scale 0";

pub(crate) const RUN: &str = "run d";

// Two points, with a view behind each: view 2 in slot 1, and view 3 in slot 0. The end of the run takes view 4.
const POINTS: &[u8] = b"+cpu\r\n:1\r\n:1\r\n+!flush\r\n+cpu\r\n:2\r\n:2\r\n+!flush\r\n";

pub(crate) const QUERY: &[u8] = b"+!query\r\n$16\r\n{\"select\":\"cpu\"}\r\n";

pub(crate) const NO_POINT: &[u8] = b"$0\r\n\r\n";

pub(crate) const ONE_POINT: &[u8] = b"$8\r\ncpu,1,1\n\r\n";

const TWO_POINTS: &[u8] = b"$16\r\ncpu,1,1\ncpu,2,2\n\r\n";

// Calls with these words, which are split at blanks, and with the stream on port 1 in pieces of this size. Gives the
// status.
fn call_in_pieces(
    alloc: Global,
    host: &mut MemHost,
    line: &str,
    stream: &[u8],
    size: usize,
) -> Result<u8, AllocError>
    requires least { 1 ≤ size }
    requires most { size ≤ 4096 }
{
    let turns = cut(alloc, stream, size)?;
    host.load(alloc, turns.as_slice(), &[])?;
    perform(alloc, host, line)
}

pub(crate) fn call(
    alloc: Global,
    host: &mut MemHost,
    line: &str,
    stream: &[u8],
) -> Result<u8, AllocError> {
    call_in_pieces(alloc, host, line, stream, 4096)
}

pub(crate) fn perform(alloc: Global, host: &mut MemHost, line: &str) -> Result<u8, AllocError> {
    let mut words = Vec::new(alloc);
    for word in line.split(' ') {
        words.push(String::from_str(alloc, word)?)?;
    }
    Ok(akl(alloc, words.as_slice(), host))
}

// A store that was made by these words.
pub(crate) fn made<R: Abort>(rt: &R, alloc: Global, line: &str) -> Result<MemHost, Fail> {
    let mut host = MemHost::new(alloc, &[], &[])?;
    let status = call(alloc, &mut host, line, b"")?;
    assert_eq!(rt; status, 0);
    Ok(host)
}

fn store<R: Abort>(rt: &R, alloc: Global) -> Result<MemHost, Fail> {
    made(rt, alloc, CREATE)
}

// A store that was made and run.
fn after_run<R: Abort>(rt: &R, alloc: Global, stream: &[u8]) -> Result<MemHost, Fail> {
    let mut host = store(rt, alloc)?;
    let status = call(alloc, &mut host, RUN, stream)?;
    assert_eq!(rt; status, 0);
    Ok(host)
}

pub(crate) fn last_moment(host: &MemHost) -> u64 {
    host.moments() - 1
}

// A block of file 0 with this first byte and these behind it.
fn torn(index: u32, first: u8, behind: u8) -> Tear {
    let mut block = [behind; 4096];
    block[0] = first;
    Tear {
        file: 0,
        index,
        block,
    }
}

// Whether a stop at a moment may tear a block of file 0.
fn may_be_torn(alloc: Global, host: &MemHost, moment: u64, index: u32) -> Result<bool, Fail> {
    let mut image = host.image(alloc, moment, &[torn(index, 0xEE, 0xEE)])?;
    let mut block = [0; 4096];
    Ok(is_there(&image, index) && image.read(0, index, &mut block).is_ok() && block[0] == 0xEE)
}

// The moment within a write of a block of file 0, of which this many come before, each with a sync behind it. Where
// there is none, it is past the last moment.
fn within_write(alloc: Global, host: &MemHost, index: u32, before: u32) -> Result<u64, Fail> {
    let mut left = before;
    let mut was_torn = false;
    for moment in 0..host.moments() {
        let is_torn = may_be_torn(alloc, host, moment, index)?;
        if is_torn && !was_torn {
            if left == 0 {
                return Ok(moment);
            }
            left -= 1;
        }
        was_torn = is_torn;
    }
    Ok(host.moments())
}

// The image at a moment is opened, and a query is answered so.
pub(crate) fn shows<R: Abort>(
    rt: &R,
    alloc: Global,
    host: &MemHost,
    moment: u64,
    tears: &[Tear],
    told: &[u8],
) -> Result<(), Fail> {
    let mut image = host.image(alloc, moment, tears)?;
    let status = call(alloc, &mut image, RUN, QUERY)?;
    assert_eq!(rt; image.told(1), told, "at moment {moment}");
    assert_eq!(rt; image.told(0), b"".as_slice());
    assert_eq!(rt; status, 0);
    Ok(())
}

// Whether an answer shows none, the first or both points of `POINTS`, and so many at least.
fn are_points(told: &[u8], least: u64) -> bool {
    (told == NO_POINT && least == 0)
        || (told == ONE_POINT && least <= 1)
        || (told == TWO_POINTS && least <= 2)
}

// The image at a moment shows so many points of `POINTS` at least.
fn shows_points<R: Abort>(
    rt: &R,
    alloc: Global,
    host: &MemHost,
    moment: u64,
    tears: &[Tear],
    least: u64,
) -> Result<(), Fail> {
    let mut image = host.image(alloc, moment, tears)?;
    let status = call(alloc, &mut image, RUN, QUERY)?;
    assert_eq!(rt; status, 0, "at moment {moment}");
    let is_shown = are_points(image.told(1), least);
    assert!(rt; is_shown, "at moment {moment}");
    Ok(())
}

// The image at a moment shows the points that were confirmed by then, also where gates are torn.
fn keeps<R: Abort>(rt: &R, alloc: Global, host: &MemHost, moment: u64) -> Result<(), Fail> {
    // each confirmation is `+OK`, which takes 5 bytes
    let told = host.told_at(1, moment);
    assert_eq!(rt; told % 5, 0);
    let gates = [torn(0, 1, 0xAA), torn(1, 1, 0xAA)];
    shows_points(rt, alloc, host, moment, &[], told / 5)?;
    shows_points(rt, alloc, host, moment, &gates, told / 5)
}

// Changes bytes of a block of file 0. Gives whether they are there.
fn change(
    alloc: Global,
    host: &mut MemHost,
    index: u32,
    from: usize,
    bytes: &[u8],
) -> Result<bool, AllocError> {
    let mut block: Block = [0; 4096];
    let is_read = is_there(host, index) && host.read(0, index, &mut block).is_ok();
    if !is_read || from > 4096 || bytes.len() > 4096 - from {
        return Ok(false);
    }
    block[from..from + bytes.len()].copy_from_slice(bytes);
    host.load(alloc, &[], &[])?;
    if is_there(host, index) && host.moments() == 1 {
        host.plant(0, index, &block);
        return Ok(true);
    }
    Ok(false)
}

#[test]
fn a_torn_write_leaves_the_view_before_or_the_new_one(rt: HostRuntime) -> Result<(), Fail> {
    let alloc = rt.alloc();
    let host = after_run(&rt, alloc, POINTS)?;
    let writes: [(u32, u32, u8, u8, &[u8]); 5] = [
        // view 3 shuts the gate of view 1
        (0, 0, 1, 0xAA, ONE_POINT),
        // its body
        (2, 0, 0xFF, 0xFF, ONE_POINT),
        // it opens the gate
        (0, 1, 0, 0xAA, ONE_POINT),
        (0, 1, 1, 0, TWO_POINTS),
        (0, 1, 1, 0xAA, TWO_POINTS),
    ];
    for (index, before, first, behind, told) in writes {
        let moment = within_write(alloc, &host, index, before)?;
        shows(
            &rt,
            alloc,
            &host,
            moment,
            &[torn(index, first, behind)],
            told,
        )?;
    }
    Ok(())
}

#[test]
fn points_behind_the_last_view_are_lost(rt: HostRuntime) -> Result<(), Fail> {
    let alloc = rt.alloc();
    let mut stream = Bytes::new(alloc);
    stream.extend(alloc, POINTS)?;
    stream.extend(alloc, b"+cpu\r\n:3\r\n:3\r\n")?;
    let host = after_run(&rt, alloc, stream.as_slice())?;
    // view 2 opens gate 1, and view 4 shuts it: before that, the point was read and no view has it
    let shut = within_write(alloc, &host, 1, 1)?;
    shows(&rt, alloc, &host, shut.saturating_sub(1), &[], TWO_POINTS)?;
    shows(
        &rt,
        alloc,
        &host,
        last_moment(&host),
        &[],
        b"$24\r\ncpu,1,1\ncpu,2,2\ncpu,3,3\n\r\n",
    )
}

#[test]
fn a_stop_at_any_moment_keeps_the_confirmed_points(rt: HostRuntime) -> Result<(), Fail> {
    let alloc = rt.alloc();
    let host = after_run(&rt, alloc, POINTS)?;
    assert_eq!(rt; host.told(1), b"+OK\r\n+OK\r\n".as_slice());
    for moment in 0..host.moments() {
        keeps(&rt, alloc, &host, moment)?;
    }
    Ok(())
}

// The call of each number fails, up to one that comes no more.
#[test]
fn a_failed_call_stops_the_run_and_keeps_the_confirmed_points(rt: HostRuntime) -> Result<(), Fail> {
    let alloc = rt.alloc();
    let whole = after_run(&rt, alloc, POINTS)?;
    let calls = whole.moments() / 2;
    for number in 0..calls + 1 {
        let mut host = store(&rt, alloc)?;
        let turns = cut(alloc, POINTS, 4096)?;
        host.load(alloc, turns.as_slice(), &[number])?;
        let status = perform(alloc, &mut host, RUN)?;
        let line: &[u8] = match status {
            3 => b"akl: disk failed\n",
            4 => b"akl: port failed\n",
            _ => b"",
        };
        assert_eq!(rt; host.told(0), line, "at call {number}");
        assert_eq!(rt; line.is_empty(), number == calls);
        assert!(rt; matches!(status, 0 | 3 | 4), "at call {number}");
        keeps(&rt, alloc, &host, last_moment(&host))?;
    }
    Ok(())
}

#[test]
fn commands_that_do_not_fit_the_disk(rt: HostRuntime) -> Result<(), Fail> {
    let alloc = rt.alloc();
    let commands: [(bool, &str, u8, &[u8]); 3] = [
        (
            false,
            "frob",
            1,
            b"usage: akl [create|run|serve|soak DIR [options]]\n",
        ),
        (false, RUN, 8, b"akl: no store\n"),
        (true, CREATE, 9, b"akl: store exists\n"),
    ];
    for (is_made, line, status, told) in commands {
        let mut host = if is_made {
            store(&rt, alloc)?
        } else {
            MemHost::new(alloc, &[], &[])?
        };
        let ended = call(alloc, &mut host, line, QUERY)?;
        assert_eq!(rt; ended, status);
        assert_eq!(rt; host.told(0), told);
        assert_eq!(rt; host.told(1), b"".as_slice());
    }
    Ok(())
}

#[test]
fn a_store_is_run_again_and_again(rt: HostRuntime) -> Result<(), Fail> {
    let alloc = rt.alloc();
    let streams: [(&[u8], &[u8]); 2] = [
        (
            b"+cpu\r\n:1\r\n:1\r\n+!query\r\n$16\r\n{\"select\":\"cpu\"}\r\n",
            ONE_POINT,
        ),
        (QUERY, NO_POINT),
    ];
    for (stream, told) in streams {
        for size in [1, 7, 4096] {
            let mut host = store(&rt, alloc)?;
            let status = call_in_pieces(alloc, &mut host, RUN, stream, size)?;
            assert_eq!(rt; status, 0);
            assert_eq!(rt; host.told(1), told);
            shows(&rt, alloc, &host, last_moment(&host), &[], told)?;
            for _ in 0..2 {
                let status = call(alloc, &mut host, RUN, QUERY)?;
                assert_eq!(rt; status, 0);
                assert_eq!(rt; host.told(1), told);
            }
        }
    }
    Ok(())
}

// 36 series take 3987 of the 4096 bytes of a slot: 64, and 106 each beside its name. With `bbbb` the record would take 110
// more, and with `b` 107.
#[test]
fn a_put_is_refused_by_the_first_cause(rt: HostRuntime) -> Result<(), Fail> {
    let alloc = rt.alloc();
    let mut stream = Bytes::new(alloc);
    stream.extend(alloc, b"+a\r\n:250\r\n:0\r\n+c100\r\n:1\r\n:0\r\n")?;
    for number in 10..44 {
        stream.extend(alloc, b"+c")?;
        stream.extend_decimal(alloc, number)?;
        stream.extend(alloc, b"\r\n:1\r\n:0\r\n")?;
    }
    let messages: [(&[u8], &[u8]); 11] = [
        (
            b"+a|bbbb x\r\n+soon\r\n+x\r\n",
            b"-ERR 27 counts differ\r\n",
        ),
        (
            b"+a|bbbb x\r\n+soon\r\n*2\r\n:9223372036854775808\r\n+x\r\n",
            b"-ERR 20 bad name\r\n",
        ),
        (
            b"+a|bbbb\r\n+soon\r\n*2\r\n:9223372036854775808\r\n+x\r\n",
            b"-ERR 29 not built\r\n",
        ),
        (
            b"+a|bbbb\r\n:18446744073709551616\r\n*2\r\n:9223372036854775808\r\n+x\r\n",
            b"-ERR 24 timestamp out of range\r\n",
        ),
        (
            b"+a|bbbb\r\n:1\r\n*2\r\n:9223372036854775808\r\n+x\r\n",
            b"-ERR 22 bad value\r\n",
        ),
        (
            b"+a|bbbb\r\n:1\r\n*2\r\n:9223372036854775808\r\n:1\r\n",
            b"-ERR 23 value out of range\r\n",
        ),
        (
            b"+a|bbbb\r\n:1\r\n*2\r\n:1\r\n:1\r\n",
            b"-ERR 26 metadata full, need 4097 room 4096\r\n",
        ),
        (
            b"+a|b\r\n:1\r\n*2\r\n:1\r\n:1\r\n",
            b"-ERR 25 late, last 250\r\n",
        ),
        (b"+!query\r\n$14\r\n{\"select\":\"b\"}\r\n", NO_POINT),
        (b"+a|b\r\n:250\r\n*2\r\n:1\r\n:7\r\n", b""),
        (
            b"+!query\r\n$14\r\n{\"select\":\"b\"}\r\n",
            b"$8\r\nb,250,7\n\r\n",
        ),
    ];
    let mut told = Bytes::new(alloc);
    for (message, answer) in messages {
        stream.extend(alloc, message)?;
        told.extend(alloc, answer)?;
    }
    let mut host = made(
        &rt,
        alloc,
        "create d --volumes 2 --blocks 64 --slot 1 --pool 64",
    )?;
    let status = call(alloc, &mut host, RUN, stream.as_slice())?;
    assert_eq!(rt; status, 0);
    assert_eq!(rt; host.told(1), told.as_slice());
    Ok(())
}

#[test]
fn decimal_scale(rt: HostRuntime) -> Result<(), Fail> {
    let alloc = rt.alloc();
    let stores: [(&str, &[u8], &[u8], &[u8]); 2] = [
        (
            "create d --volumes 2 --blocks 16 --slot 1 --scale 1",
            b"+cpu\r\n:1\r\n+24.3\r\n+cpu\r\n:2\r\n+24.35\r\n+cpu\r\n:3\r\n+24.30\r\n+cpu\r\n:4\r\n+1e3\r\n",
            b"-ERR 22 bad value\r\n-ERR 22 bad value\r\n",
            b"$22\r\ncpu,1,24.3\ncpu,3,24.3\n\r\n",
        ),
        (
            "create d --volumes 2 --blocks 16 --slot 1 --scale 9",
            b"+cpu\r\n:1\r\n+9223372036.854775807\r\n+cpu\r\n:2\r\n$21\r\n-9223372036.854775809\r\n+cpu\r\n:3\r\n:-2\r\n",
            b"-ERR 23 value out of range\r\n",
            b"$36\r\ncpu,1,9223372036.854775807\ncpu,3,-2\n\r\n",
        ),
    ];
    for (create, stream, told, rows) in stores {
        let mut host = made(&rt, alloc, create)?;
        let status = call(alloc, &mut host, RUN, stream)?;
        assert_eq!(rt; status, 0);
        assert_eq!(rt; host.told(1), told);
        shows(&rt, alloc, &host, last_moment(&host), &[], rows)?;
    }
    Ok(())
}

#[test]
fn a_damaged_newest_body_is_told(rt: HostRuntime) -> Result<(), Fail> {
    let alloc = rt.alloc();
    let newest: [(&[u8], u32, &[u8]); 2] = [
        // the end of the run takes view 2
        (b"", 3, b"akl: damaged file 0 block 3\n"),
        // or view 3
        (
            b"+cpu\r\n:1\r\n:1\r\n+!flush\r\n",
            2,
            b"akl: damaged file 0 block 2\n",
        ),
    ];
    // a length that is too great, and a format that isn't known
    let changes: [(usize, &[u8]); 2] = [(0, &[0xFF; 8]), (16, &[2])];
    for (stream, index, told) in newest {
        for (from, bytes) in changes {
            let mut host = after_run(&rt, alloc, stream)?;
            let is_changed = change(alloc, &mut host, index, from, bytes)?;
            assert!(rt; is_changed);
            let status = call(alloc, &mut host, RUN, QUERY)?;
            assert_eq!(rt; status, 2);
            assert_eq!(rt; host.told(0), told);
            assert_eq!(rt; host.told(1), b"".as_slice());
        }
    }
    Ok(())
}

#[test]
fn a_worn_store_answers_and_takes_no_view(rt: HostRuntime) -> Result<(), Fail> {
    let alloc = rt.alloc();
    // the low byte of the first view's number, whose others are 0xFF
    let runs: [(u8, &[u8], &[u8]); 4] = [
        (0xFF, b"+cpu\r\n:1\r\n:1\r\n+!flush\r\n", b""),
        (0xFF, QUERY, NO_POINT),
        (0xFE, b"+cpu\r\n:1\r\n:1\r\n+!flush\r\n", b"+OK\r\n"),
        (0xFE, POINTS, b"+OK\r\n"),
    ];
    for (low, stream, told) in runs {
        let mut number = [0xFF; 8];
        number[0] = low;
        let mut host = store(&rt, alloc)?;
        let is_changed = change(alloc, &mut host, 2, 8, &number)?;
        assert!(rt; is_changed);
        let status = call(alloc, &mut host, RUN, stream)?;
        assert_eq!(rt; host.told(1), told);
        assert_eq!(rt; host.told(0), b"akl: store worn\n".as_slice());
        assert_eq!(rt; status, 7);
    }
    Ok(())
}
