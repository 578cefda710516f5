ghost use Rattle.std.specs.Prelude.{◌≡◌, ◌≤◌, All, IfOk, length};
ghost use Rattle.ak_memhost.specs.Turns.{IsMemTurn};

use ak_base::Bytes;
use ak_memhost::{MemHost, MemTurn};
use ak_top::akl;
use std::alloc::{AllocError, Global};
use std::process::Abort;
use std::test::Fail;

// These bytes, at most 4096, as a turn of a port.
pub(crate) fn piece(alloc: Global, port: u32, bytes: &[u8]) -> Result<MemTurn, AllocError>
    requires port { 1 ≤ port }
    requires some { 1 ≤ length bytes.now }
    requires most { length bytes.now ≤ 4096 }
    ensures { IfOk result IsMemTurn }
{
    let mut copy = Bytes::new(alloc);
    copy.extend(alloc, bytes)?;
    Ok(MemTurn::Bytes { port, bytes: copy })
}

// The stream on port 1, in pieces of this size.
pub(crate) fn cut(alloc: Global, stream: &[u8], size: usize) -> Result<Vec<MemTurn>, AllocError>
    requires least { 1 ≤ size }
    requires most { size ≤ 4096 }
    ensures { IfOk result (λ turns. All IsMemTurn turns.items) }
{
    let mut turns = Vec::new(alloc);
    let mut rest = stream;
    while !rest.is_empty() {
        let (front, behind) = rest.split_at(size.min(rest.len()));
        turns.push(piece(alloc, 1, front)?)?;
        rest = behind;
    }
    Ok(turns)
}

// What a call over these turns answers.
struct Ended {
    status: u8,
    told: Vec<u8>,
    console: Vec<u8>,
    refused: u64,
}

impl Drop for Ended {
    fn drop(self) {
        let Ended {
            status: _,
            told: _,
            console: _,
            refused: _,
        } = self;
    }
}

fn call(
    alloc: Global,
    words: &[String],
    turns: &[MemTurn],
    fails: &[u64],
) -> Result<Ended, AllocError>
    requires { All IsMemTurn turns.now }
{
    let mut host = MemHost::new(alloc, turns, fails)?;
    let status = akl(alloc, words, &mut host);
    Ok(Ended {
        status,
        told: Vec::from_slice(alloc, host.told(1))?,
        console: Vec::from_slice(alloc, host.told(0))?,
        refused: host.refused(),
    })
}

// The stream is answered so, however it is cut, and the call is done.
fn answers<R: Abort>(rt: &R, alloc: Global, stream: &[u8], told: &[u8]) -> Result<(), Fail> {
    for size in [1, 2, 3, 7, 4096] {
        let turns = cut(alloc, stream, size)?;
        let ended = call(alloc, &[], turns.as_slice(), &[])?;
        assert_eq!(rt; ended.told.as_slice(), told);
        assert_eq!(rt; ended.console.as_slice(), b"".as_slice());
        assert_eq!(rt; (ended.status, ended.refused), (0, 0));
    }
    Ok(())
}

#[test]
fn first_point(rt: HostRuntime) -> Result<(), Fail> {
    answers(
        &rt,
        rt.alloc(),
        b"+cpu host=a\r\n:100\r\n:5\r\n+!query\r\n$16\r\n{\"select\":\"cpu\"}\r\n",
        b"$17\r\ncpu host=a,100,5\n\r\n",
    )
}

#[test]
fn empty_select(rt: HostRuntime) -> Result<(), Fail> {
    answers(
        &rt,
        rt.alloc(),
        b"+!query\r\n$16\r\n{\"select\":\"cpu\"}\r\n",
        b"$0\r\n\r\n",
    )
}

#[test]
fn late_and_equal(rt: HostRuntime) -> Result<(), Fail> {
    answers(
        &rt,
        rt.alloc(),
        b"+cpu\r\n:100\r\n:1\r\n+cpu\r\n:99\r\n:2\r\n+cpu\r\n:100\r\n:3\r\n+!query\r\n$16\r\n{\"select\":\"cpu\"}\r\n",
        b"-ERR 25 late, last 100\r\n$20\r\ncpu,100,1\ncpu,100,3\n\r\n",
    )
}

#[test]
fn rows_stand_by_order_of_first_acceptance(rt: HostRuntime) -> Result<(), Fail> {
    answers(
        &rt,
        rt.alloc(),
        b"+cpu k=b\r\n:2\r\n:1\r\n+mem\r\n:1\r\n:9\r\n+cpu k=a\r\n:1\r\n:-2\r\n+cpu k=b\r\n:3\r\n:0\r\n+!query\r\n$16\r\n{\"select\":\"cpu\"}\r\n",
        b"$37\r\ncpu k=b,2,1\ncpu k=b,3,0\ncpu k=a,1,-2\n\r\n",
    )
}

#[test]
fn tags_in_any_order(rt: HostRuntime) -> Result<(), Fail> {
    answers(
        &rt,
        rt.alloc(),
        b"+cpu region=eu  host=a\r\n:1\r\n:1\r\n+cpu host=a region=eu\r\n:2\r\n:2\r\n+!query\r\n$16\r\n{\"select\":\"cpu\"}\r\n",
        b"$50\r\ncpu host=a region=eu,1,1\ncpu host=a region=eu,2,2\n\r\n",
    )
}

#[test]
fn value_range(rt: HostRuntime) -> Result<(), Fail> {
    answers(
        &rt,
        rt.alloc(),
        b"+cpu\r\n:1\r\n:9223372036854775808\r\n+cpu\r\n:2\r\n:-9223372036854775808\r\n+!query\r\n$16\r\n{\"select\":\"cpu\"}\r\n",
        b"-ERR 23 value out of range\r\n$27\r\ncpu,2,-9223372036854775808\n\r\n",
    )
}

// The last write has as many values as names, and all of them are right.
#[test]
fn refused_compound_write(rt: HostRuntime) -> Result<(), Fail> {
    answers(
        &rt,
        rt.alloc(),
        b"+a|b host=x\r\n:1\r\n*2\r\n:1\r\n+1.5\r\n+!query\r\n$14\r\n{\"select\":\"a\"}\r\n+!query\r\n$14\r\n{\"select\":\"b\"}\r\n+a|b host=x\r\n:1\r\n*3\r\n:1\r\n:2\r\n:3\r\n+a|b host=x\r\n:1\r\n*2\r\n:1\r\n+2.0\r\n+!query\r\n$14\r\n{\"select\":\"b\"}\r\n",
        b"-ERR 22 bad value\r\n$0\r\n\r\n$0\r\n\r\n-ERR 27 counts differ\r\n$13\r\nb host=x,1,2\n\r\n",
    )
}

#[test]
fn the_first_late_name_is_told(rt: HostRuntime) -> Result<(), Fail> {
    answers(
        &rt,
        rt.alloc(),
        b"+a\r\n:5\r\n:1\r\n+b\r\n:9\r\n:1\r\n+b|a\r\n:4\r\n*2\r\n:1\r\n:1\r\n+a|b\r\n:4\r\n*2\r\n:1\r\n:1\r\n+a|b\r\n:7\r\n*2\r\n:1\r\n:1\r\n+!query\r\n$14\r\n{\"select\":\"a\"}\r\n",
        b"-ERR 25 late, last 9\r\n-ERR 25 late, last 5\r\n-ERR 25 late, last 9\r\n$6\r\na,5,1\n\r\n",
    )
}

#[test]
fn each_stream_fault(rt: HostRuntime) -> Result<(), Fail> {
    let faults: [(&[u8], &[u8]); 19] = [
        (b"?", b"-ERR 10 bad type byte at 0\r\n"),
        (b"+a\r\n:1\r\n:1\r\n?", b"-ERR 10 bad type byte at 12\r\n"),
        (b"+a\r\n:1x", b"-ERR 11 bad number at 6\r\n"),
        (b"+a\r\n:-\r", b"-ERR 11 bad number at 6\r\n"),
        (b"+a\r\n:1+", b"-ERR 11 bad number at 6\r\n"),
        (b"$\r", b"-ERR 11 bad number at 1\r\n"),
        (b"$-", b"-ERR 11 bad number at 1\r\n"),
        (b"+a\rb", b"-ERR 13 bad line end at 3\r\n"),
        (b"+a\n", b"-ERR 13 bad line end at 2\r\n"),
        (b"+a\r\n:\n", b"-ERR 13 bad line end at 5\r\n"),
        (b"\n", b"-ERR 13 bad line end at 0\r\n"),
        (b"$1\r\nab", b"-ERR 13 bad line end at 5\r\n"),
        (b"$1\r\na\rb", b"-ERR 13 bad line end at 6\r\n"),
        (b"$65537", b"-ERR 14 long bulk at 5\r\n"),
        (b":5\r\n", b"-ERR 15 wrong shape at 0\r\n"),
        (b"+a\r\n*1", b"-ERR 15 wrong shape at 4\r\n"),
        (b"+!query\r\n:1", b"-ERR 15 wrong shape at 9\r\n"),
        (b"+a\r\n+1\r\n*65", b"-ERR 15 wrong shape at 10\r\n"),
        (b"+a\r\n+1\r\n*1\r\n$", b"-ERR 15 wrong shape at 12\r\n"),
    ];
    for (stream, told) in faults {
        answers(&rt, rt.alloc(), stream, told)?;
    }
    Ok(())
}

#[test]
fn the_greatest_lengths_are_no_fault(rt: HostRuntime) -> Result<(), Fail> {
    let streams: [(&[u8], &[u8]); 3] = [
        (b"$65536\r\n", b"-ERR 16 input ended inside a message\r\n"),
        (
            b"+a\r\n:1\r\n*64\r\n",
            b"-ERR 16 input ended inside a message\r\n",
        ),
        (b"+a\r\n:1\r\n*0\r\n", b"-ERR 27 counts differ\r\n"),
    ];
    for (stream, told) in streams {
        answers(&rt, rt.alloc(), stream, told)?;
    }
    Ok(())
}

// A line of 4096 bytes is none, and no name.
#[test]
fn a_long_line_is_a_fault(rt: HostRuntime) -> Result<(), Fail> {
    let alloc = rt.alloc();
    let mut stream = Bytes::new(alloc);
    stream.push(alloc, b'+')?;
    for _ in 0..4096 {
        stream.push(alloc, b'a')?;
    }
    let mut short = Bytes::new(alloc);
    short.extend(alloc, stream.as_slice())?;
    short.extend(alloc, b"\r\n:1\r\n:1\r\n")?;
    answers(&rt, alloc, short.as_slice(), b"-ERR 20 bad name\r\n")?;
    stream.push(alloc, b'a')?;
    answers(
        &rt,
        alloc,
        stream.as_slice(),
        b"-ERR 12 long line at 4097\r\n",
    )
}

// Queries of other shapes are not built.
#[test]
fn refused_queries(rt: HostRuntime) -> Result<(), Fail> {
    answers(
        &rt,
        rt.alloc(),
        b"+cpu\r\n:1\r\n:1\r\n+!stop\r\n+!query\r\n+{\r\n+!query\r\n$16\r\n{\"select\":\"cpu\"}\r\n",
        b"-ERR 28 unknown control\r\n-ERR 29 not built\r\n$8\r\ncpu,1,1\n\r\n",
    )
}

#[test]
fn a_word_is_no_command(rt: HostRuntime) -> Result<(), Fail> {
    let alloc = rt.alloc();
    let words = [String::from_str(alloc, "frob")?];
    let ended = call(alloc, &words, &[], &[])?;
    assert_eq!(rt; ended.status, 1);
    assert_eq!(rt;
        ended.console.as_slice(),
        b"usage: akl [create|run|serve|soak DIR [options]]\n".as_slice()
    );
    let silent = call(alloc, &words, &[], &[0])?;
    assert_eq!(rt; silent.status, 1);
    assert_eq!(rt; silent.console.as_slice(), b"".as_slice());
    Ok(())
}

#[test]
fn each_failed_call_stops_the_run(rt: HostRuntime) -> Result<(), Fail> {
    let alloc = rt.alloc();
    // 8 calls of the disk make the store and view 1; then come the turn with the query, its answer and the turn Done, and
    // 5 calls take view 2
    for fails in 0..16 {
        let turns = cut(alloc, b"+!query\r\n$14\r\n{\"select\":\"a\"}\r\n", 4096)?;
        let ended = call(alloc, &[], turns.as_slice(), &[fails])?;
        let (status, line): (u8, &[u8]) = if fails < 8 || 11 <= fails {
            (3, b"akl: disk failed\n")
        } else {
            (4, b"akl: port failed\n")
        };
        assert_eq!(rt; ended.status, status, "at call {fails}");
        assert_eq!(rt; ended.console.as_slice(), line);
        let told: &[u8] = if fails < 10 { b"" } else { b"$0\r\n\r\n" };
        assert_eq!(rt; ended.told.as_slice(), told);
    }
    Ok(())
}
