//! Sessions of several ports.
ghost use Rattle.std.specs.Prelude.{All, IfOk};
ghost use Rattle.ak_memhost.specs.Turns.{IsMemTurn};

use crate::gates::is_there;
use crate::tests::piece;
use ak_host::Disk;
use ak_memhost::{MemHost, MemTurn};
use ak_top::akl;
use std::alloc::Global;
use std::process::Abort;
use std::test::Fail;

const CUT: &[u8] = b"-ERR 16 input ended inside a message\r\n";

const QUERY: &[u8] = b"+!query\r\n$14\r\n{\"select\":\"a\"}\r\n";

// These bytes on a port as a turn, or its end where there are none.
fn turn<R: Abort>(rt: &R, alloc: Global, port: u32, bytes: &[u8]) -> Result<MemTurn, Fail>
    ensures { IfOk result IsMemTurn }
{
    assert!(rt; 1 <= port && bytes.len() <= 4096);
    if bytes.is_empty() {
        return Ok(MemTurn::End { port });
    }
    Ok(piece(alloc, port, bytes)?)
}

// A turn for each of these pieces and ends.
fn turns<R: Abort>(rt: &R, alloc: Global, steps: &[(u32, &[u8])]) -> Result<Vec<MemTurn>, Fail>
    ensures { IfOk result (λ turns. All IsMemTurn turns.items) }
{
    let mut list = Vec::new(alloc);
    for (port, bytes) in steps {
        list.push(turn(rt, alloc, *port, bytes)?)?;
    }
    Ok(list)
}

// Each of these ports is told just these bytes where these pieces and ends come, and the run is done.
fn hears<R: Abort>(
    rt: &R,
    alloc: Global,
    steps: &[(u32, &[u8])],
    told: &[(u32, &[u8])],
) -> Result<MemHost, Fail> {
    let list = turns(rt, alloc, steps)?;
    let mut host = MemHost::new(alloc, list.as_slice(), &[])?;
    let status = akl(alloc, &[], &mut host);
    for (port, bytes) in told {
        assert_eq!(rt; host.told(*port), *bytes, "on port {port}");
    }
    assert_eq!(rt; host.told(0), b"".as_slice());
    assert_eq!(rt; (status, host.refused()), (0, 0));
    Ok(host)
}

// The first of the turns that give two points on ports 1 and 2 byte by byte, and then two queries on port 3.
fn give_by_bytes<R: Abort>(
    rt: &R,
    alloc: Global,
    taken: usize,
    told: &[(u32, &[u8])],
) -> Result<MemHost, Fail> {
    let mut steps: Vec<(u32, &[u8])> = Vec::new(alloc);
    let first: &[u8] = b"+a\r\n:1\r\n:1\r\n";
    let second: &[u8] = b"+b\r\n:1\r\n:2\r\n";
    for (one, other) in first.chunks(1).zip(second.chunks(1)) {
        steps.push((1, one))?;
        steps.push((2, other))?;
    }
    steps.truncate(taken);
    steps.push((3, QUERY))?;
    steps.push((3, b"+!query\r\n$14\r\n{\"select\":\"b\"}\r\n"))?;
    hears(rt, alloc, steps.as_slice(), told)
}

// The last view has one of the names at place 66 of its body, and the one behind it at 173.
#[test]
fn two_ports_byte_by_byte(rt: HostRuntime) -> Result<(), Fail> {
    let alloc = rt.alloc();
    let before: [(u32, &[u8]); 3] = [(1, CUT), (2, CUT), (3, b"$0\r\n\r\n$0\r\n\r\n")];
    let _ = give_by_bytes(&rt, alloc, 22, &before)?;
    let one: [(u32, &[u8]); 3] = [(1, b""), (2, CUT), (3, b"$6\r\na,1,1\n\r\n$0\r\n\r\n")];
    let _ = give_by_bytes(&rt, alloc, 23, &one)?;
    let both: [(u32, &[u8]); 3] = [
        (1, b""),
        (2, b""),
        (3, b"$6\r\na,1,1\n\r\n$6\r\nb,1,2\n\r\n"),
    ];
    let mut host = give_by_bytes(&rt, alloc, 24, &both)?;
    let mut block = [0; 4096];
    let is_read = is_there(&host, 18) && host.read(0, 18, &mut block).is_ok();
    assert!(rt; is_read);
    assert_eq!(rt; (block[66], block[173]), (b'a', b'b'));
    Ok(())
}

// One is cut by its end and one by the end of the run.
#[test]
fn cut_session(rt: HostRuntime) -> Result<(), Fail> {
    let steps: [(u32, &[u8]); 7] = [
        (1, b"+a\r\n:1\r\n"),
        (3, b"+"),
        (2, b"+a\r\n:1\r\n"),
        (1, b""),
        (1, b""),
        (2, b":1\r\n"),
        (2, QUERY),
    ];
    let told: [(u32, &[u8]); 3] = [(1, CUT), (2, b"$6\r\na,1,1\n\r\n"), (3, CUT)];
    let _ = hears(&rt, rt.alloc(), &steps, &told)?;
    Ok(())
}

#[test]
fn an_end_opens_the_next_session(rt: HostRuntime) -> Result<(), Fail> {
    let steps: [(u32, &[u8]); 8] = [
        (2, b""),
        (1, b"+a\r\n:1\r\n"),
        (2, b"+a\r\n:1\r\n:1\r\n"),
        (2, b""),
        (1, b""),
        (1, b"+a\r\n:1\r\n:2\r\n"),
        (1, QUERY),
        (2, b"+?\r\n:1\r\n?"),
    ];
    let told: [(u32, &[u8]); 2] = [
        (
            1,
            b"-ERR 16 input ended inside a message\r\n$12\r\na,1,1\na,1,2\n\r\n",
        ),
        (2, b"-ERR 10 bad type byte at 8\r\n"),
    ];
    let _ = hears(&rt, rt.alloc(), &steps, &told)?;
    Ok(())
}

#[test]
fn a_fault_is_told_once(rt: HostRuntime) -> Result<(), Fail> {
    let steps: [(u32, &[u8]); 9] = [
        (1, b"+a\r\n:1\r\n:1\r\n?"),
        (1, b"+a\r\n:2\r\n:2\r\n"),
        (1, b"?"),
        (2, b"?+a\r\n:3\r\n:3\r\n"),
        (1, b""),
        (1, b"+a\r\n:4\r\n:4\r\n"),
        (1, QUERY),
        (1, b"+\n"),
        (2, b"+"),
    ];
    let told: [(u32, &[u8]); 2] = [
        (
            1,
            b"-ERR 10 bad type byte at 12\r\n$12\r\na,1,1\na,4,4\n\r\n-ERR 13 bad line end at 43\r\n",
        ),
        (2, b"-ERR 10 bad type byte at 0\r\n"),
    ];
    let _ = hears(&rt, rt.alloc(), &steps, &told)?;
    Ok(())
}

#[test]
fn too_many_sessions(rt: HostRuntime) -> Result<(), Fail> {
    let alloc = rt.alloc();
    let mut steps: Vec<(u32, &[u8])> = Vec::new(alloc);
    let mut told: Vec<(u32, &[u8])> = Vec::new(alloc);
    for port in 1..1025 {
        steps.push((port, b"+"))?;
        if port > 2 {
            told.push((port, CUT))?;
        }
    }
    let more: [(u32, &[u8]); 12] = [
        (1025, b"+a\r\n:1\r\n:1\r\n"),
        (1026, b"POST /api/query HTTP/1.1\r\n\r\n"),
        (1025, b""),
        (2, b"a\r\n:1\r\n:2\r\n"),
        // a fault leaves its session open
        (1, b"\n"),
        (1025, b"+"),
        (1, b""),
        (1025, b"+a\r\n:1\r\n:3\r\n"),
        (1025, QUERY),
        (1, b"?"),
        (3, b""),
        (1, b"?"),
    ];
    for step in more {
        steps.push(step)?;
    }
    let others: [(u32, &[u8]); 4] = [
        (
            1,
            b"-ERR 13 bad line end at 1\r\n-ERR 17 too many sessions\r\n-ERR 10 bad type byte at 0\r\n",
        ),
        (2, b""),
        (
            1025,
            b"-ERR 17 too many sessions\r\n-ERR 17 too many sessions\r\n$12\r\na,1,2\na,1,3\n\r\n",
        ),
        (1026, b"-ERR 17 too many sessions\r\n"),
    ];
    for answer in others {
        told.push(answer)?;
    }
    let _ = hears(&rt, alloc, steps.as_slice(), told.as_slice())?;
    Ok(())
}

// The first 8 calls make the store, 3 give the pieces and one the end of the run. Then come the 3 answers, and 5 calls
// take the last view.
#[test]
fn sessions_end_by_rising_port_before_the_last_view(rt: HostRuntime) -> Result<(), Fail> {
    let alloc = rt.alloc();
    let steps: [(u32, &[u8]); 3] = [(3, b"+"), (1, b"+"), (2, b"+")];
    let list = turns(&rt, alloc, &steps)?;
    let ends: [(u64, u8, u32); 6] = [
        (11, 4, 0),
        (12, 4, 0),
        (13, 4, 1),
        (14, 4, 2),
        (15, 3, 3),
        (19, 3, 3),
    ];
    for (fails, status, last_told) in ends {
        let mut host = MemHost::new(alloc, list.as_slice(), &[fails])?;
        let ended = akl(alloc, &[], &mut host);
        assert_eq!(rt; ended, status, "at call {fails}");
        for port in 1..4 {
            let told: &[u8] = if port <= last_told { CUT } else { b"" };
            assert_eq!(rt; host.told(port), told, "on port {port}");
        }
    }
    Ok(())
}
