ghost use Rattle.std.specs.Prelude.{◌≤◌, IfOk};
ghost use Rattle.ak_run.specs.Fitting.{IsAllowed};

use super::*;
use crate::replies::write_row;
use ak_base::{Bytes, Point, Refusal, Texts};
use ak_resp::{Message, Part, PartKind, Parts, Resp};
use std::alloc::{AllocError, Global};

// A part of a message.
fn part(alloc: Global, text: &[u8]) -> Result<Part, AllocError> {
    let mut bytes = Bytes::new(alloc);
    bytes.extend(alloc, text)?;
    Ok(Part {
        kind: PartKind::Simple,
        bytes,
    })
}

// What a put of values, which are split at spaces, asks for at scale 3.
fn ask_put(alloc: Global, name: &[u8], time: &[u8], values: &str) -> Result<Asked, AllocError>
    ensures { IfOk result IsAllowed }
{
    let mut parts = Parts::new(alloc);
    for value in values.split(' ') {
        parts.push(alloc, part(alloc, value.as_bytes())?)?;
    }
    let message = Message::Put {
        name: part(alloc, name)?,
        time: part(alloc, time)?,
        values: parts,
    };
    ask(alloc, &message, 3)
}

// What a query asks for.
fn ask_query(alloc: Global, text: &[u8]) -> Result<Asked, AllocError> {
    ask(alloc, &Message::Query(part(alloc, text)?), 3)
}

// Whether there is one name, this one.
fn is_named(names: &Texts, name: &str) -> bool {
    match names.as_slice() {
        [own] => own.as_str() == name,
        _ => false,
    }
}

// Whether there is one value, this one.
fn is_valued(values: &Values, value: i64) -> bool {
    values.as_slice() == [value].as_slice()
}

// Why nothing is asked for.
fn refusal_of(asked: &Asked) -> Option<Refusal> {
    match asked {
        Asked::Refused(refusal) => Some(*refusal),
        _ => None,
    }
}

// The metric whose rows are asked for.
fn metric_of(asked: &Asked) -> &[u8] {
    match asked {
        Asked::Rows(metric) => metric.as_slice(),
        _ => b"",
    }
}

#[test]
fn points(rt: HostRuntime) -> Result<(), AllocError> {
    let asked = ask_put(rt.alloc(), b"cpu region=eu host=a", b"7", "1.5")?;
    let is = match &asked {
        Asked::Points {
            names,
            time,
            values,
        } => is_named(names, "cpu host=a region=eu") && *time == 7 && is_valued(values, 1500),
        _ => false,
    };
    assert!(rt; is);
    Ok(())
}

// The point that a put asks for at scale 3 which stands whole in these bytes.
fn known(alloc: Global, put: &[u8]) -> Result<Option<Point>, AllocError> {
    let reader = Resp::new(alloc)?;
    match reader.whole(put, 0) {
        Some(put) => Ok(ask_known(&put, 3)),
        None => Ok(None),
    }
}

#[test]
fn known_puts(rt: HostRuntime) -> Result<(), AllocError> {
    let two = Point {
        ts: 0,
        value: -2000,
    };
    let puts: [(&[u8], Option<Point>); 7] = [
        (
            b"+cpu host=a\r\n:7\r\n+1.5\r\n",
            Some(Point { ts: 7, value: 1500 }),
        ),
        (b"$3\r\ncpu\r\n$1\r\n0\r\n:-2\r\n", Some(two)),
        (b"+cpu\r\n+0\r\n*1\r\n:-2\r\n", Some(two)),
        (b"+cpu\r\n:7\r\n*0\r\n", None),
        (b"+cpu\r\n:7\r\n*2\r\n:1\r\n:2\r\n", None),
        (b"+cpu\r\n:7\r\n+1.0001\r\n", None),
        (b"+cpu\r\n:7\r\n:9223372036854776\r\n", None),
    ];
    for (put, point) in puts {
        assert!(rt; known(rt.alloc(), put)? == point);
    }
    Ok(())
}

#[test]
fn refused_puts(rt: HostRuntime) -> Result<(), AllocError> {
    let alloc = rt.alloc();
    let puts: [(&[u8], &[u8], &str, Refusal); 9] = [
        (b"!a|", b" x", "x", Refusal::CountsDiffer),
        (b"a", b"7", "1 2", Refusal::CountsDiffer),
        (b"!a", b" x", "x", Refusal::BadName),
        (b"a", b" x", "x", Refusal::NotBuilt),
        (b"a", b"20141210T074343", "1", Refusal::NotBuilt),
        (b"a", b"-1", "x", Refusal::TimeRange),
        (b"a|b", b"7", "9223372036854776 x", Refusal::BadValue),
        (b"a", b"7", "1.0001", Refusal::BadValue),
        (b"a|b", b"7", "1 9223372036854776", Refusal::ValueRange),
    ];
    for (name, time, values, refusal) in puts {
        let asked = ask_put(alloc, name, time, values)?;
        assert_eq!(rt; refusal_of(&asked), Some(refusal));
    }
    Ok(())
}

#[test]
fn queries(rt: HostRuntime) -> Result<(), AllocError> {
    let alloc = rt.alloc();
    let asked = ask_query(alloc, b"{\"select\":\"cpu.user_1-A\"}")?;
    assert!(rt; metric_of(&asked) == b"cpu.user_1-A".as_slice());
    let others: [&[u8]; 6] = [
        b"{\"select\":\"\"}",
        b"{\"select\":\"a b\"}",
        b"{\"select\":\"a\"} ",
        b"{ \"select\":\"a\"}",
        b"{\"select\":\"}",
        b"{}",
    ];
    for text in others {
        let asked = ask_query(alloc, text)?;
        assert_eq!(rt; refusal_of(&asked), Some(Refusal::NotBuilt));
    }
    Ok(())
}

#[test]
fn controls(rt: HostRuntime) -> Result<(), AllocError> {
    let alloc = rt.alloc();
    assert!(rt; matches!(ask(alloc, &Message::Flush, 3)?, Asked::Flush));
    let asked = ask(alloc, &Message::Unknown, 3)?;
    assert_eq!(rt; refusal_of(&asked), Some(Refusal::NoControl));
    Ok(())
}

// The row of a value.
fn row(alloc: Global, scale: u32, value: i64) -> Result<Bytes, AllocError>
    requires { scale ≤ 9 }
{
    let mut text = Bytes::new(alloc);
    write_row(alloc, scale, b"a", false, Point { ts: 5, value }, &mut text)?;
    Ok(text)
}

#[test]
fn rows_of_values(rt: HostRuntime) -> Result<(), AllocError> {
    let alloc = rt.alloc();
    assert_eq!(rt; row(alloc, 3, 1500)?.as_slice(), b"a,5,1.5\n".as_slice());
    assert_eq!(rt; row(alloc, 3, -7)?.as_slice(), b"a,5,-0.007\n".as_slice());
    assert_eq!(rt; row(alloc, 3, 2000)?.as_slice(), b"a,5,2\n".as_slice());
    assert_eq!(rt; row(alloc, 3, 1010)?.as_slice(), b"a,5,1.01\n".as_slice());
    assert_eq!(rt; row(alloc, 0, -70)?.as_slice(), b"a,5,-70\n".as_slice());
    assert_eq!(rt; row(alloc, 6, 0)?.as_slice(), b"a,5,0\n".as_slice());
    assert_eq!(rt;
        row(alloc, 0, i64::MIN)?.as_slice(),
        b"a,5,-9223372036854775808\n".as_slice()
    );
    assert_eq!(rt;
        row(alloc, 9, i64::MIN)?.as_slice(),
        b"a,5,-9223372036.854775808\n".as_slice()
    );
    Ok(())
}

// The rows of these points, of a series of this name.
fn rows(alloc: Global, name: &[u8], points: &[Point]) -> Result<Bytes, AllocError> {
    let mut text = Bytes::new(alloc);
    write_rows(alloc, 0, name, points, &mut text)?;
    Ok(text)
}

#[test]
fn rows_of_points(rt: HostRuntime) -> Result<(), AllocError> {
    let alloc = rt.alloc();
    let points = [Point { ts: 7, value: 1 }, Point { ts: 8, value: -2 }];
    assert_eq!(rt;
        rows(alloc, b"cpu host=a", &points)?.as_slice(),
        b"cpu host=a,7,1\ncpu host=a,8,-2\n".as_slice()
    );
    assert_eq!(rt;
        rows(alloc, b"a,b\"c", &points[..1])?.as_slice(),
        b"\"a,b\"\"c\",7,1\n".as_slice()
    );
    assert!(rt; rows(alloc, b"a", &[])?.as_slice().is_empty());
    Ok(())
}

#[test]
fn metrics(rt: HostRuntime) {
    assert!(rt; is_of(b"cpu host=a", b"cpu"));
    assert!(rt; is_of(b"cpu", b"cpu"));
    assert!(rt; !is_of(b"cpu host=a", b"cp"));
    assert!(rt; !is_of(b"cpu host=a", b""));
}

#[test]
fn bulks(rt: HostRuntime) -> Result<(), AllocError> {
    let alloc = rt.alloc();
    let mut reply = Bytes::new(alloc);
    begin_bulk(alloc, &mut reply)?;
    reply.extend(alloc, b"cpu,7,1\ncpu,8,2\n")?;
    let start = end_bulk(alloc, &mut reply)?;
    assert_eq!(rt;
        &reply.as_slice()[start..],
        b"$16\r\ncpu,7,1\ncpu,8,2\n\r\n".as_slice()
    );
    let mut nothing = Bytes::new(alloc);
    begin_bulk(alloc, &mut nothing)?;
    let start = end_bulk(alloc, &mut nothing)?;
    assert_eq!(rt; &nothing.as_slice()[start..], b"$0\r\n\r\n".as_slice());
    Ok(())
}
