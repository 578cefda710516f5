//! Streams, whole and byte by byte.
use crate::{Http, HttpError, Request};
use ak_base::Bytes;
use std::alloc::{AllocError, Global};
use std::test::Fail;

const GET: &[u8] = b"GET /api/query HTTP/1.1\r\nHost: a\r\n\r\n";

const POST: &[u8] = b"POST /api/query HTTP/1.0\ncontent-length:\t5 \n\n{\"a\"}";

fn is_request(request: &Request, method: &[u8], target: &[u8], body: &[u8]) -> bool {
    request.method.as_slice() == method
        && request.target.as_slice() == target
        && request.body.as_slice() == body
}

/// The fault of a stream, and how many bytes are read up to it and with it. None where none is answered.
fn fault_behind(alloc: Global, stream: &[u8]) -> Result<Option<(HttpError, usize)>, HttpError> {
    let mut reader = Http::new(alloc)?;
    let mut at = 0;
    match reader.feed(alloc, stream, &mut at) {
        Ok(_) => Ok(None),
        Err(HttpError::Memory) => Err(HttpError::Memory),
        Err(error) => Ok(Some((error, at))),
    }
}

/// The length of the body behind a head with these lines, where the stream has no fault.
fn body_behind(alloc: Global, lines: &[u8]) -> Result<Option<usize>, HttpError> {
    let mut stream = Bytes::new(alloc);
    stream.extend(alloc, b"POST / HTTP/1.1\r\n")?;
    stream.extend(alloc, lines)?;
    stream.extend(alloc, b"\r\nabcdefgh")?;
    let mut reader = Http::new(alloc)?;
    let mut at = 0;
    match reader.feed(alloc, stream.as_slice(), &mut at) {
        Ok(Some(request)) => Ok(Some(request.body.as_slice().len())),
        _ => Ok(None),
    }
}

/// A head of this many header lines.
fn with_lines(alloc: Global, count: usize) -> Result<Bytes, AllocError> {
    let mut head = Bytes::new(alloc);
    head.extend(alloc, b"GET / HTTP/1.1\n")?;
    for _ in 0..count {
        head.extend(alloc, b"a:b\n")?;
    }
    head.extend(alloc, b"\n")?;
    Ok(head)
}

/// A head of 31 bytes and this many in its target, without its last byte.
fn with_target(alloc: Global, count: usize) -> Result<Bytes, AllocError> {
    let mut head = Bytes::new(alloc);
    head.extend(alloc, b"GET ")?;
    for _ in 0..count {
        head.push(alloc, b'/')?;
    }
    head.extend(alloc, b" HTTP/1.1\r\nHost: abcdefg\n\r")?;
    Ok(head)
}

#[test]
fn reads_whole(rt: HostRuntime) -> Result<(), Fail> {
    let alloc = rt.alloc();
    let mut stream = Bytes::new(alloc);
    stream.extend(alloc, POST)?;
    stream.extend(alloc, GET)?;
    let piece = stream.as_slice();
    let mut reader = Http::new(alloc)?;
    let mut at = 0;
    let first = reader.feed(alloc, piece, &mut at)?.ok_or("no request")?;
    assert!(rt; is_request(&first, b"POST", b"/api/query", b"{\"a\"}"));
    assert_eq!(rt; at, POST.len());
    assert!(rt; !reader.inside());
    let second = reader.feed(alloc, piece, &mut at)?.ok_or("no second")?;
    assert!(rt; is_request(&second, b"GET", b"/api/query", b""));
    assert_eq!(rt; at, piece.len());
    assert!(rt; reader.feed(alloc, piece, &mut at)?.is_none());
    Ok(())
}

#[test]
fn reads_each_byte(rt: HostRuntime) -> Result<(), Fail> {
    let alloc = rt.alloc();
    let mut reader = Http::new(alloc)?;
    for (index, byte) in POST.iter().enumerate() {
        let mut at = 0;
        match reader.feed(alloc, &[*byte], &mut at)? {
            Some(request) => {
                assert_eq!(rt; index + 1, POST.len());
                assert!(rt; is_request(&request, b"POST", b"/api/query", b"{\"a\"}"));
            }
            None => assert!(rt; reader.inside()),
        }
    }
    Ok(())
}

#[test]
fn reads_a_body_in_pieces(rt: HostRuntime) -> Result<(), Fail> {
    let alloc = rt.alloc();
    let mut reader = Http::new(alloc)?;
    let mut at = 0;
    assert!(rt;
        reader
            .feed(alloc, b"PUT / HTTP/1.1\n\rContent-Length: 6\n\nab", &mut at)
            .is_err()
    );
    let mut reader = Http::new(alloc)?;
    at = 0;
    assert!(rt;
        reader
            .feed(alloc, b"PUT / HTTP/1.1\nContent-Length: 6\n\nab", &mut at)?
            .is_none()
    );
    at = 0;
    assert!(rt; reader.feed(alloc, b"cde", &mut at)?.is_none());
    assert_eq!(rt; at, 3);
    at = 0;
    let request = reader.feed(alloc, b"fGET", &mut at)?.ok_or("no request")?;
    assert!(rt; is_request(&request, b"PUT", b"/", b"abcdef"));
    assert_eq!(rt; at, 1);
    Ok(())
}

#[test]
fn reads_lengths(rt: HostRuntime) -> Result<(), Fail> {
    let alloc = rt.alloc();
    let lines: [(&[u8], Option<usize>); 10] = [
        (b"", Some(0)),
        (b"CONTENT-length: 0000000003\r\n", Some(3)),
        (b"Content-Length: 2\r\ncontent-length: 02\r\n", Some(2)),
        (b"Content-Length: 2\r\nContent-Length: 3\r\n", None),
        (b"Content-Length: 00000000003\r\n", None),
        (b"Content-Length: 65537\r\n", None),
        (b"Content-Length: \r\n", None),
        (b"Content-Length: +1\r\n", None),
        (b"transfer-Encoding: x\r\n", None),
        (b"Content-Length: 9\r\n", None),
    ];
    for (line, length) in lines {
        assert_eq!(rt; body_behind(alloc, line)?, length);
    }
    Ok(())
}

#[test]
fn faults(rt: HostRuntime) -> Result<(), Fail> {
    let alloc = rt.alloc();
    let streams: [(&[u8], Option<(HttpError, usize)>); 5] = [
        (b"\r\n\r\nGET", Some((HttpError::BadHead, 4))),
        (b"?\n\nGET", Some((HttpError::BadHead, 3))),
        (
            b"GET / HTTP/1.1\nTransfer-Encoding: x\n\n",
            Some((HttpError::BadLength, 37)),
        ),
        (
            b"GET / HTTP/1.1\nContent-Length: 65537\n\n",
            Some((HttpError::BadLength, 38)),
        ),
        (b"\r\nGET / HTTP/1.1\nContent-Length: 65536\n\n", None),
    ];
    for (stream, fault) in streams {
        assert_eq!(rt; fault_behind(alloc, stream)?, fault);
    }
    assert_eq!(rt;
        fault_behind(alloc, with_lines(alloc, 32)?.as_slice())?,
        None
    );
    assert_eq!(rt;
        fault_behind(alloc, with_lines(alloc, 33)?.as_slice())?,
        Some((HttpError::BadHead, 148))
    );
    Ok(())
}

#[test]
fn reads_the_longest_head(rt: HostRuntime) -> Result<(), Fail> {
    let alloc = rt.alloc();
    let mut whole = with_target(alloc, 8192 - 31)?;
    whole.extend(alloc, b"\n")?;
    assert_eq!(rt; whole.as_slice().len(), 8192);
    assert_eq!(rt; fault_behind(alloc, whole.as_slice())?, None);
    let longer = with_target(alloc, 8192)?;
    assert_eq!(rt;
        fault_behind(alloc, longer.as_slice())?,
        Some((HttpError::BadHead, 8192))
    );
    Ok(())
}

#[test]
fn tells_a_fault_again(rt: HostRuntime) -> Result<(), Fail> {
    let alloc = rt.alloc();
    let piece = b"GET\n\nGET / HTTP/1.1\n\n";
    let mut reader = Http::new(alloc)?;
    let mut at = 0;
    assert_eq!(rt;
        reader.feed(alloc, piece, &mut at).err(),
        Some(HttpError::BadHead)
    );
    assert_eq!(rt; at, 5);
    assert_eq!(rt;
        reader.feed(alloc, piece, &mut at).err(),
        Some(HttpError::BadHead)
    );
    assert_eq!(rt; at, 5);
    Ok(())
}
