//! Streams, whole and byte by byte.
use crate::{Lent, LentValues, Message, Part, PartKind, Resp, RespError};
use ak_base::{Bytes, Refusal};
use std::alloc::{AllocError, Global};
use std::test::Fail;

const MESSAGES: &[u8] =
    b"+cpu host=a\r\n:100\r\n+-1.5\r\n$1\r\nb\r\n$3\r\nnow\r\n*2\r\n:+7\r\n+x\r\n+!query\r\n$2\r\n{}\r\n+!flush\r\n+!stop\r\n+c\r\n+\r\n*0\r\n";

fn is_part(part: &Part, kind: PartKind, text: &[u8]) -> bool {
    part.kind == kind && part.bytes.as_slice() == text
}

fn refusal_in(answer: Result<Option<Message>, RespError>) -> Result<Option<Refusal>, RespError> {
    match answer {
        Ok(_) => Ok(None),
        Err(RespError::Refused(refusal)) => Ok(Some(refusal)),
        Err(RespError::Memory) => Err(RespError::Memory),
    }
}

/// What a stream of one message or less is refused by, read at once.
fn refusal_whole(alloc: Global, stream: &[u8]) -> Result<Option<Refusal>, RespError> {
    let mut reader = Resp::new(alloc)?;
    let mut at = 0;
    refusal_in(reader.feed(alloc, stream, &mut at))
}

/// What a stream is refused by, read byte by byte.
fn refusal_by_bytes(alloc: Global, stream: &[u8]) -> Result<Option<Refusal>, RespError> {
    let mut reader = Resp::new(alloc)?;
    for byte in stream {
        let mut at = 0;
        let refusal = refusal_in(reader.feed(alloc, &[*byte], &mut at))?;
        if refusal.is_some() {
            return Ok(refusal);
        }
    }
    Ok(None)
}

/// A text, and a letter so many times.
fn filled(alloc: Global, front: &[u8], letters: u32) -> Result<Bytes, AllocError> {
    let mut stream = Bytes::new(alloc);
    stream.extend(alloc, front)?;
    for _ in 0..letters {
        stream.push(alloc, b'a')?;
    }
    Ok(stream)
}

/// The kinds of a put's parts, or a letter for another message.
fn shape(message: &Message) -> &str {
    match message {
        Message::Put { values, .. } => match values.as_slice() {
            [] => "put of none",
            [_] => "put",
            _ => "put of more",
        },
        Message::Query(_) => "query",
        Message::Flush => "flush",
        Message::Unknown => "unknown",
    }
}

#[test]
fn faults(rt: HostRuntime) -> Result<(), Fail> {
    let alloc = rt.alloc();
    let long = filled(alloc, b"+", 4097)?;
    let number = filled(alloc, b"+a\r\n:1", 1)?;
    let streams: [(&[u8], Refusal); 22] = [
        (b"?", Refusal::BadKind { at: 0 }),
        (b"\r", Refusal::BadKind { at: 0 }),
        (number.as_slice(), Refusal::BadNumber { at: 6 }),
        (b"+a\r\n:1x", Refusal::BadNumber { at: 6 }),
        (b"+a\r\n:\r", Refusal::BadNumber { at: 5 }),
        (b"+a\r\n:-\r", Refusal::BadNumber { at: 6 }),
        (b"+a\r\n:1-", Refusal::BadNumber { at: 6 }),
        (b"$-", Refusal::BadNumber { at: 1 }),
        (long.as_slice(), Refusal::LongLine { at: 4097 }),
        (b"+a\rb", Refusal::BadEnd { at: 3 }),
        (b"\n", Refusal::BadEnd { at: 0 }),
        (b"+a\n", Refusal::BadEnd { at: 2 }),
        (b"+a\r\n\n", Refusal::BadEnd { at: 4 }),
        (b"$2\r\nabc", Refusal::BadEnd { at: 6 }),
        (b"$2\r\nab\ra", Refusal::BadEnd { at: 7 }),
        (b"$65537", Refusal::LongBulk { at: 5 }),
        (b"$065537", Refusal::LongBulk { at: 6 }),
        (b":5\r\n", Refusal::BadShape { at: 0 }),
        (b"+a\r\n*1", Refusal::BadShape { at: 4 }),
        (b"+a\r\n:1\r\n*65", Refusal::BadShape { at: 10 }),
        (b"+a\r\n:1\r\n*1\r\n$1", Refusal::BadShape { at: 12 }),
        (b"+!query\r\n:1", Refusal::BadShape { at: 9 }),
    ];
    for (stream, refusal) in streams {
        assert_eq!(rt; refusal_whole(alloc, stream)?, Some(refusal));
        assert_eq!(rt; refusal_by_bytes(alloc, stream)?, Some(refusal));
    }
    let longest = filled(alloc, b"+", 4096)?;
    assert_eq!(rt; refusal_whole(alloc, longest.as_slice())?, None);
    let behind = b"+!flush\r\n+!stop\r\n+a\r\n:1\r\n:2\r\nx";
    assert_eq!(rt;
        refusal_by_bytes(alloc, behind)?,
        Some(Refusal::BadKind { at: 29 })
    );
    Ok(())
}

#[test]
fn reads_parts(rt: HostRuntime) -> Result<(), Fail> {
    let alloc = rt.alloc();
    let mut reader = Resp::new(alloc)?;
    let mut at = 0;
    let one = reader.feed(alloc, MESSAGES, &mut at)?.ok_or("no put")?;
    assert_eq!(rt; at, 26);
    assert!(rt; !reader.inside());
    let Message::Put { name, time, values } = one else {
        return Err("no put".into());
    };
    assert!(rt; is_part(&name, PartKind::Simple, b"cpu host=a"));
    assert!(rt; is_part(&time, PartKind::Integer, b"100"));
    let [value] = values.as_slice() else {
        return Err("more values".into());
    };
    assert!(rt; is_part(value, PartKind::Simple, b"-1.5"));
    let more = reader.feed(alloc, MESSAGES, &mut at)?.ok_or("no put")?;
    let Message::Put { name, time, values } = more else {
        return Err("no put".into());
    };
    assert!(rt; is_part(&name, PartKind::Bulk, b"b"));
    assert!(rt; is_part(&time, PartKind::Bulk, b"now"));
    let [first, second] = values.as_slice() else {
        return Err("other values".into());
    };
    assert!(rt; is_part(first, PartKind::Integer, b"+7"));
    assert!(rt; is_part(second, PartKind::Simple, b"x"));
    let query = reader.feed(alloc, MESSAGES, &mut at)?.ok_or("no query")?;
    let Message::Query(json) = query else {
        return Err("no query".into());
    };
    assert!(rt; is_part(&json, PartKind::Bulk, b"{}"));
    let flush = reader.feed(alloc, MESSAGES, &mut at)?.ok_or("no flush")?;
    assert_eq!(rt; shape(&flush), "flush");
    let stop = reader.feed(alloc, MESSAGES, &mut at)?.ok_or("no stop")?;
    assert_eq!(rt; shape(&stop), "unknown");
    let none = reader.feed(alloc, MESSAGES, &mut at)?.ok_or("no put")?;
    assert_eq!(rt; shape(&none), "put of none");
    assert_eq!(rt; at, MESSAGES.len());
    assert!(rt; reader.feed(alloc, MESSAGES, &mut at)?.is_none());
    Ok(())
}

// How many bytes spell the put that stands whole at the front, and 0 where none is taken.
fn whole_length(alloc: Global, stream: &[u8]) -> Result<usize, AllocError> {
    let reader = Resp::new(alloc)?;
    match reader.whole(stream, 0) {
        Some(put) => Ok(put.length),
        None => Ok(0),
    }
}

fn is_lent(part: &Lent, kind: PartKind, text: &[u8]) -> bool {
    part.kind == kind && part.text == text
}

/// Puts of each shape, each of them whole.
const PUTS: [&[u8]; 9] = [
    b"+a\r\n:1\r\n:2\r\n",
    b"+a b=c\r\n:12345678\r\n+2.5 x\r\n",
    b"$1\r\na\r\n:1\r\n:-2\r\n",
    b"+a\r\n+1\r\n:+2\r\n",
    b"$007\r\na\r\nb=!c\r\n$3\r\n170\r\n$1\r\n2\r\n",
    b"+\r\n:9999999999999999999\r\n+\r\n",
    b"+a\r\n:1\r\n*0\r\n",
    b"+a\r\n:1\r\n*1\r\n:2\r\n",
    b"$1\r\na\r\n$1\r\n1\r\n*03\r\n:2\r\n+x\r\n:-3\r\n",
];

#[test]
fn takes_each_shape_whole(rt: HostRuntime) -> Result<(), Fail> {
    let alloc = rt.alloc();
    for put in PUTS {
        for end in 0..put.len() {
            assert_eq!(rt; whole_length(alloc, &put[..end])?, 0);
        }
        assert_eq!(rt; whole_length(alloc, put)?, put.len());
        let mut more = Bytes::new(alloc);
        more.extend(alloc, put)?;
        more.extend(alloc, b"+b\r\n:1\r\n:2\r\n+c")?;
        assert_eq!(rt; whole_length(alloc, more.as_slice())?, put.len());
    }
    Ok(())
}

#[test]
fn takes_no_other_put_whole(rt: HostRuntime) -> Result<(), Fail> {
    let alloc = rt.alloc();
    let streams: [&[u8]; 20] = [
        // controls
        b"+!a\r\n:1\r\n:2\r\n",
        b"$2\r\n!a\r\n:1\r\n:2\r\n",
        // times that are no 1 to 19 digits
        b"+a\r\n:-1\r\n:2\r\n",
        b"+a\r\n:+1\r\n:2\r\n",
        b"+a\r\n+\r\n:2\r\n",
        b"+a\r\n$0\r\n\r\n:2\r\n",
        b"+a\r\n+1x\r\n:2\r\n",
        b"+a\r\n$2\r\n1x\r\n:2\r\n",
        b"+a\r\n:01234567890123456789\r\n:2\r\n",
        b"+a\r\n+01234567890123456789\r\n:2\r\n",
        b"+a\r\n$20\r\n01234567890123456789\r\n:2\r\n",
        // faults
        b"+a\r\n:1x\r\n:2\r\n",
        b"+a\r\n:1\r\n:\r\n",
        b"+a\r\n:1\r\n:-\r\n",
        b"+a\r\n:1\r\n+2\n\n",
        b"+a\r:1\r\n:2\r\n",
        b"$2\r\nabc\r\n:1\r\n:2\r\n",
        b"$\r\n\r\n:1\r\n:2\r\n",
        b"+a\r\n:1\r\n$65537\r\n",
        b"+a\r\n:1\r\n*1\r\n$1\r\n2\r\n",
    ];
    for stream in streams {
        assert_eq!(rt; whole_length(alloc, stream)?, 0);
    }
    Ok(())
}

// An array of 64 values is taken, and none of 65.
#[test]
fn takes_the_longest_array_whole(rt: HostRuntime) -> Result<(), Fail> {
    let alloc = rt.alloc();
    let fronts: [(&[u8], usize); 2] = [(b"+a\r\n:1\r\n*64\r\n", 269), (b"+a\r\n:1\r\n*65\r\n", 0)];
    for (front, length) in fronts {
        let mut stream = Bytes::new(alloc);
        stream.extend(alloc, front)?;
        for _ in 0..65 {
            stream.extend(alloc, b":1\r\n")?;
        }
        assert_eq!(rt; whole_length(alloc, stream.as_slice())?, length);
    }
    Ok(())
}

#[test]
fn reads_the_digits_of_a_time(rt: HostRuntime) -> Result<(), Fail> {
    let alloc = rt.alloc();
    let times: [(&[u8], u64); 9] = [
        (b"+a\r\n:7\r\n:2\r\n", 7),
        (b"+a\r\n:0000000\r\n:2\r\n", 0),
        (b"+a\r\n:12345678\r\n:2\r\n", 12_345_678),
        (b"+a\r\n+123456789\r\n:2\r\n", 123_456_789),
        (b"+a\r\n:1418224205123\r\n:2\r\n", 1_418_224_205_123),
        (b"+a\r\n:1234567890123456\r\n:2\r\n", 1_234_567_890_123_456),
        (
            b"+a\r\n$17\r\n12345678901234567\r\n:2\r\n",
            12_345_678_901_234_567,
        ),
        (b"+a\r\n:0000000012345678901\r\n:2\r\n", 12_345_678_901),
        (
            b"+a\r\n:9999999999999999999\r\n:2\r\n",
            9_999_999_999_999_999_999,
        ),
    ];
    let reader = Resp::new(alloc)?;
    for (stream, ts) in times {
        let put = reader.whole(stream, 0).ok_or("no put")?;
        assert_eq!(rt; put.ts, ts);
    }
    Ok(())
}

#[test]
fn splits_the_values_of_a_whole_put(rt: HostRuntime) -> Result<(), Fail> {
    let alloc = rt.alloc();
    let reader = Resp::new(alloc)?;
    let piece = b"?$1\r\na\r\n+17\r\n*2\r\n:-2\r\n+\r\n?";
    let put = reader.whole(piece, 1).ok_or("no put")?;
    assert_eq!(rt; put.length, 24);
    assert!(rt; is_lent(&put.name, PartKind::Bulk, b"a"));
    assert!(rt; is_lent(&put.time, PartKind::Simple, b"17"));
    let LentValues::Array(parts) = put.values else {
        return Err("one value".into());
    };
    let (first, others) = parts.split().ok_or("no value")?;
    assert!(rt; is_lent(&first, PartKind::Integer, b"-2"));
    let (second, none) = others.split().ok_or("one value")?;
    assert!(rt; is_lent(&second, PartKind::Simple, b""));
    assert_eq!(rt; none.count, 0);
    assert!(rt; none.split().is_none());
    Ok(())
}

// A put is taken between messages alone, and what comes behind it is counted on.
#[test]
fn takes_whole_puts_in_a_stream(rt: HostRuntime) -> Result<(), Fail> {
    let alloc = rt.alloc();
    let piece = b"+!flush\r\n+cpu host=a\r\n:100\r\n+-1.5\r\n+b\r\n:1\r\n:2\r\n?+a\r\n:1\r\n:2\r\n";
    let mut reader = Resp::new(alloc)?;
    let mut at = 0;
    assert!(rt; reader.whole(piece, 0).is_none());
    let flush = reader.feed(alloc, piece, &mut at)?.ok_or("no flush")?;
    assert_eq!(rt; shape(&flush), "flush");
    assert_eq!(rt; at, 9);
    let put = reader.whole(piece, 9).ok_or("no put")?;
    assert_eq!(rt; put.length, 26);
    assert!(rt; is_lent(&put.name, PartKind::Simple, b"cpu host=a"));
    assert!(rt; is_lent(&put.time, PartKind::Integer, b"100"));
    assert_eq!(rt; put.ts, 100);
    let LentValues::One(value) = put.values else {
        return Err("more values".into());
    };
    assert!(rt; is_lent(&value, PartKind::Simple, b"-1.5"));
    reader.pass(26);
    // the front of a put begins a message
    let mut front = 0;
    assert!(rt; reader.feed(alloc, b"+b\r\n", &mut front)?.is_none());
    assert!(rt; reader.whole(piece, 35).is_none());
    at = 39;
    let put = reader.feed(alloc, piece, &mut at)?.ok_or("no put")?;
    assert_eq!(rt; shape(&put), "put");
    let fault = Some(Refusal::BadKind { at: 47 });
    assert_eq!(rt; refusal_in(reader.feed(alloc, piece, &mut at))?, fault);
    assert_eq!(rt; at, 48);
    assert!(rt; reader.whole(piece, 48).is_none());
    Ok(())
}

#[test]
fn reads_each_byte(rt: HostRuntime) -> Result<(), Fail> {
    let alloc = rt.alloc();
    let mut reader = Resp::new(alloc)?;
    let mut told = String::new(alloc);
    for byte in MESSAGES {
        let mut at = 0;
        match reader.feed(alloc, &[*byte], &mut at)? {
            Some(message) => {
                told.push_str(shape(&message))?;
                told.push_str(", ")?;
            }
            None => assert!(rt; reader.inside()),
        }
    }
    assert_eq!(rt;
        told.as_str(),
        "put, put of more, query, flush, unknown, put of none, "
    );
    Ok(())
}

#[test]
fn reads_the_longest_bulk(rt: HostRuntime) -> Result<(), Fail> {
    let alloc = rt.alloc();
    let mut stream = filled(alloc, b"+a\r\n:1\r\n$65536\r\n", 65_536)?;
    stream.extend(alloc, b"\r\n")?;
    let piece = stream.as_slice();
    let mut reader = Resp::new(alloc)?;
    let mut at = 0;
    let put = reader.feed(alloc, piece, &mut at)?.ok_or("no put")?;
    assert_eq!(rt; at, piece.len());
    let Message::Put { values, .. } = put else {
        return Err("no put".into());
    };
    let [value] = values.as_slice() else {
        return Err("more values".into());
    };
    assert!(rt; value.kind == PartKind::Bulk);
    assert_eq!(rt; value.bytes.as_slice().len(), 65_536);
    assert_eq!(rt; refusal_by_bytes(alloc, piece)?, None);
    Ok(())
}

#[test]
fn tells_a_fault_again(rt: HostRuntime) -> Result<(), Fail> {
    let alloc = rt.alloc();
    let piece = b"+a\r\n:1x+a\r\n:1\r\n:1\r\n";
    let mut reader = Resp::new(alloc)?;
    let mut at = 0;
    let fault = Some(Refusal::BadNumber { at: 6 });
    assert_eq!(rt; refusal_in(reader.feed(alloc, piece, &mut at))?, fault);
    assert_eq!(rt; at, 7);
    assert_eq!(rt; refusal_in(reader.feed(alloc, piece, &mut at))?, fault);
    assert_eq!(rt; at, 7);
    Ok(())
}
