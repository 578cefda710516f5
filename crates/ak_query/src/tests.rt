use super::*;
use ak_base::{Filter, Range, Refusal, Texts};
use std::alloc::Global;
use std::test::Fail;

fn refusal(alloc: Global, text: &[u8]) -> Option<Refusal> {
    match read_query(alloc, text, 0) {
        Err(QueryError::Refused(refusal)) => Some(refusal),
        _ => None,
    }
}

// Whether the texts are these, which are split at `;`.
fn are(texts: &Texts, expected: &str) -> bool {
    let mut count = 0;
    for text in expected.split(';') {
        if count >= texts.as_slice().len() || texts.as_slice()[count].as_str() != text {
            return false;
        }
        count += 1;
    }
    count == texts.as_slice().len()
}

#[test]
fn refused_queries(rt: HostRuntime) {
    let alloc = rt.alloc();
    assert_eq!(rt; refusal(alloc, b"{"), Some(Refusal::NotJson));
    assert_eq!(rt; refusal(alloc, b""), Some(Refusal::NotJson));
    assert_eq!(rt;
        refusal(alloc, b"{\"select\":\"cpu\"} x"),
        Some(Refusal::NotJson)
    );
    assert_eq!(rt;
        refusal(alloc, b"{\"select\":\"\xff\"}"),
        Some(Refusal::NotJson)
    );
    assert_eq!(rt;
        refusal(alloc, b"{\"selct\":\"cpu\"}"),
        Some(Refusal::BadQuery)
    );
    assert_eq!(rt; refusal(alloc, b"[]"), Some(Refusal::BadQuery));
    assert_eq!(rt; refusal(alloc, b"{}"), Some(Refusal::BadQuery));
    assert_eq!(rt;
        refusal(alloc, b"{\"select\":\"cpu\",\"limit\":1.0}"),
        Some(Refusal::BadQuery)
    );
    assert_eq!(rt;
        refusal(alloc, b"{\"select\":\"cpu\",\"limit\":-0}"),
        Some(Refusal::BadQuery)
    );
    assert_eq!(rt;
        refusal(alloc, b"{\"select\":\"cpu\",\"join\":[\"a\",\"b\"]}"),
        Some(Refusal::BadQuery)
    );
    assert_eq!(rt;
        refusal(alloc, b"{\"join\":[\"a\",\"a\"]}"),
        Some(Refusal::BadQuery)
    );
    assert_eq!(rt;
        refusal(alloc, b"{\"join\":[\"a\",\"b\\r\\nc\"]}"),
        Some(Refusal::BadQuery)
    );
    assert_eq!(rt;
        refusal(alloc, b"{\"join\":[\"a\",\"\"]}"),
        Some(Refusal::BadQuery)
    );
    assert_eq!(rt;
        refusal(alloc, b"{\"join\":[\"a\",\"b=c\"]}"),
        Some(Refusal::BadQuery)
    );
    assert_eq!(rt;
        refusal(alloc, b"{\"join\":[\"a\",\"b\"],\"group-by-tag\":[]}"),
        Some(Refusal::BadQuery)
    );
    assert_eq!(rt;
        refusal(alloc, b"{\"select\":\"cpu\",\"filter\":{\"gt\":\"1.5\"}}"),
        Some(Refusal::BadQuery)
    );
    assert_eq!(rt;
        refusal(alloc, b"{\"select\":\"cpu\",\"range\":{\"from\":\"x\"}}"),
        Some(Refusal::BadRange)
    );
    assert_eq!(rt;
        refusal(
            alloc,
            b"{\"select\":\"cpu\",\"range\":{\"to\":18446744073709551616}}"
        ),
        Some(Refusal::BadRange)
    );
    assert_eq!(rt;
        refusal(alloc, b"{\"aggregate\":{\"cpu\":\"mean\"}}"),
        Some(Refusal::BadFunc)
    );
}

#[test]
fn first_refusal(rt: HostRuntime) {
    let alloc = rt.alloc();
    assert_eq!(rt;
        refusal(
            alloc,
            b"{\"aggregate\":{\"cpu\":\"mean\"},\"range\":{\"to\":\"x\"},\"limit\":-1}"
        ),
        Some(Refusal::BadQuery)
    );
    assert_eq!(rt;
        refusal(
            alloc,
            b"{\"aggregate\":{\"cpu\":\"mean\"},\"range\":{\"to\":\"x\"}}"
        ),
        Some(Refusal::BadRange)
    );
    assert_eq!(rt;
        refusal(
            alloc,
            b"{\"group-aggregate\":{\"metric\":\"cpu\",\"step\":\"0s\",\"func\":\"mean\"}}"
        ),
        Some(Refusal::BadRange)
    );
    assert_eq!(rt;
        refusal(
            alloc,
            b"{\"group-aggregate\":{\"metric\":\"cpu\",\"step\":\"1s\",\"func\":[\"min\",\"mean\"]}}"
        ),
        Some(Refusal::BadFunc)
    );
}

#[test]
fn web_hosts(rt: HostRuntime) -> Result<(), Fail> {
    let alloc = rt.alloc();
    let query = read_query(
        alloc,
        b"{\"group-aggregate\":{\"metric\":\"cpu.user\",\"step\":\"1m\",\"func\":[\"min\",\
        \"max\",\"count\"]},\"where\":{\"host\":\"web01\"},\"range\":{\"from\":\"20141210T074400\",\
        \"to\":\"20141210T074600\"}}",
        6,
    )?;
    match &query.kind {
        Kind::Group { step, funcs } => {
            assert_eq!(rt; *step, 60000000000);
            assert!(rt; funcs.as_slice() == [Func::Min, Func::Max, Func::Count].as_slice());
        }
        _ => assert!(rt; false),
    }
    assert!(rt; are(&query.metrics, "cpu.user"));
    assert_eq!(rt;
        query.range,
        Range {
            from: 1418197440000000000,
            to: Some(1418197560000000000),
            back: false
        }
    );
    assert_eq!(rt; query.wheres.as_slice().len(), 1);
    assert!(rt; query.wheres.as_slice()[0].key.as_str() == "host");
    assert!(rt; are(&query.wheres.as_slice()[0].values, "web01"));
    assert!(rt; query.tags.is_none());
    Ok(())
}

#[test]
fn each_key(rt: HostRuntime) -> Result<(), Fail> {
    let alloc = rt.alloc();
    let query = read_query(
        alloc,
        b"{\"output\":{\"format\":\"resp\",\"timestamp\":\"iso\"},\"limit\":3,\"offset\":2,\
        \"order-by\":\"time\",\"group-by-tag\":[\"host\",\"region\"],\"filter\":{\"gt\":-1,\
        \"ge\":\"0.5\",\"lt\":\"+7.\",\"le\":9},\"range\":{\"from\":30,\"to\":10},\"select\":\"mem\",\
        \"select\":\"cpu\"}",
        1,
    )?;
    assert!(rt; matches!(&query.kind, Kind::Select));
    assert!(rt; are(&query.metrics, "cpu"));
    assert_eq!(rt;
        query.range,
        Range {
            from: 30,
            to: Some(10),
            back: true
        }
    );
    assert_eq!(rt;
        query.filter,
        Filter {
            gt: Some(-10),
            ge: Some(5),
            lt: Some(70),
            le: Some(90)
        }
    );
    match &query.tags {
        Some(tags) => assert!(rt; are(tags, "host;region")),
        None => assert!(rt; false),
    }
    assert!(rt; query.by_time && query.resp && query.iso);
    assert_eq!(rt; query.offset, 2);
    assert_eq!(rt; query.limit, Some(3));
    Ok(())
}

#[test]
fn joined(rt: HostRuntime) -> Result<(), Fail> {
    let alloc = rt.alloc();
    let query = read_query(
        alloc,
        b"{\"join\":[\"cpu\",\"mem\"],\"range\":{\"from\":9,\"to\":9}}",
        0,
    )?;
    assert!(rt; matches!(&query.kind, Kind::Join));
    assert!(rt; are(&query.metrics, "cpu;mem"));
    assert!(rt; !query.range.back);
    assert!(rt; !query.by_time && !query.resp && !query.iso);
    assert_eq!(rt; query.offset, 0);
    assert_eq!(rt; query.limit, None);
    Ok(())
}
