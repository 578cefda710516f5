use crate::{Bytes, Filter, Range, Refusal, read_value};

#[test]
fn values(rt: HostRuntime) {
    assert_eq!(rt; read_value(b"0", 0), Ok(0));
    assert_eq!(rt; read_value(b"-0", 6), Ok(0));
    assert_eq!(rt; read_value(b"007", 0), Ok(7));
    assert_eq!(rt; read_value(b"1.", 3), Ok(1000));
    assert_eq!(rt; read_value(b".5", 1), Ok(5));
    assert_eq!(rt; read_value(b"-.5", 3), Ok(-500));
    assert_eq!(rt; read_value(b"+.5", 3), Ok(500));
    assert_eq!(rt; read_value(b"-12.5", 3), Ok(-12500));
    assert_eq!(rt; read_value(b"1.500", 1), Ok(15));
    assert_eq!(rt; read_value(b"1.000", 0), Ok(1));
    assert_eq!(rt; read_value(b"1.234567891", 9), Ok(1234567891));
    assert_eq!(rt;
        read_value(
            b"0000000000000000000000000000000000000000000000003.14000000000000000000000000000000000000000",
            2
        ),
        Ok(314)
    );
}

#[test]
fn texts_that_are_no_value(rt: HostRuntime) {
    assert_eq!(rt; read_value(b"", 6), Err(Refusal::BadValue));
    assert_eq!(rt; read_value(b"+", 6), Err(Refusal::BadValue));
    assert_eq!(rt; read_value(b".", 6), Err(Refusal::BadValue));
    assert_eq!(rt; read_value(b"-.", 6), Err(Refusal::BadValue));
    assert_eq!(rt; read_value(b"1.2.3", 6), Err(Refusal::BadValue));
    assert_eq!(rt; read_value(b" 1", 6), Err(Refusal::BadValue));
    assert_eq!(rt; read_value(b"1 ", 6), Err(Refusal::BadValue));
    assert_eq!(rt; read_value(b"1e3", 6), Err(Refusal::BadValue));
    assert_eq!(rt; read_value(b"+-1", 6), Err(Refusal::BadValue));
    assert_eq!(rt; read_value(b"1.a", 0), Err(Refusal::BadValue));
    assert_eq!(rt; read_value(b"1.0a", 6), Err(Refusal::BadValue));
    assert_eq!(rt; read_value(b"1.25", 1), Err(Refusal::BadValue));
    assert_eq!(rt;
        read_value(b"99999999999999999999.25", 1),
        Err(Refusal::BadValue)
    );
    assert_eq!(rt;
        read_value(b"99999999999999999999x", 1),
        Err(Refusal::BadValue)
    );
}

#[test]
fn values_at_the_ends(rt: HostRuntime) {
    assert_eq!(rt;
        read_value(b"9223372036854775807", 0),
        Ok(9223372036854775807)
    );
    assert_eq!(rt;
        read_value(b"9223372036854775808", 0),
        Err(Refusal::ValueRange)
    );
    assert_eq!(rt;
        read_value(b"-9223372036854775808", 0),
        Ok(-9223372036854775808)
    );
    assert_eq!(rt;
        read_value(b"-9223372036854775809", 0),
        Err(Refusal::ValueRange)
    );
    assert_eq!(rt;
        read_value(b"9223372036.854775807", 9),
        Ok(9223372036854775807)
    );
    assert_eq!(rt;
        read_value(b"9223372036.854775808", 9),
        Err(Refusal::ValueRange)
    );
    assert_eq!(rt; read_value(b"9223372037", 9), Err(Refusal::ValueRange));
    assert_eq!(rt;
        read_value(b"9999999999999999999", 0),
        Err(Refusal::ValueRange)
    );
    assert_eq!(rt; read_value(b"0000000000000000012", 2), Ok(1200));
    assert_eq!(rt; read_value(b"-00000000000000000012", 2), Ok(-1200));
    assert_eq!(rt;
        read_value(b"123456789012345678a", 0),
        Err(Refusal::BadValue)
    );
    assert_eq!(rt;
        read_value(b"18446744073709551616", 0),
        Err(Refusal::ValueRange)
    );
    assert_eq!(rt;
        read_value(b"-99999999999999999999999999999999999999999999999999", 9),
        Err(Refusal::ValueRange)
    );
}

#[test]
fn long_texts(rt: HostRuntime) {
    let mut text = [b'0'; 3000];
    text[2000] = b'7';
    assert_eq!(rt; read_value(&text, 0), Err(Refusal::ValueRange));
    text[2001] = b'.';
    assert_eq!(rt; read_value(&text, 9), Ok(7000000000));
    text[2999] = b'1';
    assert_eq!(rt; read_value(&text, 9), Err(Refusal::BadValue));
}

#[test]
fn ranges(rt: HostRuntime) {
    let forward = Range {
        from: 3,
        to: Some(5),
        back: false,
    };
    assert!(rt; !forward.has(2));
    assert!(rt; forward.has(3));
    assert!(rt; forward.has(4));
    assert!(rt; !forward.has(5));
    let backward = Range {
        from: 5,
        to: Some(3),
        back: true,
    };
    assert!(rt; !backward.has(3));
    assert!(rt; backward.has(4));
    assert!(rt; backward.has(5));
    assert!(rt; !backward.has(6));
    let endless = Range {
        from: 3,
        to: None,
        back: false,
    };
    assert!(rt; !endless.has(2));
    assert!(rt; endless.has(u64::MAX));
    let nothing = Range {
        from: 0,
        to: Some(0),
        back: false,
    };
    assert!(rt; !nothing.has(0));
}

#[test]
fn filters(rt: HostRuntime) {
    let mut filter = Filter {
        gt: None,
        ge: None,
        lt: None,
        le: None,
    };
    assert!(rt; filter.is_open());
    assert!(rt; filter.has(i64::MIN));
    filter.gt = Some(-2);
    filter.le = Some(1);
    assert!(rt; !filter.is_open());
    assert!(rt; !filter.has(-2));
    assert!(rt; filter.has(-1));
    assert!(rt; filter.has(1));
    assert!(rt; !filter.has(2));
    filter.ge = Some(0);
    filter.lt = Some(1);
    assert!(rt; !filter.has(-1));
    assert!(rt; filter.has(0));
    assert!(rt; !filter.has(1));
}

#[test]
fn bytes_written_over(rt: HostRuntime) {
    let mut text = Bytes::new(rt.alloc());
    text.extend(rt.alloc(), b"abcdef").expect(&rt, "memory");
    text.overwrite(2, b"xy");
    assert_eq!(rt; text.as_slice(), b"abxyef".as_slice());
    text.overwrite(6, b"");
    assert_eq!(rt; text.as_slice(), b"abxyef".as_slice());
}
