use crate::{iso, read_step, read_time};
use ak_base::Refusal;

#[test]
fn times_of_dates(rt: HostRuntime) {
    assert_eq!(rt; read_time(b"20141210T074400"), Ok(1418197440000000000));
    assert_eq!(rt;
        read_time(b"20141210T074343.999999999"),
        Ok(1418197423999999999)
    );
    assert_eq!(rt; read_time(b"20141210T074343.5"), Ok(1418197423500000000));
    assert_eq!(rt; read_time(b"19700101T000000"), Ok(0));
    assert_eq!(rt; read_time(b"20000229T000000"), Ok(951782400000000000));
    assert_eq!(rt;
        read_time(b"25540721T233433.709551615"),
        Ok(18446744073709551615)
    );
    assert_eq!(rt;
        read_time(b"25540721T233433.709551616"),
        Err(Refusal::TimeRange)
    );
    assert_eq!(rt; read_time(b"19691231T235959"), Err(Refusal::TimeRange));
    assert_eq!(rt; read_time(b"00000101T000000"), Err(Refusal::TimeRange));
}

#[test]
fn texts_that_are_no_time(rt: HostRuntime) {
    assert_eq!(rt; read_time(b"19000229T000000"), Err(Refusal::BadTime));
    assert_eq!(rt; read_time(b"20150229T000000"), Err(Refusal::BadTime));
    assert_eq!(rt; read_time(b"20141210T074360"), Err(Refusal::BadTime));
    assert_eq!(rt; read_time(b"20141210T240000"), Err(Refusal::BadTime));
    assert_eq!(rt; read_time(b"20141210T074343."), Err(Refusal::BadTime));
    assert_eq!(rt;
        read_time(b"20141210T074343.0123456789"),
        Err(Refusal::BadTime)
    );
    assert_eq!(rt; read_time(b"20141210t074343"), Err(Refusal::BadTime));
    assert_eq!(rt; read_time(b""), Err(Refusal::BadTime));
    assert_eq!(rt; read_time(b"+-1"), Err(Refusal::BadTime));
}

#[test]
fn times_of_whole_numbers(rt: HostRuntime) {
    assert_eq!(rt;
        read_time(b"18446744073709551615"),
        Ok(18446744073709551615)
    );
    assert_eq!(rt; read_time(b"18446744073709551616"), Err(Refusal::TimeRange));
    assert_eq!(rt;
        read_time(b"000000000000000000000000000000000000000000000000007"),
        Ok(7)
    );
    assert_eq!(rt;
        read_time(b"99999999999999999999999999999999999999999999999999"),
        Err(Refusal::TimeRange)
    );
    assert_eq!(rt; read_time(b"-1"), Err(Refusal::TimeRange));
    assert_eq!(rt; read_time(b"-0"), Ok(0));
    assert_eq!(rt; read_time(b"+5"), Ok(5));
}

#[test]
fn texts_of_moments(rt: HostRuntime) {
    assert_eq!(rt; iso(1418197423999999999), *b"20141210T074343.999999999");
    assert_eq!(rt; iso(0), *b"19700101T000000.000000000");
    assert_eq!(rt; iso(18446744073709551615), *b"25540721T233433.709551615");
}

#[test]
fn steps(rt: HostRuntime) {
    assert_eq!(rt; read_step(b"1m"), Some(60000000000));
    assert_eq!(rt; read_step(b"7"), Some(7));
    assert_eq!(rt; read_step(b"2us"), Some(2000));
    assert_eq!(rt; read_step(b"0s"), None);
    assert_eq!(rt;
        read_step(b"18446744073709551615"),
        Some(18446744073709551615)
    );
    assert_eq!(rt; read_step(b"18446744073709551616"), None);
    assert_eq!(rt; read_step(b"213503d"), Some(18446659200000000000));
    assert_eq!(rt; read_step(b"213504d"), None);
    assert_eq!(rt; read_step(b"1w"), None);
    assert_eq!(rt; read_step(b"000000000000000000001"), None);
    assert_eq!(rt; read_step(b"s"), None);
}
