//! Summaries of small lists.
use super::*;
use ak_base::Point;

/// Five points whose least and greatest value stand twice.
const POINTS: [Point; 5] = [
    Point { ts: 1, value: -5 },
    Point { ts: 2, value: 7 },
    Point { ts: 2, value: -5 },
    Point { ts: 4, value: 7 },
    Point { ts: 4, value: 0 },
];

/// The summary of these points.
const SUMMARY: Summary = Summary {
    count: 5,
    begin: 1,
    end: 4,
    first: -5,
    last: 0,
    min: -5,
    min_ts: 1,
    max: 7,
    max_ts: 2,
    sum: 4,
};

#[test]
fn summary_of_a_list(rt: HostRuntime) {
    assert_eq!(rt; value_of::<Summary>(&POINTS), Some(SUMMARY));
    assert_eq!(rt; value_of::<Summary>(&[]), None);
}

#[test]
fn joined_in_parts(rt: HostRuntime) {
    let front = Summary::of(POINTS[0]).join(Summary::of(POINTS[1]));
    let back = Summary::of(POINTS[2]).join(Summary::of(POINTS[3]));
    let whole = front.join(back).join(Summary::of(POINTS[4]));
    assert_eq!(rt; whole, SUMMARY);
}

#[test]
fn merged_by_time(rt: HostRuntime) {
    let first = Summary::of(Point { ts: 1, value: 3 }).join(Summary::of(Point {
        ts: 4,
        value: -2,
    }));
    let other = Summary::of(Point { ts: 1, value: 5 })
        .join(Summary::of(Point { ts: 3, value: -2 }))
        .join(Summary::of(Point { ts: 4, value: 5 }));
    let merged = Summary {
        count: 5,
        begin: 1,
        end: 4,
        first: 3,
        last: 5,
        min: -2,
        min_ts: 3,
        max: 5,
        max_ts: 1,
        sum: 9,
    };
    assert_eq!(rt; first.merge(other), merged);
}

#[test]
fn laws_are_called() {
    one_summary();
    summaries_keep_rules();
    joins_associate();
    joins_summarize();
    computed_summary();
}
