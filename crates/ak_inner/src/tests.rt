ghost use Rattle.std.specs.Prelude.{◌≡◌, ◌+◌, ◌≤◌, [], length};

use crate::{Inner, Ref};
use ak_base::{Addr, Block};
use ak_bytes::Head;
use ak_summary::Summary;

/// The head of the second node of level 1 of series 7, at address 40, with two references.
const HEAD: Head = Head {
    kind: Head::INNER,
    level: 1,
    count: 2,
    series: 7,
    number: 1,
    addr: Addr(40),
    elder: Addr(33),
    length: 208,
};

/// Three points from 10 to 20 and one at 20.
const REFS: [Ref; 2] = [
    Ref {
        addr: Addr(0x0100_0000_0005),
        first_leaf: Addr(4),
        summary: Summary {
            count: 3,
            begin: 10,
            end: 20,
            first: -2,
            last: 5,
            min: -3,
            min_ts: 12,
            max: 5,
            max_ts: 20,
            sum: 0,
        },
    },
    Ref {
        addr: Addr(6),
        first_leaf: Addr(6),
        summary: Summary {
            count: 1,
            begin: 20,
            end: 20,
            first: -256,
            last: -256,
            min: -256,
            min_ts: 20,
            max: -256,
            max_ts: 20,
            sum: -256,
        },
    },
];

/// Writes so many bytes 255 from a place on.
fn put_ones(block: &mut Block, at: usize, count: usize)
    requires { at + count ≤ 4096 }
{
    for i in at..at + count {
        block[i] = 0xff;
    }
}

/// The block with that head of these references, byte by byte.
fn example() -> Block {
    let mut block = [0; 4096];
    block[0] = 2;
    block[1] = 1;
    block[2] = 2;
    block[4] = 7;
    block[8] = 1;
    block[16] = 40;
    block[24] = 33;
    block[32] = 208;
    block[64] = 5;
    block[69] = 1;
    block[72] = 4;
    block[80] = 3;
    block[88] = 10;
    block[96] = 20;
    block[104] = 0xfe;
    put_ones(&mut block, 105, 7);
    block[112] = 5;
    block[120] = 0xfd;
    put_ones(&mut block, 121, 7);
    block[128] = 12;
    block[136] = 5;
    block[144] = 20;
    block[168] = 6;
    block[176] = 6;
    block[184] = 1;
    block[192] = 20;
    block[200] = 20;
    put_ones(&mut block, 209, 7);
    put_ones(&mut block, 217, 7);
    put_ones(&mut block, 225, 7);
    block[232] = 20;
    put_ones(&mut block, 241, 7);
    block[248] = 20;
    put_ones(&mut block, 257, 15);
    block
}

#[test]
fn two_references_are_written(rt: HostRuntime) {
    let mut node = Inner::new();
    let mut block = [7; 4096];
    node.push(REFS[0]);
    node.push(REFS[1]);
    node.encode(&HEAD, &mut block);
    assert_eq!(rt; block.as_slice(), example().as_slice());
}

#[test]
fn two_references_are_read(rt: HostRuntime) {
    let mut node = Inner::new();
    assert_eq!(rt; node.decode(&example(), 1, 7, 1, Addr(40)), Some(HEAD));
    assert_eq!(rt; node.refs(), REFS.as_slice());
    assert!(rt; node.decode(&example(), 2, 7, 1, Addr(40)).is_none());
    assert!(rt; node.refs().is_empty());
    assert!(rt; node.decode(&example(), 1, 8, 1, Addr(40)).is_none());
    assert!(rt; node.decode(&example(), 1, 7, 2, Addr(40)).is_none());
    assert!(rt; node.decode(&example(), 1, 7, 1, Addr(41)).is_none());
}

/// A place, and a byte there that breaks a rule.
const BREACHES: [(usize, u8); 20] = [
    // kind, count and length of the head, and a byte behind them
    (0, 1),
    (2, 3),
    (32, 104),
    (63, 1),
    // counts of 0 and of 2051
    (80, 0),
    (81, 8),
    // ends before the time of the greatest value, and after the next begins
    (96, 19),
    (96, 21),
    // first value below the least, and above the greatest
    (104, 0xfc),
    (111, 0x7f),
    // last value above the greatest, and below the least
    (112, 6),
    (119, 0x80),
    // times of the least value before the begin, and after the end
    (128, 9),
    (128, 21),
    // times of the greatest value before the begin, and after the end
    (144, 9),
    (144, 21),
    // sums of 16, and of far less than three times the least value
    (152, 16),
    (167, 0x80),
    // a begin after the end
    (192, 21),
    // a byte behind the last reference
    (272, 1),
];

#[test]
fn each_breach_is_refused(rt: HostRuntime) {
    let mut node = Inner::new();
    for (at, byte) in BREACHES {
        assert!(rt; at < 4096);
        let mut block = example();
        block[at] = byte;
        assert!(rt; node.decode(&block, 1, 7, 1, Addr(40)).is_none());
        assert!(rt; node.refs().is_empty());
    }
}

/// Pushes a reference until none more fits.
fn fill(node: &mut Inner, r: Ref)
    requires { node.old ≡ [] }
    ensures { length node.new ≡ 32 }
{
    for _ in 0..32_usize {
        node.push(r);
    }
}

#[test]
fn as_many_references_as_fit(rt: HostRuntime) {
    let mut node = Inner::new();
    let mut other = Inner::new();
    let mut block = [7; 4096];
    let head = Head {
        count: 32,
        length: 3328,
        ..HEAD
    };
    fill(&mut node, REFS[1]);
    node.encode(&head, &mut block);
    assert_eq!(rt; other.decode(&block, 1, 7, 1, Addr(40)), Some(head));
    assert_eq!(rt; other.refs(), node.refs());
}
