use crate::{
    Head, get_head, get_i64, get_i128, get_u32, get_uvar, put_head, put_i64, put_i128, put_u32,
    put_uvar, unzigzag, uvar_length, zigzag, zigzag_i64,
};
use ak_base::{Addr, Block};

/// Numbers, and how each is spelled.
const SPELLINGS: [(u128, &[u8]); 6] = [
    (0, &[0]),
    (127, &[0x7f]),
    (128, &[0x80, 1]),
    (2016, &[0xe0, 0x0f]),
    (
        0xffff_ffff_ffff_ffff,
        &[255, 255, 255, 255, 255, 255, 255, 255, 255, 1],
    ),
    (
        0x1_ffff_ffff_ffff_fffe,
        &[254, 255, 255, 255, 255, 255, 255, 255, 255, 3],
    ),
];

#[test]
fn numbers_are_spelled_and_read(rt: HostRuntime) {
    for (number, spelling) in SPELLINGS {
        let mut buf = [0; 10];
        assert!(rt; number < 1 << 70);
        assert_eq!(rt; uvar_length(number) as usize, spelling.len());
        assert_eq!(rt; put_uvar(&mut buf, 0, number), Some(spelling.len()));
        assert_eq!(rt; &buf[..spelling.len()], spelling);
        assert_eq!(rt; get_uvar(spelling, 0), Some((number, spelling.len())));
    }
}

#[test]
fn longer_and_cut_spellings_are_refused(rt: HostRuntime) {
    assert_eq!(rt; get_uvar(&[0x80, 0], 0), None);
    assert_eq!(rt; get_uvar(&[0x80], 0), None);
    assert_eq!(rt; get_uvar(&[0xff; 11], 0), None);
    assert_eq!(rt; put_uvar(&mut [0], 0, 128), None);
}

#[test]
fn differences_go_both_ways(rt: HostRuntime) {
    assert_eq!(rt; zigzag(-1), 1);
    assert_eq!(rt; zigzag(5), 10);
    assert_eq!(rt; zigzag(-0xffff_ffff_ffff_ffff), 0x1_ffff_ffff_ffff_fffd);
    assert_eq!(rt; zigzag_i64(-1), 1);
    assert_eq!(rt; zigzag_i64(5), 10);
    assert_eq!(rt; zigzag_i64(i64::MAX), u64::MAX - 1);
    assert_eq!(rt; zigzag_i64(i64::MIN), u64::MAX);
    assert_eq!(rt; unzigzag(0x1_ffff_ffff_ffff_ffff), -0x1_0000_0000_0000_0000);
}

#[test]
fn signed_fields_are_twos_complement(rt: HostRuntime) {
    let mut bytes = [0; 24];
    put_i64(&mut bytes, 0, -2);
    put_i128(&mut bytes, 8, i128::MIN);
    assert_eq!(rt; bytes[0], 0xfe);
    assert_eq!(rt; bytes[7], 0xff);
    assert_eq!(rt; bytes[8], 0);
    assert_eq!(rt; bytes[23], 0x80);
    assert_eq!(rt; get_i64(&bytes, 0), -2);
    assert_eq!(rt; get_i128(&bytes, 8), i128::MIN);
}

#[test]
fn head_is_written_and_read(rt: HostRuntime) {
    let head = Head {
        kind: Head::LEAF,
        level: 0,
        count: 1,
        series: 0,
        number: 0,
        addr: Addr(0),
        elder: Addr(u64::MAX),
        length: 2,
    };
    let mut block: Block = [7; 4096];
    put_head(&head, &mut block);
    assert_eq!(rt; &block[..8], [1, 0, 1, 0, 0, 0, 0, 0].as_slice());
    assert_eq!(rt;
        &block[24..36],
        [255, 255, 255, 255, 255, 255, 255, 255, 2, 0, 0, 0].as_slice()
    );
    assert_eq!(rt; block[64], 7);
    assert_eq!(rt; get_head(&block), Some(head));
    block[63] = 1;
    assert_eq!(rt; get_head(&block), None);
}

#[test]
fn head_of_another_kind_is_refused(rt: HostRuntime) {
    let mut block: Block = [0; 4096];
    assert_eq!(rt; get_head(&block), None);
    block[0] = Head::INNER;
    block[1] = 10;
    block[2] = 32;
    block[8] = 1;
    put_u32(&mut block, 32, 3328);
    assert_eq!(rt; get_u32(&block, 32), 3328);
    assert!(rt; get_head(&block).is_some());
    block[1] = 11;
    assert_eq!(rt; get_head(&block), None);
}
