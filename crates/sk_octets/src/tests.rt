use crate::{bits_of, number_of, put_number};

#[test]
fn numbers_are_read(rt: HostRuntime) {
    let table = [
        (b"".as_slice(), 0),
        (b"\x07".as_slice(), 7),
        (b"\x3b\xec".as_slice(), 15340),
        (b"\x02\x93\x2e\x00".as_slice(), 43_200_000),
        (b"\xff\xff\xff\xff\xff\xff\xff\xff".as_slice(), u64::MAX),
    ];
    for (octets, want) in table {
        assert!(rt; octets.len() <= 8);
        assert_eq!(rt; number_of(octets), want);
    }
}

#[test]
fn numbers_are_written(rt: HostRuntime) {
    let mut day = [9u8; 3];
    put_number(&mut day, 15340);
    assert_eq!(rt; day, [0, 0x3b, 0xec]);
    let mut all = [0u8; 8];
    put_number(&mut all, u64::MAX);
    assert_eq!(rt; all, [0xff; 8]);
    put_number(&mut [], 0);
}

#[test]
fn bits_are_counted_from_the_most_significant(rt: HostRuntime) {
    let table = [(0, 0, 1), (1, 3, 1), (4, 5, 3), (6, 7, 2), (0, 7, 0x9e)];
    for (first, last, want) in table {
        assert!(rt; first <= last);
        assert!(rt; last <= 7);
        assert_eq!(rt; bits_of(0x9e, first, last), want, "at {first} to {last}");
    }
}
