ghost use Rattle.std.specs.Prelude.{◌<◌, ◌≤◌};

use crate::{AnyCuc, Cuc, CucEpoch, CucFault};
use sk_decimal::Fixed;
use sk_octets::WrongLength;
use std::process::Abort;
use std::test::Fail;

// The two numbers of the field, where writing them gives its bytes.
fn written_back<const B: usize, const F: usize>(bytes: &[u8]) -> Option<(u64, u64)>
    requires basic_in { (1 ≤ B) × (B ≤ 7) }
    requires fraction_in { F ≤ 6 }
{
    let field = Cuc::<B, F>::decode(bytes)?;
    let mut buf = [0u8; 13];
    field.encode_into(&mut buf[..B + F]).ok()?;
    if &buf[..B + F] == bytes {
        Some((field.coarse, field.fine))
    } else {
        None
    }
}

#[test]
fn fields_of_each_width(rt: HostRuntime) {
    let bytes = *b"\x01\x02\x03\x04\x05\x06\x07\x08\x09\x0a\x0b\x0c\x0d";
    assert_eq!(rt; written_back::<1, 0>(&bytes[..1]), Some((0x01, 0)));
    assert_eq!(rt;
        written_back::<2, 6>(&bytes[..8]),
        Some((0x0102, 0x0304_0506_0708))
    );
    assert_eq!(rt; written_back::<3, 1>(&bytes[..4]), Some((0x01_0203, 0x04)));
    assert_eq!(rt;
        written_back::<4, 2>(&bytes[..6]),
        Some((0x0102_0304, 0x0506))
    );
    assert_eq!(rt;
        written_back::<5, 4>(&bytes[..9]),
        Some((0x01_0203_0405, 0x0607_0809))
    );
    assert_eq!(rt;
        written_back::<6, 3>(&bytes[..9]),
        Some((0x0102_0304_0506, 0x07_0809))
    );
    assert_eq!(rt;
        written_back::<7, 5>(&bytes[..12]),
        Some((0x01_0203_0405_0607, 0x08_090a_0b0c))
    );
    assert_eq!(rt;
        written_back::<7, 6>(&bytes[..13]),
        Some((0x01_0203_0405_0607, 0x0809_0a0b_0c0d))
    );
    assert_eq!(rt; written_back::<4, 2>(&bytes[..5]), None);
    assert_eq!(rt; written_back::<4, 2>(&bytes[..7]), None);
}

#[test]
fn codes_are_read_and_written(rt: HostRuntime) -> Result<(), Fail> {
    let table = [
        (
            b"\x1e\x4f\x00\x4a\xc0\x00\x01".as_slice(),
            (4, 2),
            (0x4f004ac0, 0x1),
            None,
            Some(Fixed {
                units: 32184015258789,
            }),
        ),
        (
            b"\x9e\x28\x00\x4f\x00\x4a\xc0\x00\x01\x00\x00".as_slice(),
            (5, 4),
            (0x4f004ac0, 0x10000),
            Some(0x28),
            Some(Fixed {
                units: 32184015258789,
            }),
        ),
        (
            b"\x9e\x03\x4f\x00\x4a\xc0\x00\x01".as_slice(),
            (4, 2),
            (0x4f004ac0, 0x1),
            Some(0x3),
            Some(Fixed {
                units: 32184015258789,
            }),
        ),
        (
            b"\x9e\x00\x4f\x00\x4a\xc0\x00\x01".as_slice(),
            (4, 2),
            (0x4f004ac0, 0x1),
            Some(0x0),
            Some(Fixed {
                units: 32184015258789,
            }),
        ),
        (
            b"\x1e\x00\x00\x00\x00\x00\x00".as_slice(),
            (4, 2),
            (0x0, 0x0),
            None,
            Some(Fixed {
                units: -1325419167816000000000,
            }),
        ),
        (
            b"\x1e\x00\x00\x00\x00\x00\x01".as_slice(),
            (4, 2),
            (0x0, 0x1),
            None,
            Some(Fixed {
                units: -1325419167815984741211,
            }),
        ),
        (
            b"\x9f\x6c\xff\xff\xff\xff\xff\xff\xff\xff\xff\xff\xff\xff\xff".as_slice(),
            (7, 6),
            (0xffffffffffffff, 0xffffffffffff),
            Some(0x6c),
            Some(Fixed {
                units: 72057592712508768183999999999,
            }),
        ),
        (
            b"\x10\x07".as_slice(),
            (1, 0),
            (0x7, 0x0),
            None,
            Some(Fixed {
                units: -1325419160816000000000,
            }),
        ),
        (
            b"\x14\x01\x02".as_slice(),
            (2, 0),
            (0x102, 0x0),
            None,
            Some(Fixed {
                units: -1325418909816000000000,
            }),
        ),
        (
            b"\x1b\x01\x02\x03\x04\x05\x06".as_slice(),
            (3, 3),
            (0x10203, 0x40506),
            None,
            Some(Fixed {
                units: -1325353116800298348427,
            }),
        ),
        (
            b"\x2d\x00\x02\xa3\x00\x00".as_slice(),
            (4, 1),
            (172800, 0),
            None,
            None,
        ),
    ];
    for (bytes, widths, numbers, second, time) in table {
        let code = AnyCuc::read(bytes)?;
        assert_eq!(rt; (code.basic(), code.fraction()), widths);
        assert_eq!(rt; (code.coarse(), code.fine()), numbers);
        assert_eq!(rt; code.second_octet(), second);
        assert_eq!(rt; code.to_tdt(), time);
        assert!(rt; (code.epoch() == CucEpoch::Tai) == time.is_some());
        let mut buf = [0xaau8; 16];
        let end = code.write_into(&mut buf).ok().ok_or("refused")?;
        assert_eq!(rt; end, bytes.len());
        assert!(rt; end <= 15);
        assert_eq!(rt; &buf[..end], bytes);
        assert_eq!(rt; buf[end], 0xaa);
        let mut short = [0xaau8; 15];
        assert_eq!(rt; code.write_into(&mut short[..end - 1]), Err(WrongLength));
        assert_eq!(rt; short, [0xaa; 15]);
    }
    Ok(())
}

#[test]
fn bytes_are_refused_in_order(rt: HostRuntime) {
    let table = [
        (b"".as_slice(), CucFault::Empty),
        (b"\x4e\x00\x00\x00\x00\x00\x00".as_slice(), CucFault::NotCuc),
        (b"\xce\x80".as_slice(), CucFault::NotCuc),
        (b"\x9e\x94".as_slice(), CucFault::ThirdOctet),
        (b"\x9e\x80".as_slice(), CucFault::ThirdOctet),
        (b"\x9e\x14".as_slice(), CucFault::FractionWidth),
        (b"\x9e".as_slice(), CucFault::Length),
        (b"\x9e\x00".as_slice(), CucFault::Length),
        (b"\x1e\x00\x00\x00\x00\x00".as_slice(), CucFault::Length),
        (b"\x1e\x00\x00".as_slice(), CucFault::Length),
        (b"\x9e\x00\x00\x00\x00\x00\x00".as_slice(), CucFault::Length),
        (
            b"\x1e\x00\x00\x00\x00\x00\x00\x00".as_slice(),
            CucFault::Length,
        ),
    ];
    for (bytes, fault) in table {
        assert_eq!(rt; AnyCuc::read(bytes).err(), Some(fault));
    }
}

// The P-field is taken before a T-field of these widths, and before no shorter or longer one.
fn expect_code(rt: &impl Abort, head: &[u8], epoch: u8, basic: u8, fraction: u8) {
    let start = head.len();
    assert!(rt; 1 <= start && start <= 2);
    assert!(rt; basic <= 7);
    assert!(rt; fraction <= 6);
    let mut bytes = [0x5au8; 16];
    bytes[..start].copy_from_slice(head);
    let end = start + usize::from(basic) + usize::from(fraction);
    let Ok(code) = AnyCuc::read(&bytes[..end]) else {
        assert!(rt; false, "refused {head:?}");
        return;
    };
    assert_eq!(rt; code.basic(), u32::from(basic), "at {head:?}");
    assert_eq!(rt; code.fraction(), u32::from(fraction), "at {head:?}");
    assert_eq!(rt; code.epoch() == CucEpoch::Tai, epoch == 1, "at {head:?}");
    let mut buf = [0u8; 16];
    assert_eq!(rt; code.write_into(&mut buf), Ok(end), "at {head:?}");
    assert_eq!(rt; &buf[..end], &bytes[..end], "at {head:?}");
    assert_eq!(rt;
        AnyCuc::read(&bytes[..end - 1]).err(),
        Some(CucFault::Length),
        "at {head:?}"
    );
    assert_eq!(rt;
        AnyCuc::read(&bytes[..end + 1]).err(),
        Some(CucFault::Length),
        "at {head:?}"
    );
}

fn expect_fault(rt: &impl Abort, head: &[u8], fault: CucFault) {
    assert_eq!(rt; AnyCuc::read(head).err(), Some(fault), "at {head:?}");
}

fn is_epoch(epoch: u8) -> bool {
    epoch == 1 || epoch == 2
}

// Bits 1 to 3 of the octet, bits 4 and 5, and bits 6 and 7.
fn parts_of_first(number: u8) -> (u8, u8, u8)
    ensures epoch { result.0 ≤ 7 }
    ensures basic { result.1 ≤ 3 }
    ensures fraction { result.2 ≤ 3 }
{
    (number / 16 % 8, number / 4 % 4, number % 4)
}

#[test]
fn each_octet_alone(rt: HostRuntime) {
    let mut taken: u32 = 0;
    for number in 0..128u8 {
        let (epoch, basic, fraction) = parts_of_first(number);
        if is_epoch(epoch) {
            expect_code(&rt, &[number], epoch, basic + 1, fraction);
            expect_fault(&rt, &[number + 128], CucFault::Length);
            taken = taken.saturating_add(1);
        } else {
            expect_fault(&rt, &[number], CucFault::NotCuc);
            expect_fault(&rt, &[number + 128], CucFault::NotCuc);
        }
    }
    assert_eq!(rt; taken, 32);
}

// The octet before a second one, whose bit 0, bits 1 and 2, and bits 3 to 5 are these. Whether it is taken.
fn expect_pair(rt: &impl Abort, first: u8, second: u8) -> bool
    requires { first < 128 }
{
    let (epoch, basic, fraction) = parts_of_first(first);
    let head = [first + 128, second];
    let basic = basic + 1 + second / 32 % 4;
    let fraction = fraction + second / 4 % 8;
    if !is_epoch(epoch) {
        expect_fault(rt, &head, CucFault::NotCuc);
        false
    } else if second >= 128 {
        expect_fault(rt, &head, CucFault::ThirdOctet);
        false
    } else if fraction > 6 {
        expect_fault(rt, &head, CucFault::FractionWidth);
        false
    } else {
        expect_code(rt, &head, epoch, basic, fraction);
        true
    }
}

// How many second octets are taken behind the first one.
fn taken_behind(rt: &impl Abort, first: u8) -> u32
    requires { first < 128 }
{
    let mut taken: u32 = 0;
    for second in 0..=255u8 {
        if expect_pair(rt, first, second) {
            taken = taken.saturating_add(1);
        }
    }
    taken
}

#[test]
fn each_pair_of_octets(rt: HostRuntime) {
    let mut taken: u32 = 0;
    for first in 0..128u8 {
        taken = taken.saturating_add(taken_behind(&rt, first));
    }
    // Two epochs, 4 by 4 basic octets, 22 of the 32 sums of fraction octets, and four reserved values.
    assert_eq!(rt; taken, 2 * 16 * 22 * 4);
}
