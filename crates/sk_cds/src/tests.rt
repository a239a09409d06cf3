ghost use Rattle.std.specs.Prelude.{◌≡◌, ◌⊎◌};

use crate::{AnyCds, Cds, CdsFault};
use sk_octets::WrongLength;
use std::process::Abort;
use std::test::Fail;

// The three numbers of the field, where writing them gives its bytes.
fn written_back<const D: usize, const S: usize>(bytes: &[u8]) -> Result<(u32, u32, u32), CdsFault>
    requires day_in { (D ≡ 2) ⊎ (D ≡ 3) }
    requires sub_in { (S ≡ 0) ⊎ (S ≡ 2) ⊎ (S ≡ 4) }
{
    let field = Cds::<D, S>::decode(bytes)?;
    let mut buf = [0u8; 11];
    let end = D + 4 + S;
    if field.encode_into(&mut buf[..end]).is_ok() && &buf[..end] == bytes {
        Ok((field.day, field.ms, field.sub))
    } else {
        Err(CdsFault::Empty)
    }
}

#[test]
fn fields_of_each_width(rt: HostRuntime) {
    let bytes = *b"\x01\x02\x00\x00\x03\x04\x00\x05\x06\x07\x08";
    assert_eq!(rt; written_back::<2, 0>(&bytes[..6]), Ok((0x0102, 0x0304, 0)));
    assert_eq!(rt; written_back::<2, 2>(&bytes[..8]), Ok((0x0102, 0x0304, 5)));
    assert_eq!(rt;
        written_back::<2, 4>(&bytes[..10]),
        Ok((0x0102, 0x0304, 0x0005_0607))
    );
    assert_eq!(rt;
        written_back::<3, 0>(&bytes[..7]),
        Ok((0x01_0200, 0x0003_0400, 0))
    );
    assert_eq!(rt; written_back::<3, 2>(&bytes[..9]), Err(CdsFault::SubRange));
    assert_eq!(rt;
        written_back::<3, 4>(&bytes[..11]),
        Ok((0x01_0200, 0x0003_0400, 0x0506_0708))
    );
    assert_eq!(rt; written_back::<3, 4>(&bytes[..10]), Err(CdsFault::Length));
}

#[test]
fn codes_are_read_and_written(rt: HostRuntime) -> Result<(), Fail> {
    let table = [
        (
            b"\x41\x3b\xee\x02\x92\x39\x24\x00\xc8".as_slice(),
            15342,
            43137316,
            200000000,
        ),
        (
            b"\x40\x3b\xec\x02\x93\x2e\x00".as_slice(),
            15340,
            43200000,
            0,
        ),
        (
            b"\x40\x54\x2d\x05\x26\x5c\x00".as_slice(),
            21549,
            86400000,
            0,
        ),
        (
            b"\x40\x54\x2c\x05\x26\x5c\x00".as_slice(),
            21548,
            86400000,
            0,
        ),
        (
            b"\x42\x3b\xec\x02\x93\x2e\x00\x00\x00\x00\x01".as_slice(),
            15340,
            43200000,
            1,
        ),
        (
            b"\x44\x01\x02\x03\x02\x93\x2e\x00".as_slice(),
            66051,
            43200000,
            0,
        ),
        (
            b"\x45\xff\xff\xff\x00\x00\x00\x00\x03\xe7".as_slice(),
            16777215,
            0,
            999000000,
        ),
        (
            b"\x46\x00\x00\x00\xff\xff\xff\xff\x3b\x9a\xc9\xff".as_slice(),
            0,
            4294967295,
            999999999,
        ),
    ];
    for (bytes, day, ms, picoseconds) in table {
        let code = AnyCds::read(bytes)?;
        assert_eq!(rt; (code.day(), code.ms()), (day, ms));
        assert_eq!(rt; code.picoseconds(), picoseconds);
        let mut buf = [0xaau8; 13];
        let end = code.write_into(&mut buf).ok().ok_or("refused")?;
        assert_eq!(rt; end, bytes.len());
        assert!(rt; end <= 12);
        assert_eq!(rt; &buf[..end], bytes);
        assert_eq!(rt; buf[end], 0xaa);
        let mut short = [0xaau8; 12];
        assert_eq!(rt; code.write_into(&mut short[..end - 1]), Err(WrongLength));
        assert_eq!(rt; short, [0xaa; 12]);
    }
    Ok(())
}

#[test]
fn bytes_are_refused_in_order(rt: HostRuntime) {
    let table = [
        (b"".as_slice(), CdsFault::Empty),
        (b"\x1e".as_slice(), CdsFault::NotCds),
        (b"\x98".as_slice(), CdsFault::NotCds),
        (b"\xcb".as_slice(), CdsFault::Extension),
        (b"\x4b".as_slice(), CdsFault::AgencyEpoch),
        (b"\x43".as_slice(), CdsFault::Reserved),
        (b"\x40".as_slice(), CdsFault::Length),
        (b"\x40\x3b\xec\x02\x93\x2e".as_slice(), CdsFault::Length),
        (
            b"\x40\x3b\xec\x02\x93\x2e\x00\x00".as_slice(),
            CdsFault::Length,
        ),
        (
            b"\x41\x3b\xec\x02\x93\x2e\x00\x03\xe8".as_slice(),
            CdsFault::SubRange,
        ),
        (
            b"\x42\x3b\xec\x02\x93\x2e\x00\x3b\x9a\xca\x00".as_slice(),
            CdsFault::SubRange,
        ),
    ];
    for (bytes, fault) in table {
        assert_eq!(rt; AnyCds::read(bytes).err(), Some(fault));
    }
}

// The P-field is taken before a T-field of this length, and before no shorter or longer one.
fn expect_code(rt: &impl Abort, octet: u8, length: usize) {
    assert!(rt; 1 <= length && length <= 11);
    let mut bytes = [1u8; 13];
    bytes[0] = octet;
    let end = 1 + length;
    let Ok(code) = AnyCds::read(&bytes[..end]) else {
        assert!(rt; false, "refused {octet}");
        return;
    };
    let mut buf = [0u8; 12];
    assert_eq!(rt; code.write_into(&mut buf), Ok(end), "at {octet}");
    assert_eq!(rt; &buf[..end], &bytes[..end], "at {octet}");
    assert_eq!(rt;
        AnyCds::read(&bytes[..end - 1]).err(),
        Some(CdsFault::Length),
        "at {octet}"
    );
    assert_eq!(rt;
        AnyCds::read(&bytes[..end + 1]).err(),
        Some(CdsFault::Length),
        "at {octet}"
    );
}

// The fault of an octet with this bit 0, these bits 1 to 3, this bit 4 and these bits 6 and 7.
fn fault_of(extension: u8, kind: u8, epoch: u8, width: u8) -> Option<CdsFault> {
    if kind != 4 {
        Some(CdsFault::NotCds)
    } else if extension == 1 {
        Some(CdsFault::Extension)
    } else if epoch == 1 {
        Some(CdsFault::AgencyEpoch)
    } else if width == 3 {
        Some(CdsFault::Reserved)
    } else {
        None
    }
}

#[test]
fn each_octet(rt: HostRuntime) {
    let mut taken: u32 = 0;
    for octet in 0..=255u8 {
        let width = octet % 4;
        let day = octet / 4 % 2;
        match fault_of(octet / 128, octet / 16 % 8, octet / 8 % 2, width) {
            Some(fault) => assert_eq!(rt; AnyCds::read(&[octet]).err(), Some(fault), "at {octet}"),
            None => {
                expect_code(&rt, octet, usize::from(2 + day + 4 + 2 * width));
                taken = taken.saturating_add(1);
            }
        }
    }
    assert_eq!(rt; taken, 6);
}
