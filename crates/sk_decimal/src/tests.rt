ghost use Rattle.std.specs.Prelude.{◌≤◌};

use crate::{Decimal, Fixed, NumberFault, ceil_div, floor_div};
use std::alloc::Global;
use std::test::Fail;

// The plain spelling of what the bytes spell, or the fault.
fn answer(alloc: Global, bytes: &[u8]) -> Result<Vec<u8>, Fail> {
    let mut out = Vec::new(alloc);
    match Decimal::read(bytes) {
        Ok(decimal) => decimal.print(&mut out)?,
        Err(NumberFault::NotNumber) => out.extend_from_slice(b"NotNumber")?,
        Err(NumberFault::TooWide) => out.extend_from_slice(b"TooWide")?,
    }
    Ok(out)
}

#[test]
fn reads_numbers(rt: HostRuntime) -> Result<(), Fail> {
    let table = [
        ("0", "0"),
        ("-0.000", "0"),
        ("0E-99", "0"),
        ("+.5", "0.5"),
        ("5.", "5"),
        ("007.250", "7.25"),
        ("-1D2", "-100"),
        ("12e-3", "0.012"),
        ("-.5E+1", "-5"),
        ("1d-38", "0.00000000000000000000000000000000000001"),
        (
            "170141183460469231731687303715884105727",
            "170141183460469231731687303715884105727",
        ),
        (
            "-1.70141183460469231731687303715884105727",
            "-1.70141183460469231731687303715884105727",
        ),
        ("170141183460469231731687303715884105728", "TooWide"),
        ("-170141183460469231731687303715884105728", "TooWide"),
        ("1E38", "100000000000000000000000000000000000000"),
        ("1E39", "TooWide"),
        ("1E-39", "TooWide"),
        ("10E-39", "0.00000000000000000000000000000000000001"),
        ("", "NotNumber"),
        (".", "NotNumber"),
        ("-", "NotNumber"),
        ("+-1", "NotNumber"),
        ("1.2.3", "NotNumber"),
        ("E5", "NotNumber"),
        ("1E", "NotNumber"),
        ("1E+", "NotNumber"),
        ("1E1.5", "NotNumber"),
        ("1F2", "NotNumber"),
        (" 1", "NotNumber"),
        ("1,5", "NotNumber"),
    ];
    for (spelling, want) in table {
        let got = answer(rt.alloc(), spelling.as_bytes())?;
        assert_eq!(rt; got.as_slice(), want.as_bytes(), "at {spelling}");
    }
    Ok(())
}

// So many times the digit, between two pieces.
fn long(alloc: Global, front: &[u8], digit: u8, back: &[u8]) -> Result<Vec<u8>, Fail> {
    let mut out = Vec::from_slice(alloc, front)?;
    for _ in 0..4000 {
        out.push(digit)?;
    }
    out.extend_from_slice(back)?;
    Ok(out)
}

#[test]
fn reads_long_numbers(rt: HostRuntime) -> Result<(), Fail> {
    let table = [
        ("0E", b'9', "", "0"),
        ("0E-", b'9', "", "0"),
        ("1E", b'9', "", "TooWide"),
        ("1E-", b'9', "", "TooWide"),
        ("25E", b'0', "1", "250"),
        ("25E-", b'0', "1", "2.5"),
        ("3", b'0', "E-4000", "3"),
        ("3", b'0', "E-4001", "0.3"),
        (".", b'0', "3E4001", "3"),
        ("0.3", b'0', "", "0.3"),
        ("0.3", b'0', "1", "TooWide"),
        ("1E", b'9', "x", "NotNumber"),
    ];
    for (front, digit, back, want) in table {
        let spelling = long(rt.alloc(), front.as_bytes(), digit, back.as_bytes())?;
        let got = answer(rt.alloc(), &spelling)?;
        assert_eq!(rt; got.as_slice(), want.as_bytes(), "at {front} and {back}");
    }
    Ok(())
}

// The units of the number with so many decimals, or the fault.
fn units<const S: u32>(spelling: &str) -> Result<Option<i128>, NumberFault>
    requires { S ≤ 18 }
{
    let decimal = Decimal::read(spelling.as_bytes())?;
    match decimal.to_fixed::<S>() {
        Some(fixed) => Ok(Some(fixed.units)),
        None => Ok(None),
    }
}

#[test]
fn numbers_have_units(rt: HostRuntime) {
    let whole = [
        ("0", Some(0)),
        ("-7", Some(-7)),
        ("7.0", Some(7)),
        ("7.5", None),
        ("170141183460469231731687303715884105727", Some(i128::MAX)),
        ("-170141183460469231731687303715884105727", Some(-i128::MAX)),
    ];
    for (spelling, want) in whole {
        assert_eq!(rt; units::<0>(spelling), Ok(want), "at {spelling}");
    }
    let tenths = [
        ("-0.5", Some(-5)),
        ("0.05", None),
        ("17014118346046923173168730371588410572.7", Some(i128::MAX)),
        (
            "-17014118346046923173168730371588410572.7",
            Some(-i128::MAX),
        ),
        ("17014118346046923173168730371588410573", None),
        ("-17014118346046923173168730371588410573", None),
    ];
    for (spelling, want) in tenths {
        assert_eq!(rt; units::<1>(spelling), Ok(want), "at {spelling}");
    }
    let smallest = [
        ("1E-18", Some(1)),
        ("1E-19", None),
        ("-1.25", Some(-1_250_000_000_000_000_000)),
        ("170141183460469231731.687303715884105727", Some(i128::MAX)),
        ("170141183460469231732", None),
        ("-170141183460469231732", None),
    ];
    for (spelling, want) in smallest {
        assert_eq!(rt; units::<18>(spelling), Ok(want), "at {spelling}");
    }
}

#[test]
fn decimals_are_counted(rt: HostRuntime) {
    let table = [
        ("0E-38", 0),
        ("-100", 0),
        ("1.250", 2),
        ("1E-38", 38),
        ("10E-38", 37),
    ];
    for (spelling, want) in table {
        match Decimal::read(spelling.as_bytes()) {
            Ok(decimal) => assert_eq!(rt; decimal.scale(), want, "at {spelling}"),
            Err(_) => assert!(rt; false, "at {spelling}"),
        }
    }
}

#[test]
fn fixed_numbers_are_widened(rt: HostRuntime) {
    let table = [
        (0, Some(0)),
        (-5, Some(-50)),
        (
            17014118346046923173168730371588410572,
            Some(170141183460469231731687303715884105720),
        ),
        (
            -17014118346046923173168730371588410572,
            Some(-170141183460469231731687303715884105720),
        ),
        (17014118346046923173168730371588410573, None),
        (-17014118346046923173168730371588410573, None),
        (i128::MIN, None),
    ];
    for (units, want) in table {
        let wide = Fixed::<9> { units }.widen::<10>();
        assert_eq!(rt; wide, want.map(|units| Fixed { units }), "at {units}");
    }
    let least = Fixed::<18> { units: i128::MIN };
    assert_eq!(rt; least.widen::<18>(), Some(least));
    assert_eq!(rt;
        Fixed::<0> { units: -3 }.widen::<18>(),
        Some(Fixed {
            units: -3_000_000_000_000_000_000
        })
    );
}

#[test]
fn fixed_numbers_are_decimals(rt: HostRuntime) -> Result<(), Fail> {
    let table = [
        (0, "0"),
        (-1_250_000_000_000_000_000, "-1.25"),
        (30_000_000_000_000_000_000, "30"),
        (1, "0.000000000000000001"),
        (i128::MAX, "170141183460469231731.687303715884105727"),
        (-i128::MAX, "-170141183460469231731.687303715884105727"),
    ];
    for (units, want) in table {
        assert!(rt; units > i128::MIN);
        let mut out = Vec::new(rt.alloc());
        Fixed::<18> { units }.to_decimal().print(&mut out)?;
        assert_eq!(rt; out.as_slice(), want.as_bytes());
    }
    Ok(())
}

#[test]
fn prints_fixed_numbers(rt: HostRuntime) -> Result<(), Fail> {
    let mut out = Vec::from_slice(rt.alloc(), b"at ")?;
    Fixed::<3> { units: -5 }.print(&mut out)?;
    out.push(b' ')?;
    Fixed::<0> { units: -7 }.print(&mut out)?;
    out.push(b' ')?;
    Fixed::<12> {
        units: 1_000_500_000_000_000,
    }
    .print(&mut out)?;
    out.push(b' ')?;
    Fixed::<18> { units: i128::MIN }.print(&mut out)?;
    assert_eq!(rt;
        out.as_slice(),
        b"at -0.005 -7 1000.500000000000 -170141183460469231731.687303715884105728".as_slice()
    );
    Ok(())
}

#[test]
fn divides_to_whole_numbers(rt: HostRuntime) {
    let table = [
        (7, 2, 3, 4),
        (-7, 2, -4, -3),
        (6, 3, 2, 2),
        (-6, 3, -2, -2),
        (0, 5, 0, 0),
        (1, i128::MAX, 0, 1),
        (-1, i128::MAX, -1, 0),
        (i128::MIN, i128::MAX, -2, -1),
        (i128::MIN, 1, i128::MIN, i128::MIN),
        (i128::MAX, 1, i128::MAX, i128::MAX),
    ];
    for (number, by, floor, ceiling) in table {
        assert!(rt; by > 0);
        assert_eq!(rt; floor_div(number, by), floor, "at {number} and {by}");
        assert_eq!(rt; ceil_div(number, by), ceiling, "at {number} and {by}");
    }
}
