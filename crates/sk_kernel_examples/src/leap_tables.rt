//! Leap tables of kernels, and UTC by them.

ghost use Rattle.std.specs.Prelude.{◌^◌, ◌<◌, ◌↔◌, length, All, IsTrue, IfOk};
ghost use Rattle.sk_grammar.specs.Variables.{IsCounted};

use crate::documents::pool_of;
use sk_decimal::Fixed;
use sk_grammar::{List, Value};
use sk_leap::{LeapFault, LeapTable, Utc, UtcFault, UtcTextFault, print_utc, read_utc};
use sk_pool::Pool;
use std::process::Abort;
use std::test::Fail;

// ---- tables of kernels

fn are_short(lists: &[List<Value>]) -> bool
    ensures { IsTrue result ↔ All (λ values. length values < 1000) lists.now }
{
    lists.iter().all(|values| values.as_slice().len() < 1000)
}

fn has_few_values(pool: &Pool) -> bool
    ensures { IsTrue result → IsCounted pool.now }
{
    are_short(pool.value_lists())
}

// The variables that these lines of data assign.
fn data_pool(rt: &(impl Abort + AllocGlobal), lines: &str) -> Result<Pool, Fail>
    ensures { IfOk result IsCounted }
{
    let text = format!(in rt.alloc(); "\\begindata\n{lines}")?;
    let pool = pool_of(rt, text.as_bytes())?;
    assert!(rt; has_few_values(&pool));
    Ok(pool)
}

fn table_of(
    rt: &(impl Abort + AllocGlobal),
    lines: &str,
) -> Result<Result<LeapTable, LeapFault>, Fail> {
    let pool = data_pool(rt, lines)?;
    Ok(LeapTable::of(rt.alloc(), &pool))
}

// Why these lines of data give no table.
fn expect_fault(rt: &(impl Abort + AllocGlobal), lines: &str, fault: &str) -> Result<(), Fail> {
    let answer = match table_of(rt, lines)? {
        Ok(_) => format!(in rt.alloc(); "taken")?,
        Err(fault) => format!(in rt.alloc(); "{fault:?}")?,
    };
    assert_eq!(rt; answer.as_str(), fault, "at {lines}");
    Ok(())
}

#[test]
fn variables_are_refused_in_order(rt: HostRuntime) -> Result<(), Fail> {
    let pair = "DELTET/DELTA_AT = ( 10 @1972-JAN-1 )";
    let table = [
        ("DELTET/K = 1.657D-3", "Missing(DeltaTA)"),
        ("DELTET/DELTA_AT = 1", "Missing(DeltaTA)"),
        ("DELTET/DELTA_T_A = 1", "Missing(DeltaAT)"),
        ("DELTET/DELTA_T_A = 1\nDELTET/DELTA_AT = 1", "BadDeltaT"),
        ("DELTET/DELTA_T_A = 32.184\nDELTET/DELTA_AT = 1", "BadPairs"),
    ];
    for (lines, fault) in table {
        expect_fault(&rt, lines, fault)?;
    }
    let numbers = [
        ("32.184", "taken"),
        ("3218.400E-2", "taken"),
        ("-32.184", "BadDeltaT"),
        ("32.1840001", "BadDeltaT"),
        ("32184", "BadDeltaT"),
        ("( 32.184 32.184 )", "BadDeltaT"),
        ("'32.184'", "BadDeltaT"),
    ];
    for (number, fault) in numbers {
        let lines = format!(in rt.alloc(); "DELTET/DELTA_T_A = {number}\n{pair}")?;
        expect_fault(&rt, lines.as_str(), fault)?;
    }
    Ok(())
}

#[test]
fn pairs_are_refused_in_order(rt: HostRuntime) -> Result<(), Fail> {
    let table = [
        ("10", "BadPairs"),
        ("@1972-JAN-1", "BadPairs"),
        ("'10'", "BadPairs"),
        ("( @1972-JAN-1 10 )", "BadPairs"),
        ("( 10 @X 11 )", "BadPairs"),
        ("( 10 @X @X )", "BadPairs"),
        ("( -1 @1972-JAN-1 )", "BadPairs"),
        ("( 0 @1972-JAN-1 )", "taken"),
        ("( 10.0 @1972-JAN-1 )", "taken"),
        ("( 10.5 @1972-JAN-1 )", "BadPairs"),
        ("( 1000 @1972-JAN-1 )", "taken"),
        ("( 1001 @1972-JAN-1 )", "BadPairs"),
        ("( 999 @1972-JAN-1 1000 @1972-JAN-2 )", "taken"),
        ("( 1000 @1972-JAN-1 1001 @1972-JAN-2 )", "BadPairs"),
        ("( 10 @X 12 @X )", "DateForm(1)"),
        ("( 10 @1972-JAN-1 12 @X )", "DateForm(2)"),
        ("( 10 @1972-JAN-1 11 @1972-JAN-1 )", "DateOrder(2)"),
        ("( 10 @1972-JAN-1 12 @1971-DEC-31 )", "DateOrder(2)"),
        ("( 10 @1972-JAN-1 12 @1972-JUL-1 )", "LeapStep(2)"),
        ("( 10 @1972-JAN-1 10 @1972-JUL-1 )", "LeapStep(2)"),
        ("( 10 @1972-JAN-1 9 @1972-JUL-1 )", "LeapStep(2)"),
        (
            "( 10 @1972-JAN-1 11 @1972-JUL-1 11 @1973-JAN-1 12 @X )",
            "LeapStep(3)",
        ),
    ];
    for (values, fault) in table {
        let lines = format!(in rt.alloc();
            "DELTET/DELTA_T_A = 32.184\nDELTET/DELTA_AT = {values}"
        )?;
        expect_fault(&rt, lines.as_str(), fault)?;
    }
    Ok(())
}

#[test]
fn dates_of_kernels(rt: HostRuntime) -> Result<(), Fail> {
    let taken = [
        "1972-JAN-1",
        "1972-JAN-01",
        "1972-jan-1",
        "1972-jUl-31",
        "1958-JAN-1",
        "2199-DEC-31",
        "2000-FEB-29",
        "2004-FEB-29",
        "1972-SEP-30",
    ];
    for date in taken {
        let lines = format!(in rt.alloc();
            "DELTET/DELTA_T_A = 32.184\nDELTET/DELTA_AT = ( 10 @{date} )"
        )?;
        expect_fault(&rt, lines.as_str(), "taken")?;
    }
    let refused = [
        "1957-DEC-31",
        "2200-JAN-1",
        "2001-FEB-29",
        "2100-FEB-29",
        "1972-FEB-30",
        "1972-APR-31",
        "1972-JAN-0",
        "1972-JAN-00",
        "1972-JAN-32",
        "1972-JAN-001",
        "1972-JAN-",
        "1972-JAN-1X",
        "1972-JAN-1/00:00",
        "1972-JANUARY-1",
        "1972-JA-1",
        "1972-01-01",
        "1972-FOO-1",
        "72-JAN-1",
        "01972-JAN-1",
        "1972/JAN/1",
        "-1972-JAN-1",
    ];
    for date in refused {
        let lines = format!(in rt.alloc();
            "DELTET/DELTA_T_A = 32.184\nDELTET/DELTA_AT = ( 10 @{date} )"
        )?;
        expect_fault(&rt, lines.as_str(), "DateForm(1)")?;
    }
    Ok(())
}

// ---- leap seconds

// The leap seconds up to 2017.
const LEAP_SECONDS: &str = "DELTET/DELTA_T_A = 32.184
DELTET/DELTA_AT = ( 10, @1972-JAN-1
                    11, @1972-JUL-1
                    12, @1973-JAN-1
                    13, @1974-JAN-1
                    14, @1975-JAN-1
                    15, @1976-JAN-1
                    16, @1977-JAN-1
                    17, @1978-JAN-1
                    18, @1979-JAN-1
                    19, @1980-JAN-1
                    20, @1981-JUL-1
                    21, @1982-JUL-1
                    22, @1983-JUL-1
                    23, @1985-JUL-1
                    24, @1988-JAN-1
                    25, @1990-JAN-1
                    26, @1991-JAN-1
                    27, @1992-JUL-1
                    28, @1993-JUL-1
                    29, @1994-JUL-1
                    30, @1996-JAN-1
                    31, @1997-JUL-1
                    32, @1999-JAN-1
                    33, @2006-JAN-1
                    34, @2009-JAN-1
                    35, @2012-JUL-1
                    36, @2015-JUL-1
                    37, @2017-JAN-1 )";

fn leap_seconds(rt: &(impl Abort + AllocGlobal)) -> Result<LeapTable, Fail> {
    Ok(table_of(rt, LEAP_SECONDS)??)
}

fn utc(rt: &impl Abort, day: i32, sod: u32, sub: u64) -> Utc {
    assert!(rt; sub < 1_000_000_000_000);
    Utc { day, sod, sub }
}

// The UTC has this time, in picoseconds, and the time this UTC.
fn expect_time(rt: &impl Abort, table: &LeapTable, utc: Utc, units: i128) {
    let time = Fixed { units };
    assert_eq!(rt; table.to_tdt(utc), Ok(time), "at {utc:?}");
    assert_eq!(rt; table.to_utc(time), Ok(utc), "at {units}");
}

#[test]
fn each_leap_second(rt: HostRuntime) -> Result<(), Fail> {
    let table = leap_seconds(&rt)?;
    // The day that ends with it, and the whole seconds of its TDT, of which 0.184 s are left.
    let days: [(i32, i64); 27] = [
        (-10046, -867931158),
        (-9862, -852033557),
        (-9497, -820497556),
        (-9132, -788961555),
        (-8767, -757425554),
        (-8401, -725803153),
        (-8036, -694267152),
        (-7671, -662731151),
        (-7306, -631195150),
        (-6759, -583934349),
        (-6394, -552398348),
        (-6029, -520862347),
        (-5298, -457703946),
        (-4384, -378734345),
        (-3653, -315575944),
        (-3288, -284039943),
        (-2741, -236779142),
        (-2376, -205243141),
        (-2011, -173707140),
        (-1462, -126273539),
        (-915, -79012738),
        (-366, -31579137),
        (2191, 189345664),
        (3287, 284040065),
        (4564, 394372866),
        (5659, 488980867),
        (6209, 536500868),
    ];
    for (day, seconds) in days {
        assert!(rt; -20_000 < day && day < 20_000);
        let units = i128::from(seconds) * 1_000_000_000_000 + 184_000_000_000;
        let second = 1_000_000_000_000;
        expect_time(&rt, &table, utc(&rt, day, 86399, 0), units - second);
        expect_time(
            &rt,
            &table,
            utc(&rt, day, 86399, 999_999_999_999),
            units - 1,
        );
        expect_time(&rt, &table, utc(&rt, day, 86400, 0), units);
        expect_time(
            &rt,
            &table,
            utc(&rt, day, 86400, 999_999_999_999),
            units + second - 1,
        );
        expect_time(&rt, &table, utc(&rt, day + 1, 0, 0), units + second);
        for (day, sod) in [(day, 86401), (day - 1, 86400), (day + 1, 86400)] {
            let late = utc(&rt, day, sod, 0);
            assert_eq!(rt; table.to_tdt(late), Err(UtcFault::NotInDay), "at {late:?}");
        }
    }
    Ok(())
}

#[test]
fn both_ends_of_a_table(rt: HostRuntime) -> Result<(), Fail> {
    let table = leap_seconds(&rt)?;
    // 1972-01-01 is the first date, and the day before it is no long one.
    expect_time(&rt, &table, utc(&rt, -10227, 0, 0), -883655957816000000000);
    let early = Fixed {
        units: -883655957816000000001,
    };
    assert_eq!(rt; table.to_utc(early), Err(UtcFault::BeforeTable));
    for sod in [0, 86399, 86400] {
        let eve = utc(&rt, -10228, sod, 0);
        assert_eq!(rt; table.to_tdt(eve), Err(UtcFault::BeforeTable), "at {sod}");
    }
    // 9·10^9 s is the last time.
    let last = utc(&rt, 104167, 14330, 816_000_000_000);
    expect_time(&rt, &table, last, 9_000_000_000_000_000_000_000);
    let late = Fixed {
        units: 9_000_000_000_000_000_000_001,
    };
    assert_eq!(rt; table.to_utc(late), Err(UtcFault::PastRange));
    let none = LeapTable::none();
    assert_eq!(rt; none.to_utc(late), Err(UtcFault::BeforeTable));
    assert_eq!(rt; none.to_utc(early), Err(UtcFault::BeforeTable));
    assert_eq!(rt; none.to_tdt(last), Err(UtcFault::BeforeTable));
    Ok(())
}

#[test]
fn times_of_days(rt: HostRuntime) -> Result<(), Fail> {
    let table = leap_seconds(&rt)?;
    let rows = [
        (0, 44136, 316_000_000_000, 1_000_500_000_000_000),
        (0, 43200, 1, 64_184_000_000_001),
        (2, 43137, 316_200_000_000, 172_801_500_200_000_000),
        (6210, 86399, 0, 536_587_268_184_000_000_000),
    ];
    for (day, sod, sub, units) in rows {
        expect_time(&rt, &table, utc(&rt, day, sod, sub), units);
    }
    Ok(())
}

// ---- texts

#[test]
fn texts_are_read(rt: HostRuntime) {
    let dates = [
        ("2000-01-01", 0),
        ("2000-001", 0),
        ("2000-060", 59),
        ("2000-02-29", 59),
        ("2000-366", 365),
        ("2000-12-31", 365),
        ("2004-366", 1826),
        ("1900-365", -36160),
        ("1900-02-28", -36466),
        ("1900-03-01", -36465),
        ("2100-365", 36889),
        ("1600-02-29", -146038),
        ("0400-366", -584023),
        ("0004-02-29", -728965),
        ("0001-01-01", -730119),
        ("0001-001", -730119),
        ("9996-02-29", 2920538),
        ("9999-365", 2921939),
        ("9999-12-31", 2921939),
    ];
    for (date, day) in dates {
        let Ok(text) = format!(in rt.alloc(); "{date}T00:00:00") else {
            return;
        };
        assert_eq!(rt;
            read_utc(text.as_str()),
            Ok(utc(&rt, day, 0, 0)),
            "at {date}"
        );
    }
    let clocks = [
        ("00:00:01", 1, 0),
        ("01:01:01Z", 3661, 0),
        ("23:59:59", 86399, 0),
        ("23:59:60", 86400, 0),
        ("23:59:60.9Z", 86400, 900_000_000_000),
        ("12:00:00.5", 43200, 500_000_000_000),
        ("12:00:00.000000000001", 43200, 1),
        ("12:00:00.999999999999Z", 43200, 999_999_999_999),
        ("12:00:00.120000000000", 43200, 120_000_000_000),
    ];
    for (clock, sod, sub) in clocks {
        let Ok(text) = format!(in rt.alloc(); "2000-01-01T{clock}") else {
            return;
        };
        assert_eq!(rt;
            read_utc(text.as_str()),
            Ok(utc(&rt, 0, sod, sub)),
            "at {clock}"
        );
    }
}

#[test]
fn texts_are_refused(rt: HostRuntime) {
    let texts = [
        "",
        "1999-02-29T00:00:00",
        "1900-02-29T00:00:00",
        "2100-02-29T00:00:00",
        "1900-366T00:00:00",
        "2001-366T00:00:00",
        "2000-367T00:00:00",
        "2000-000T00:00:00",
        "0000-01-01T00:00:00",
        "0000-366T00:00:00",
        "10000-01-01T00:00:00",
        "200-01-01T00:00:00",
        "2000-00-01T00:00:00",
        "2000-13-01T00:00:00",
        "2000-01-00T00:00:00",
        "2000-01-32T00:00:00",
        "2000-04-31T00:00:00",
        "2000-1-01T00:00:00",
        "2000-01-1T00:00:00",
        "2000-01T00:00:00",
        "2000-01-01T24:00:00",
        "2000-01-01T00:60:00",
        "2000-01-01T00:00:60",
        "2000-01-01T12:00:60",
        "2000-01-01T22:59:60",
        "2000-01-01T23:58:60",
        "2000-01-01T23:59:61",
        "2000-01-01T00:00",
        "2000-01-01T0:00:00",
        "2000-01-01 00:00:00",
        "2000-01-01t00:00:00",
        "2000-01-01T00:00:00.",
        "2000-01-01T00:00:00.Z",
        "2000-01-01T00:00:00.1234567890123",
        "2000-01-01T00:00:00,5",
        "2000-01-01T00:00:00z",
        "2000-01-01T00:00:00ZZ",
        "2000-01-01T00:00:00 Z",
        "2000-01-01T00:00:00+00",
        " 2000-01-01T00:00:00",
        "2000-01-01T00:00:00\u{e9}",
    ];
    for text in texts {
        assert_eq!(rt; read_utc(text), Err(UtcTextFault::NotUtc), "at {text}");
    }
}

#[test]
fn texts_are_printed_and_read(rt: HostRuntime) -> Result<(), Fail> {
    let rows = [
        (-15340, 0, 0, "1958-01-01T00:00:00.000000000000Z"),
        (
            0,
            44136,
            316_000_000_000,
            "2000-01-01T12:15:36.316000000000Z",
        ),
        (59, 86399, 1, "2000-02-29T23:59:59.000000000001Z"),
        (60, 3600, 0, "2000-03-01T01:00:00.000000000000Z"),
        (365, 60, 0, "2000-12-31T00:01:00.000000000000Z"),
        (366, 1, 0, "2001-01-01T00:00:01.000000000000Z"),
        (6209, 86400, 0, "2016-12-31T23:59:60.000000000000Z"),
        (
            104167,
            86400,
            999_999_999_999,
            "2285-03-14T23:59:60.999999999999Z",
        ),
    ];
    for (day, sod, sub, text) in rows {
        assert!(rt; -15340 <= day);
        assert!(rt; day <= 104167);
        assert!(rt; sod <= 86400);
        assert!(rt; sub < 1_000_000_000_000);
        let utc = Utc { day, sod, sub };
        let printed = print_utc(rt.alloc(), utc)?;
        assert_eq!(rt; printed.as_str(), text);
        assert_eq!(rt; read_utc(text), Ok(utc));
    }
    Ok(())
}
