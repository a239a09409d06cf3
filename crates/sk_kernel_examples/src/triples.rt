//! Triples of kernels, and times by them.

ghost use Rattle.std.specs.Prelude.{◌^◌, ◌<◌, length, IsTrue};

use crate::documents::pool_of;
use sk_clock::Clock;
use sk_decimal::Fixed;
use sk_triples::{Fall, Triples, TriplesFault};
use std::alloc::Global;
use std::process::Abort;
use std::test::Fail;

// 256 ticks a count, in one partition and in two.
const PLAIN: &str = "\\begindata
SCLK_DATA_TYPE_99 = 1
SCLK01_TIME_SYSTEM_99 = 2
SCLK01_N_FIELDS_99 = 2
SCLK01_MODULI_99 = ( 4294967296 256 )
SCLK01_OFFSETS_99 = ( 0 0 )
SCLK01_OUTPUT_DELIM_99 = 2
SCLK_PARTITION_START_99 = 0
SCLK_PARTITION_END_99 = 1099511627775
";

const PARTED: &str = "\\begindata
SCLK_DATA_TYPE_99 = 1
SCLK01_TIME_SYSTEM_99 = 2
SCLK01_N_FIELDS_99 = 2
SCLK01_MODULI_99 = ( 4294967296 256 )
SCLK01_OFFSETS_99 = ( 0 0 )
SCLK01_OUTPUT_DELIM_99 = 2
SCLK_PARTITION_START_99 = ( 0 0 )
SCLK_PARTITION_END_99 = ( 1000000 1099511627775 )
";

// The most ticks a count and the most ticks in all.
const GREATEST: &str = "\\begindata
SCLK_DATA_TYPE_99 = 1
SCLK01_TIME_SYSTEM_99 = 2
SCLK01_N_FIELDS_99 = 2
SCLK01_MODULI_99 = ( 2097152 4294967296 )
SCLK01_OFFSETS_99 = ( 0 0 )
SCLK01_OUTPUT_DELIM_99 = 2
SCLK_PARTITION_START_99 = 0
SCLK_PARTITION_END_99 = 9007199254740991
";

// The triples of a clock's lines and these data.
fn read(
    rt: &(impl Abort + AllocGlobal),
    clock: &str,
    data: &str,
) -> Result<Result<Triples, TriplesFault>, Fail> {
    let text = format!(in rt.alloc(); "{clock}{data}\n")?;
    let pool = pool_of(rt, text.as_bytes())?;
    let clock = Clock::of(rt.alloc(), &pool, 99)?;
    Ok(Triples::of(rt.alloc(), &pool, &clock, 99))
}

fn triples(rt: &(impl Abort + AllocGlobal), clock: &str, data: &str) -> Result<Triples, Fail> {
    Ok(read(rt, clock, data)??)
}

#[test]
fn triples_are_taken_or_refused_for_their_first_fault(rt: HostRuntime) -> Result<(), Fail> {
    let table = [
        ("", "Missing"),
        ("SCLK01_COEFFICIENTS_98 = ( 0 0 1 )", "Missing"),
        ("SCLK01_COEFFICIENTS_99 = 0", "NotTriples"),
        ("SCLK01_COEFFICIENTS_99 = ( 0 0 1 1 )", "NotTriples"),
        ("SCLK01_COEFFICIENTS_99 = ( 0 0 @1 )", "NotTriples"),
        ("SCLK01_COEFFICIENTS_99 = ( @1 0 1 )", "NotTriples"),
        ("SCLK01_COEFFICIENTS_99 = ( '0' '0' '1' )", "NotTriples"),
        ("SCLK01_COEFFICIENTS_99 = ( 0 0 1 )", "taken"),
        ("SCLK01_COEFFICIENTS_99 += ( 0 0 1 )", "taken"),
        // Ticks are whole, from 0 to the total.
        ("SCLK01_COEFFICIENTS_99 = ( 1099511627775 0 1 )", "taken"),
        (
            "SCLK01_COEFFICIENTS_99 = ( 1099511627776 0 1 )",
            "TickRange(1)",
        ),
        ("SCLK01_COEFFICIENTS_99 = ( -1 0 1 )", "TickRange(1)"),
        ("SCLK01_COEFFICIENTS_99 = ( 0.5 0 1 )", "TickRange(1)"),
        ("SCLK01_COEFFICIENTS_99 = ( 1E38 0 1 )", "TickRange(1)"),
        ("SCLK01_COEFFICIENTS_99 = ( 2.56E2 0 1 )", "taken"),
        // Times of at most 10^10 s in size, with at most 18 decimals.
        ("SCLK01_COEFFICIENTS_99 = ( 0 1E10 1 )", "taken"),
        ("SCLK01_COEFFICIENTS_99 = ( 0 -1E10 1 )", "taken"),
        (
            "SCLK01_COEFFICIENTS_99 = ( 0 10000000000.000000000000000001 1 )",
            "TimeRange(1)",
        ),
        (
            "SCLK01_COEFFICIENTS_99 = ( 0 -10000000000.000000000000000001 1 )",
            "TimeRange(1)",
        ),
        ("SCLK01_COEFFICIENTS_99 = ( 0 1E-18 1 )", "taken"),
        ("SCLK01_COEFFICIENTS_99 = ( 0 1E-19 1 )", "TimeRange(1)"),
        // Rates above 0 and at most 1000 s, with at most 18 decimals.
        ("SCLK01_COEFFICIENTS_99 = ( 0 0 0 )", "RateRange(1)"),
        ("SCLK01_COEFFICIENTS_99 = ( 0 0 -1 )", "RateRange(1)"),
        ("SCLK01_COEFFICIENTS_99 = ( 0 0 1E-18 )", "taken"),
        ("SCLK01_COEFFICIENTS_99 = ( 0 0 1E-19 )", "RateRange(1)"),
        ("SCLK01_COEFFICIENTS_99 = ( 0 0 1000 )", "taken"),
        (
            "SCLK01_COEFFICIENTS_99 = ( 0 0 1000.000000000000000001 )",
            "RateRange(1)",
        ),
        // Ticks and times rise.
        ("SCLK01_COEFFICIENTS_99 = ( 0 0 1 1 1E-18 1 )", "taken"),
        ("SCLK01_COEFFICIENTS_99 = ( 5 0 1 5 1 1 )", "OutOfOrder(2)"),
        (
            "SCLK01_COEFFICIENTS_99 = ( 0 1 1 256 1 1 )",
            "OutOfOrder(2)",
        ),
        (
            "SCLK01_COEFFICIENTS_99 = ( 0 0 1 256 1 1 128 2 1 )",
            "OutOfOrder(3)",
        ),
        // The first bad triple, and its first fault.
        (
            "SCLK01_COEFFICIENTS_99 = ( 0 0 1 0 0 0 -1 0 1 )",
            "RateRange(2)",
        ),
        ("SCLK01_COEFFICIENTS_99 = ( 0.5 2E10 0 )", "TickRange(1)"),
        ("SCLK01_COEFFICIENTS_99 = ( 0 2E10 0 )", "TimeRange(1)"),
        // Dates are calendar times: their form is judged before their size, and both before the rate.
        (
            "SCLK01_COEFFICIENTS_99 = ( 0 @1990-01-01 1 256 1 1 )",
            "taken",
        ),
        (
            "SCLK01_COEFFICIENTS_99 = ( 0 1 1 256 @1-JAN-1990/00:00 1 )",
            "OutOfOrder(2)",
        ),
        ("SCLK01_COEFFICIENTS_99 = ( 0 @x 0 )", "TimeForm(1)"),
        ("SCLK01_COEFFICIENTS_99 = ( 1.5 @x 1 )", "TickRange(1)"),
        (
            "SCLK01_COEFFICIENTS_99 = ( 0 @1600-01-01 0 )",
            "TimeRange(1)",
        ),
        (
            "SCLK01_COEFFICIENTS_99 = ( 0 @2316-326T05:46:40 1 )",
            "taken",
        ),
        (
            "SCLK01_COEFFICIENTS_99 = ( 0 @2000-01-01 0 )",
            "RateRange(1)",
        ),
        (
            "SCLK01_COEFFICIENTS_99 = ( 0 @2000-01-01T12:00 1 256 @x 1 )",
            "TimeForm(2)",
        ),
    ];
    for (data, want) in table {
        let got = match read(&rt, PLAIN, data)? {
            Ok(_) => format!(in rt.alloc(); "taken")?,
            Err(fault) => format!(in rt.alloc(); "{fault:?}")?,
        };
        assert_eq!(rt; got.as_str(), want, "at {data}");
    }
    Ok(())
}

#[test]
fn ticks_have_their_times(rt: HostRuntime) -> Result<(), Fail> {
    // In units of 10^-18 s / 256, by the triple that covers the tick.
    let table = [
        (
            PLAIN,
            "SCLK01_COEFFICIENTS_99 = ( 0 0 1 )",
            256000,
            "Some(0) Ok(256000000000000000000000)",
        ),
        (
            PLAIN,
            "SCLK01_COEFFICIENTS_99 = ( 0 0 1 )",
            256128,
            "Some(0) Ok(256128000000000000000000)",
        ),
        (
            PLAIN,
            "SCLK01_COEFFICIENTS_99 = ( 256 -1 1 )",
            255,
            "None Err(BeforeFirst)",
        ),
        (
            PLAIN,
            "SCLK01_COEFFICIENTS_99 = ( 256 -1 1 )",
            256,
            "Some(0) Ok(-256000000000000000000)",
        ),
        (
            PLAIN,
            "SCLK01_COEFFICIENTS_99 = ( 0 @19-JAN-2006-18:09:05.184000 1 )",
            0,
            "Some(0) Ok(48887333167104000000000000000)",
        ),
        // At a join the later triple covers the tick.
        (
            PLAIN,
            "SCLK01_COEFFICIENTS_99 = ( 0 0 1 256 0.9999995 1 )",
            255,
            "Some(0) Ok(255000000000000000000)",
        ),
        (
            PLAIN,
            "SCLK01_COEFFICIENTS_99 = ( 0 0 1 256 0.9999995 1 )",
            256,
            "Some(1) Ok(255999872000000000000)",
        ),
        (
            PLAIN,
            "SCLK01_COEFFICIENTS_99 = ( 0 0 1 256 0.9999995 1 )",
            1099511627776,
            "Some(1) Err(PastPartitions)",
        ),
        (
            PARTED,
            "SCLK01_COEFFICIENTS_99 = ( 0 0 1 )",
            1000000,
            "Some(0) Ok(1000000000000000000000000)",
        ),
        (
            PARTED,
            "SCLK01_COEFFICIENTS_99 = ( 0 0 1 )",
            1099512627775,
            "Some(0) Ok(1099512627775000000000000000000)",
        ),
        (
            PARTED,
            "SCLK01_COEFFICIENTS_99 = ( 0 0 1 )",
            1099512627776,
            "Some(0) Err(PastPartitions)",
        ),
    ];
    for (clock, data, tick, want) in table {
        let triples = triples(&rt, clock, data)?;
        let place = triples.covering(tick);
        let got = match triples.time_at(tick) {
            Ok(time) => {
                assert_eq!(rt; time.den, 256);
                format!(in rt.alloc(); "{place:?} Ok({})", time.num)?
            }
            Err(fault) => format!(in rt.alloc(); "{place:?} Err({fault:?})")?,
        };
        assert_eq!(rt; got.as_str(), want, "at {tick} by {data}");
    }
    Ok(())
}

#[test]
fn limits_of_ticks_times_and_rates_fit(rt: HostRuntime) -> Result<(), Fail> {
    // (10^28 x 2^32 + 10^21 x (2^53 - 1)) and (-10^28 x 2^32 + 10^21 x (2^53 - 1)), over 2^32.
    let table = [
        (
            "SCLK01_COEFFICIENTS_99 = ( 0 1E10 1000 )",
            51956872214740991000000000000000000000,
        ),
        (
            "SCLK01_COEFFICIENTS_99 = ( 0 -1E10 1000 )",
            -33942473705259009000000000000000000000,
        ),
    ];
    for (data, num) in table {
        let time = triples(&rt, GREATEST, data)?.time_at(9007199254740991)?;
        assert_eq!(rt; time.num, num, "by {data}");
        assert_eq!(rt; time.den, 4294967296);
    }
    Ok(())
}

// A join that falls, and by how many units of 10^-18 s over the ticks per count.
fn told(alloc: Global, fall: Option<Fall>) -> Result<String, Fail> {
    match fall {
        None => Ok(format!(in alloc; "none")?),
        Some(fall) => {
            let amount = fall.amount;
            Ok(format!(in alloc; "{} {}/{}", fall.join, amount.num, amount.den)?)
        }
    }
}

fn first_fall(
    rt: &(impl Abort + AllocGlobal),
    clock: &str,
    data: &str,
    slip: u32,
) -> Result<String, Fail> {
    let triples = triples(rt, clock, data)?;
    told(
        rt.alloc(),
        triples.first_fall_over(Fixed {
            units: i128::from(slip),
        }),
    )
}

#[test]
fn the_first_join_that_falls_is_named(rt: HostRuntime) -> Result<(), Fail> {
    let falls = "SCLK01_COEFFICIENTS_99 = ( 0 0 1 256 0.9999995 1 )";
    let second = "SCLK01_COEFFICIENTS_99 = ( 0 0 1 256 1 2 512 2.5 1 768 3.25 1 )";
    let table = [
        (falls, 0, "1 128000000000000/256"),
        (falls, 499, "1 128000000000000/256"),
        (falls, 500, "none"),
        (falls, 501, "none"),
        ("SCLK01_COEFFICIENTS_99 = ( 0 0 1 256 1 1 )", 0, "none"),
        ("SCLK01_COEFFICIENTS_99 = ( 0 0 1 256 2 1 )", 0, "none"),
        ("SCLK01_COEFFICIENTS_99 = ( 0 0 1 )", 0, "none"),
        // Half a second at the second join, and a quarter at the third.
        (second, 0, "2 128000000000000000000/256"),
        (second, 250_000_000, "2 128000000000000000000/256"),
        (second, 500_000_000, "none"),
    ];
    for (data, slip, want) in table {
        let got = first_fall(&rt, PLAIN, data, slip)?;
        assert_eq!(rt; got.as_str(), want, "over {slip} ns by {data}");
    }
    Ok(())
}

// So many triples, each of one count of 2^32 ticks and 1000 s.
fn long_data(alloc: Global, count: u64) -> Result<String, Fail> {
    let mut data = format!(in alloc; "SCLK01_COEFFICIENTS_99 = (\n")?;
    for k in 0..count {
        let row = format!(in alloc; "{} {} 1000\n", k.saturating_mul(4294967296), k)?;
        data.push_str(row.as_str())?;
    }
    data.push_str(")")?;
    Ok(data)
}

#[test]
fn fifty_thousand_triples_are_taken(rt: HostRuntime) -> Result<(), Fail> {
    let alloc = rt.alloc();
    let data = long_data(alloc, 50_000)?;
    let triples = triples(&rt, GREATEST, data.as_str())?;
    assert_eq!(rt; triples.list().len(), 50_000);
    // The last triple covers tick 49,999 x 2^32, and the line of one before it is 999 s later.
    assert!(rt; triples.covering(214744069832704) == Some(49_999));
    assert!(rt; triples.covering(214744069832703) == Some(49_998));
    let fall = told(alloc, triples.first_fall_over(Fixed { units: 0 }))?;
    assert_eq!(rt;
        fall.as_str(),
        "1 4290672328704000000000000000000/4294967296"
    );
    let longer = long_data(alloc, 50_001)?;
    assert!(rt; read(&rt, GREATEST, longer.as_str())?.err() == Some(TriplesFault::TooMany));
    // The number of triples is judged before any of them.
    let bad = format!(in alloc; "SCLK01_COEFFICIENTS_99 = ( -1 0 1 )\n{}", longer.as_str())?;
    let bad = bad.as_str().replace(alloc, "99 = (\n", "99 += (\n")?;
    assert!(rt; read(&rt, GREATEST, bad.as_str())?.err() == Some(TriplesFault::TooMany));
    Ok(())
}

#[test]
fn triples_are_extended(rt: HostRuntime) -> Result<(), Fail> {
    let triples = triples(&rt, PLAIN, "SCLK01_COEFFICIENTS_99 = ( 0 0 1 )")?;
    let same = triples.extended(rt.alloc(), &[])?;
    assert_eq!(rt; same.list().len(), 1);
    Ok(())
}
