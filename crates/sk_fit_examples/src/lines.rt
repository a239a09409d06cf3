ghost use Rattle.std.specs.Prelude.{pos, neg_ℤ, ◌*ℤ◌, ◌≤ℤ◌, ◌≤◌, ◌*◌, ◌^◌, IsTrue, All};
ghost use Rattle.sk_fit.specs.Given.{CanMeet, IsUsableBand, band_view};

use crate::kernels::{Asked, DEFAULTS, NINE_DECIMALS, ONE_PARTITION, observations, pool, settings};
use sk_clock::Clock;
use sk_decimal::Fixed;
use sk_fit::{Band, Bounds, Line, Settings, bounds, meets, run_rates};
use sk_obs::Observation;
use std::process::Abort;
use std::test::Fail;

/// From 0.999 to 1.001 s a count, in nine decimals.
const BAND: Band = Band {
    least: 999_000_000,
    greatest: 1_001_000_000,
};

/// The anchor that the kernel `0 0 1` leaves at its seam.
const SEAM: Line = Line {
    ticks: 1,
    time: Fixed {
        units: 3_906_250_000_000_000,
    },
};

const HELD: Line = Line {
    ticks: 128_000,
    time: Fixed {
        units: 500_000_000_000_000_000_000,
    },
};

const ROUNDED_UP: Line = Line {
    ticks: 512_000,
    time: Fixed {
        units: 2_000_003_999_992_188_000_000,
    },
};

const A: &str = "a,tick:256000,tdt:1000.002,0\n";

const B: &str = "b,tick:512000,tdt:2000.004,0\n";

const C: &str = "c,tick:768000,tdt:3000.010,0\n";

const LATE: &str = "b,tick:512000,tdt:2000.0025,0\n";

/// The line is small, and the observation is not before its anchor.
fn can_meet(clock: &Clock, line: Line, obs: &Observation) -> bool
    ensures { IsTrue result → CanMeet clock.now line obs.now }
{
    let Some(start) = line.time.units.checked_mul(clock.ticks_per() as i128) else {
        return false;
    };
    line.ticks <= obs.tick
        && obs.tick <= clock.total()
        && -60_000_000_000_000_000_000_000_000_000_000_000_000 <= start
        && start <= 60_000_000_000_000_000_000_000_000_000_000_000_000
}

/// The band is one of nine decimals.
fn is_usable(settings: &Settings, band: Band) -> bool
    ensures { IsTrue result → IsUsableBand settings.now.rate_decimals (band_view band) }
{
    settings.rate_decimals == 9
        && 1 <= band.least
        && band.least <= band.greatest
        && band.greatest <= 1_000_000_000_000
}

/// The bounds that a record sets in the band to the rates of a line.
fn bounds_of(rt: &(impl Abort + AllocGlobal), line: Line, record: &str) -> Result<Bounds, Fail> {
    let alloc = rt.alloc();
    let pool = pool(rt, ONE_PARTITION, "0 0 1")?;
    let clock = Clock::of(alloc, &pool, 99)?;
    let list = observations(alloc, &clock, record)?;
    let settings = settings(rt, NINE_DECIMALS);
    let obs = list.as_slice().first().ok_or("no record")?;
    assert!(rt; can_meet(&clock, line, obs));
    assert!(rt; is_usable(&settings, BAND));
    Ok(bounds(&clock, &settings, BAND, line, obs))
}

#[test]
fn bounds_of_one_observation(rt: HostRuntime) -> Result<(), Fail> {
    let table = [
        (SEAM, A, 1_000_001_001, 1_000_003_000),
        (SEAM, B, 1_000_001_501, 1_000_002_500),
        (SEAM, C, 1_000_003_001, 1_000_003_666),
        (HELD, A, 1_000_002_000, 1_000_006_000),
        (HELD, B, 1_000_002_000, 1_000_003_333),
        (ROUNDED_UP, C, 1_000_005_001, 1_000_007_000),
        (
            SEAM,
            "a,tick:256000,tdt:1100,0\n",
            1_001_000_001,
            1_001_000_000,
        ),
        (SEAM, "a,tick:256000,tdt:900,0\n", 999_000_000, 998_999_999),
        (
            HELD,
            "a,tick:128000,tdt:500.001,0\n",
            999_000_000,
            1_001_000_000,
        ),
        (
            HELD,
            "a,tick:128000,tdt:500.001000000001,0\n",
            1_001_000_001,
            1_001_000_000,
        ),
        (
            HELD,
            "a,tick:128000,tdt:499.998999999999,0\n",
            999_000_000,
            998_999_999,
        ),
    ];
    for (line, record, least, greatest) in table {
        let got = bounds_of(&rt, line, record)?;
        assert_eq!(rt; (got.least, got.greatest), (least, greatest), "at {record}");
    }
    Ok(())
}

fn is_met(
    rt: &(impl Abort + AllocGlobal),
    line: Line,
    rate: Fixed<18>,
    record: &str,
) -> Result<bool, Fail> {
    let alloc = rt.alloc();
    let pool = pool(rt, ONE_PARTITION, "0 0 1")?;
    let clock = Clock::of(alloc, &pool, 99)?;
    let list = observations(alloc, &clock, record)?;
    let settings = settings(rt, DEFAULTS);
    let obs = list.as_slice().first().ok_or("no record")?;
    assert!(rt; can_meet(&clock, line, obs));
    assert!(rt; 0 < rate.units);
    assert!(rt; rate.units <= 1_000_000_000_000_000_000_000);
    Ok(meets(&clock, &settings, line, rate, obs))
}

#[test]
fn both_ends_of_the_tolerance_count(rt: HostRuntime) -> Result<(), Fail> {
    let table = [
        (HELD, 1_000_002_000_000_000_000, A, true),
        (HELD, 1_000_001_999_999_999_999, A, false),
        (HELD, 1_000_006_000_000_000_000, A, true),
        (HELD, 1_000_006_000_000_000_001, A, false),
        (SEAM, 1_000_002_000_000_000_000, B, true),
        (SEAM, 1_000_002_000_000_000_000, C, false),
        (HELD, 1, "a,tick:128000,tdt:500.001,0\n", true),
        (HELD, 1, "a,tick:128000,tdt:500.001000000001,0\n", false),
    ];
    for (line, units, record, want) in table {
        let got = is_met(&rt, line, Fixed { units }, record)?;
        assert_eq!(rt; got, want, "at {units} with {record}");
    }
    Ok(())
}

fn all_can_meet(clock: &Clock, line: Line, observations: &[Observation]) -> bool
    ensures { IsTrue result → All (CanMeet clock.now line) observations.now }
{
    for obs in observations {
        if !can_meet(clock, line, obs) {
            return false;
        }
    }
    true
}

/// The least and the greatest rate that meets all the records.
fn rates_of(
    rt: &(impl Abort + AllocGlobal),
    line: Line,
    records: &[&str],
) -> Result<Option<(i128, i128)>, Fail> {
    let alloc = rt.alloc();
    let pool = pool(rt, ONE_PARTITION, "0 0 1")?;
    let clock = Clock::of(alloc, &pool, 99)?;
    let mut text = String::new(alloc);
    for record in records {
        text.push_str(record)?;
    }
    let list = observations(alloc, &clock, text.as_str())?;
    let settings = settings(rt, NINE_DECIMALS);
    let rows = list.as_slice();
    assert!(rt; all_can_meet(&clock, line, rows));
    assert!(rt; is_usable(&settings, BAND));
    match run_rates(&clock, &settings, BAND, line, rows) {
        Some(rates) => Ok(Some((rates.least, rates.greatest))),
        None => Ok(None),
    }
}

#[test]
fn rates_of_runs(rt: HostRuntime) -> Result<(), Fail> {
    let table: [(Line, &[&str], Option<(i128, i128)>); 6] = [
        (SEAM, &[A, B], Some((1_000_001_501, 1_000_002_500))),
        (SEAM, &[A, B, C], None),
        (SEAM, &[A, LATE], Some((1_000_001_001, 1_000_001_750))),
        (HELD, &[A, B], Some((1_000_002_000, 1_000_003_333))),
        (SEAM, &[], Some((999_000_000, 1_001_000_000))),
        (SEAM, &["a,tick:256000,tdt:1100,0\n"], None),
    ];
    for (line, records, want) in table {
        assert_eq!(rt; rates_of(&rt, line, records)?, want);
    }
    Ok(())
}

#[test]
fn bands_of_old_rates(rt: HostRuntime) {
    let table = [
        (
            1_000_000_000_000_000_000,
            9,
            1000,
            Some((999_000_000, 1_001_000_000)),
        ),
        (1_000_000_000_000_000_000, 1, 100_000, Some((9, 11))),
        (1_000_002_000_000_000_000, 1, 1, None),
        (
            1_000_000_000_000_000_000_000,
            1,
            100_000,
            Some((9000, 10_000)),
        ),
        (1_500, 15, 100_000, None),
        (1, 15, 1, None),
        (1_999, 15, 1000, Some((2, 2))),
        (333_333_333_333_333_333, 3, 1, None),
        (333_333_333_333_333_333, 3, 1000, Some((333, 333))),
    ];
    for (units, rate_decimals, band_ppm, want) in table {
        assert!(rt; 0 < units);
        assert!(rt; units <= 1_000_000_000_000_000_000_000);
        let asked = Asked {
            rate_decimals,
            band_ppm,
            ..DEFAULTS
        };
        let got = match settings(&rt, asked).band_of(Fixed { units }) {
            Some(band) => Some((band.least, band.greatest)),
            None => None,
        };
        assert_eq!(rt; got, want, "at {units}");
    }
}
