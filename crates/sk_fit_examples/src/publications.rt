use crate::kernels::{
    Asked, DEFAULTS, NINE_DECIMALS, ONE_PARTITION, THREE_TICKS, TWO_OF_QUARTERS, TWO_PARTITIONS,
    observations, pool, settings,
};
use sk_clock::Clock;
use sk_fit::{Chain, FitFault, fit};
use sk_triples::Triples;
use std::alloc::Global;
use std::process::Abort;
use std::test::Fail;

/// What the fit of these records answers.
fn answer(
    rt: &(impl Abort + AllocGlobal),
    partitions: &str,
    coefficients: &str,
    asked: Asked,
    records: &str,
) -> Result<String, Fail> {
    let alloc = rt.alloc();
    let pool = pool(rt, partitions, coefficients)?;
    let clock = Clock::of(alloc, &pool, 99)?;
    let triples = Triples::of(alloc, &pool, &clock, 99)?;
    let list = observations(alloc, &clock, records)?;
    let settings = settings(rt, asked);
    shown(
        alloc,
        fit(alloc, &triples, &clock, list.as_slice(), &settings),
    )
}

/// A fault, or the number of old observations, the dropped places, and each segment's anchor, rate, places and end.
fn shown(alloc: Global, answer: Result<Chain, FitFault>) -> Result<String, Fail> {
    let chain = match answer {
        Ok(chain) => chain,
        Err(fault) => return Ok(format!(in alloc; "{fault:?}")?),
    };
    let mut text = format!(in alloc; "{}", chain.first_new)?;
    for place in chain.dropped.as_slice() {
        let part = format!(in alloc; " dropped {place}")?;
        text.push_str(part.as_str())?;
    }
    for segment in chain.segments.as_slice() {
        let line = format!(in alloc;
            " | {} {} {}",
            segment.anchor.ticks, segment.anchor.time.units, segment.rate.units
        )?;
        text.push_str(line.as_str())?;
        let run = format!(in alloc; " {}-{} {:?}", segment.first, segment.past, segment.ended)?;
        text.push_str(run.as_str())?;
    }
    Ok(text)
}

#[test]
fn one_partition(rt: HostRuntime) -> Result<(), Fail> {
    let hold = Asked {
        hold: Some(128_000),
        ..NINE_DECIMALS
    };
    let table = [
        (
            NINE_DECIMALS,
            "a,tick:256000,tdt:1000.002,0\nb,tick:512000,tdt:2000.004,0\n",
            "0 | 0 0 1000000000000000000 0-0 Fixed | 1 3906250000000000 1000002000000000000 0-2 Last",
        ),
        (
            NINE_DECIMALS,
            "a,tick:256000,tdt:1000.002,0\nb,tick:512000,tdt:2000.004,0\nc,tick:768000,tdt:3000.010,0\n",
            "0 | 0 0 1000000000000000000 0-0 Fixed | 1 3906250000000000 1000002000000000000 0-2 Blocked { low: 2, high: 1 } | 512000 2000003999992188000000 1000006000000000000 2-3 Last",
        ),
        (
            hold,
            "a,tick:256000,tdt:1000.002,0\nb,tick:512000,tdt:2000.004,0\n",
            "0 | 0 0 1000000000000000000 0-0 Fixed | 128000 500000000000000000000 1000002666000000000 0-2 Last",
        ),
        (
            DEFAULTS,
            "a,tick:256000,tdt:1100,0\n",
            "NoRate(2, OldLine(Fixed { units: 100000000000000 }))",
        ),
        (
            NINE_DECIMALS,
            "o,tick:1,tdt:0,0\na,tick:256000,tdt:1000.002,0\nb,tick:512000,tdt:2000.004,0\n",
            "1 | 0 0 1000000000000000000 1-1 Fixed | 1 3906250000000000 1000002000000000000 1-3 Last",
        ),
        (DEFAULTS, "", "0 | 0 0 1000000000000000000 0-0 Last"),
    ];
    for (asked, records, want) in table {
        let got = answer(&rt, ONE_PARTITION, "0 0 1", asked, records)?;
        assert_eq!(rt; got.as_str(), want, "at {records}");
    }
    Ok(())
}

#[test]
fn more_partitions(rt: HostRuntime) -> Result<(), Fail> {
    let hold = Asked {
        hold: Some(1_000_000),
        ..DEFAULTS
    };
    let table = [
        (
            DEFAULTS,
            "a,2/0:0,tdt:4000,0\n",
            "0 | 0 0 1000000000000000000 0-0 Partition | 1000000 4000000000000000000000 1000000000000000000 0-1 Last",
        ),
        (DEFAULTS, "a,2/0:0,tdt:3900,0\n", "TimeFalls(2)"),
        (hold, "a,2/0:0,tdt:4000,0\n", "BadHold"),
    ];
    for (asked, records, want) in table {
        let got = answer(&rt, TWO_PARTITIONS, "0 0 1", asked, records)?;
        assert_eq!(rt; got.as_str(), want, "at {records}");
    }
    Ok(())
}

#[test]
fn the_line_before_a_later_partition(rt: HostRuntime) -> Result<(), Fail> {
    let fine = Asked {
        rate_decimals: 15,
        ..DEFAULTS
    };
    let table = [
        (
            NINE_DECIMALS,
            "a,tick:3600,tdt:900,0\nb,tick:4000,tdt:1000.5,0\n",
            "0 | 0 0 1000000000000000000 0-1 Partition | 4000 1000500000000000000000 1000000000000000000 1-2 Last",
        ),
        // The line is later than b, by no more than the tolerance.
        (
            NINE_DECIMALS,
            "a,tick:3600,tdt:900,0\nb,tick:4000,tdt:999.9995,0\n",
            "0 | 0 0 1000000000000000000 0-1 Partition | 4000 1000000000000000000000 1000000000000000000 1-2 Last",
        ),
        (
            NINE_DECIMALS,
            "a,tick:3600,tdt:900,0\nb,tick:4000,tdt:999.999,0\n",
            "0 | 0 0 1000000000000000000 0-1 Partition | 4000 1000000000000000000000 1000000000000000000 1-2 Last",
        ),
        (
            NINE_DECIMALS,
            "a,tick:3600,tdt:900,0\nb,tick:4000,tdt:999.998999999999,0\n",
            "TimeFalls(3)",
        ),
        // The line at c is 1000.00444549465942225 s.
        (
            fine,
            "a,tick:1200,tdt:300.002,0\nb,tick:3600,tdt:900.004,0\nc,tick:4000,tdt:1000.0035,0\n",
            "0 | 0 0 1000000000000000000 0-0 Fixed | 1 250000000000000000 1000004446606311000 0-2 Partition | 4000 1000004445494660000000 1000000000000000000 2-3 Last",
        ),
    ];
    for (asked, records, want) in table {
        let got = answer(&rt, TWO_OF_QUARTERS, "0 0 1", asked, records)?;
        assert_eq!(rt; got.as_str(), want, "at {records}");
    }
    Ok(())
}

#[test]
fn old_kernels(rt: HostRuntime) -> Result<(), Fail> {
    let coarse = Asked {
        rate_decimals: 1,
        band_ppm: 1,
        ..DEFAULTS
    };
    let strict = Asked {
        slip_ns: 0,
        ..DEFAULTS
    };
    let table = [
        (
            "0 0 1 1 0.00390625 1.000002",
            NINE_DECIMALS,
            "a,tick:256000,tdt:1000.002,0\nb,tick:512000,tdt:2000.004,0\n",
            "0 | 1 3906250000000000 1000002000000000000 0-2 Last",
        ),
        (
            "0 0 1 1 0.00390625 1.000002",
            coarse,
            "a,tick:256000,tdt:1000.002,0\nb,tick:512000,tdt:2000.004,0\n",
            "BandEmpty",
        ),
        (
            "0 0 1 256 0.9999995 1",
            DEFAULTS,
            "",
            "0 | 256 999999500000000000 1000000000000000000 0-0 Last",
        ),
        (
            "0 0 1 256 0.9999995 1",
            strict,
            "",
            "OldFalls(Fall { join: 1, amount: Ratio { num: 128000000000000, den: 256 } })",
        ),
        (
            "0 0 1 22118400 86400.0001 1.000000001",
            DEFAULTS,
            "d2,tick:44236800,tdt:172800.0002,0\nd3,tick:66355200,tdt:259200.005,0\n",
            "0 | 22118400 86400000100000000000000 1000000001000000000 0-1 Fixed | 44236800 172800000186400000000000 1000000055713000000 1-2 Last",
        ),
    ];
    for (coefficients, asked, records, want) in table {
        let got = answer(&rt, ONE_PARTITION, coefficients, asked, records)?;
        assert_eq!(rt; got.as_str(), want, "at {coefficients} with {records}");
    }
    Ok(())
}

#[test]
fn dropped_observations(rt: HostRuntime) -> Result<(), Fail> {
    let one = Asked {
        reject: 1,
        ..NINE_DECIMALS
    };
    let table = [
        (
            one,
            "a,tick:256000,tdt:1000.002,0\nx,tick:384000,tdt:1600,0\nb,tick:512000,tdt:2000.0035,0\n",
            "0 dropped 1 | 0 0 1000000000000000000 0-0 Fixed | 1 3906250000000000 1000001750000000000 0-3 Last",
        ),
        (
            one,
            "a,tick:256000,tdt:1000.002,0\nx,tick:384000,tdt:1600,0\nb,tick:512000,tdt:2000.004,0\nc,tick:768000,tdt:3000.010,0\n",
            "0 dropped 1 | 0 0 1000000000000000000 0-0 Fixed | 1 3906250000000000 1000002000000000000 0-3 Blocked { low: 3, high: 2 } | 512000 2000003999992188000000 1000006000000000000 3-4 Last",
        ),
        (
            one,
            "a,tick:256000,tdt:1000.002,0\nx,tick:384000,tdt:1600,0\ny,tick:385000,tdt:1700,0\n",
            "NoRate(4, Pair { low: Miss { number: 4, distance: Fixed { units: 196090742195313 } }, high: Miss { number: 2, distance: Fixed { units: 7813 } } })",
        ),
        (
            NINE_DECIMALS,
            "a,tick:256000,tdt:1000.002,0\nx,tick:384000,tdt:1600,0\n",
            "NoRate(3, Pair { low: Miss { number: 3, distance: Fixed { units: 99997000007813 } }, high: Miss { number: 2, distance: Fixed { units: 7813 } } })",
        ),
        // Too early, and so the record is the one at which every rate is too large.
        (
            NINE_DECIMALS,
            "a,tick:256000,tdt:1000.002,0\nx,tick:384000,tdt:1400,0\n",
            "NoRate(3, Pair { low: Miss { number: 2, distance: Fixed { units: 7813 } }, high: Miss { number: 3, distance: Fixed { units: -100002999992187 } } })",
        ),
        // The greatest rates are 1.000003 at a and 1.0000035 at b.
        (
            NINE_DECIMALS,
            "a,tick:256000,tdt:1000.002,0\nb,tick:512000,tdt:2000.006,0\nx,tick:768000,tdt:3100,0\n",
            "NoRate(4, Pair { low: Miss { number: 4, distance: Fixed { units: 99991750010743 } }, high: Miss { number: 2, distance: Fixed { units: -749989257 } } })",
        ),
    ];
    for (asked, records, want) in table {
        let got = answer(&rt, ONE_PARTITION, "0 0 1", asked, records)?;
        assert_eq!(rt; got.as_str(), want, "at {records}");
    }
    Ok(())
}

#[test]
fn one_step_above_the_band(rt: HostRuntime) -> Result<(), Fail> {
    let asked = Asked {
        tol_ns: 1,
        rate_decimals: 1,
        band_ppm: 100_000,
        ..DEFAULTS
    };
    let records = "a,tick:3,tdt:1.066666666667,0\nc,tick:5,tdt:1.800000001001,0\n";
    let got = answer(&rt, THREE_TICKS, "0 0 1", asked, records)?;
    assert_eq!(rt;
        got.as_str(),
        "0 | 0 0 1000000000000000000 0-0 Fixed | 1 333333333334000000 1100000000000000000 0-1 Blocked { low: 1, high: 0 } | 3 1066666666668000000 1100000000000000000 1-2 Last"
    );
    Ok(())
}

#[test]
fn the_triples_of_a_publication(rt: HostRuntime) -> Result<(), Fail> {
    let alloc = rt.alloc();
    let pool = pool(&rt, ONE_PARTITION, "0 0 1")?;
    let clock = Clock::of(alloc, &pool, 99)?;
    let old = Triples::of(alloc, &pool, &clock, 99)?;
    let records =
        "a,tick:256000,tdt:1000.002,0\nb,tick:512000,tdt:2000.004,0\nc,tick:768000,tdt:3000.010,0\n";
    let list = observations(alloc, &clock, records)?;
    let settings = settings(&rt, NINE_DECIMALS);
    let chain = fit(alloc, &old, &clock, list.as_slice(), &settings)?;
    let new = chain.triples(alloc, &old)?;
    let mut text = String::new(alloc);
    for triple in new.list() {
        let part = format!(in alloc;
            "{} {} {};",
            triple.ticks, triple.time.units, triple.rate.units
        )?;
        text.push_str(part.as_str())?;
    }
    assert_eq!(rt;
        text.as_str(),
        "0 0 1000000000000000000;1 3906250000000000 1000002000000000000;512000 2000003999992188000000 1000006000000000000;"
    );
    Ok(())
}

/// Records of one line: tick 256000 × k at 1000.5 × k s, for k from 1.
fn steady_records(alloc: Global, count: u32) -> Result<String, Fail> {
    let mut records = String::new(alloc);
    for k in 1..=count {
        let tick = 256_000 * k as u64;
        let tenths = 10_005 * k as u64;
        let record = format!(in alloc; "r,tick:{},tdt:{}.{},0\n", tick, tenths / 10, tenths % 10)?;
        records.push_str(record.as_str())?;
    }
    Ok(records)
}

#[test]
fn one_line_meets_a_hundred_thousand_observations(rt: HostRuntime) -> Result<(), Fail> {
    let records = steady_records(rt.alloc(), 100_000)?;
    let got = answer(&rt, ONE_PARTITION, "0 0 1", DEFAULTS, records.as_str())?;
    assert_eq!(rt;
        got.as_str(),
        "0 | 0 0 1000000000000000000 0-0 Fixed | 1 3906250000000000 1000500000000000000 0-100000 Last"
    );
    Ok(())
}
