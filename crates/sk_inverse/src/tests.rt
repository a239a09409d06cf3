ghost use Rattle.std.specs.Prelude.{◌^◌, ◌<◌, ◌≤◌, length, IsTrue};
ghost use Rattle.sk_grammar.specs.Variables.{items_of};

use crate::{InverseFault, tick_at};
use sk_clock::Clock;
use sk_decimal::Fixed;
use sk_grammar::{Doc, read_doc};
use sk_pool::Pool;
use sk_triples::Triples;
use std::process::Abort;
use std::test::Fail;

// Clocks of 256 ticks and of 2^32 ticks a count.
const PLAIN: &str = "SCLK01_MODULI_99 = ( 4294967296 256 )
SCLK_PARTITION_START_99 = 0
SCLK_PARTITION_END_99 = 1099511627775
";

const GREATEST: &str = "SCLK01_MODULI_99 = ( 2097152 4294967296 )
SCLK_PARTITION_START_99 = 0
SCLK_PARTITION_END_99 = 9007199254740991
";

fn has_few_items(doc: &Doc) -> bool
    ensures { IsTrue result → length (items_of doc.now) < 2 ^ 32 }
{
    match doc.blocks.as_slice() {
        [block] => block.items.as_text().len() < 100_000,
        _ => false,
    }
}

fn pool_of(
    rt: &(impl Abort + AllocGlobal),
    partitions: &str,
    coefficients: &str,
) -> Result<Pool, Fail> {
    let text = format!(in rt.alloc();
        "\\begindata
SCLK_DATA_TYPE_99 = 1
SCLK01_TIME_SYSTEM_99 = 2
SCLK01_N_FIELDS_99 = 2
SCLK01_OFFSETS_99 = ( 0 0 )
SCLK01_OUTPUT_DELIM_99 = 2
{partitions}SCLK01_COEFFICIENTS_99 = ( {coefficients} )
"
    )?;
    assert!(rt; text.len() < 2000);
    let doc = read_doc(rt.alloc(), text.as_bytes())?;
    assert!(rt; has_few_items(&doc));
    Ok(Pool::of(rt.alloc(), &doc)?)
}

// The tick of a time, in 10^-12 s, by a kernel.
fn tick_of(
    rt: &(impl Abort + AllocGlobal),
    partitions: &str,
    coefficients: &str,
    time: i128,
) -> Result<Result<u64, InverseFault>, Fail> {
    let pool = pool_of(rt, partitions, coefficients)?;
    let clock = Clock::of(rt.alloc(), &pool, 99)?;
    let triples = Triples::of(rt.alloc(), &pool, &clock, 99)?;
    assert!(rt; -9_000_000_000_000_000_000_000 <= time);
    assert!(rt; time <= 9_000_000_000_000_000_000_000);
    Ok(tick_at(&triples, &clock, Fixed { units: time }))
}

#[test]
fn each_time_has_its_greatest_tick(rt: HostRuntime) -> Result<(), Fail> {
    let steady = "0 0 1";
    let falls = "0 0 1 256 0.9999995 1";
    let deep = "0 0 1 256 0.5 1";
    let gap = "0 0 1 256 2 1";
    let slow = "0 -1E10 1E-18 1 9000000000.000000000001 1";
    let fast = "0 8E9 1000";
    let before = Err(InverseFault::BeforeFirst);
    let past = Err(InverseFault::PastEnd);
    let table = [
        (PLAIN, steady, 1_000_500_000_000_000, Ok(256128)),
        (PLAIN, steady, 999_000_000_000, Ok(255)),
        (PLAIN, steady, 0, Ok(0)),
        (PLAIN, steady, -1, before),
        (PLAIN, steady, -1_000_000_000_000, before),
        // The last tick is at 4294967295.99609375 s.
        (
            PLAIN,
            steady,
            4_294_967_295_996_093_749_999,
            Ok(1099511627774),
        ),
        (
            PLAIN,
            steady,
            4_294_967_295_996_093_750_000,
            Ok(1099511627775),
        ),
        (PLAIN, steady, 4_294_967_295_996_093_750_001, past),
        (PLAIN, steady, 4_294_967_296_000_000_000_000, past),
        // A fall of 0.5 us.
        (PLAIN, falls, 1_000_000_000_000, Ok(256)),
        (PLAIN, falls, 999_999_500_000, Ok(256)),
        (PLAIN, falls, 999_999_499_999, Ok(255)),
        // A fall of half a second, which a time of before it is in.
        (PLAIN, deep, 750_000_000_000, Ok(320)),
        (PLAIN, deep, 499_999_999_999, Ok(127)),
        // A gap of a second, at whose times the line would have gone on.
        (PLAIN, gap, 1_500_000_000_000, Ok(255)),
        (PLAIN, gap, 2_000_000_000_000, Ok(256)),
        (GREATEST, slow, 9_000_000_000_000_000_000_000, Ok(0)),
        (GREATEST, slow, -9_000_000_000_000_000_000_000, Ok(0)),
        (
            GREATEST,
            "0 -1E10 1E-18",
            9_000_000_000_000_000_000_000,
            past,
        ),
        // A billion seconds are a million counts of 1000 s.
        (
            GREATEST,
            fast,
            9_000_000_000_000_000_000_000,
            Ok(4294967296000000),
        ),
    ];
    for (partitions, coefficients, time, want) in table {
        let got = tick_of(&rt, partitions, coefficients, time)?;
        assert!(rt; got == want, "at {time} by {coefficients}");
    }
    Ok(())
}
