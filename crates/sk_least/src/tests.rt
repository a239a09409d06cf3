ghost use Rattle.std.specs.Prelude.{◌^◌, ◌<◌, length, IsTrue, IfOk};
ghost use Rattle.sk_clock.specs.Clock.{total};
ghost use Rattle.sk_grammar.specs.Variables.{items_of};
ghost use Rattle.sk_publishing.specs.Row.{AreRows};

use crate::least;
use sk_clock::Clock;
use sk_decimal::Fixed;
use sk_grammar::{Doc, List, read_doc};
use sk_leap::LeapTable;
use sk_obs::{Observation, read_observations};
use sk_pool::Pool;
use std::alloc::Global;
use std::process::Abort;
use std::test::Fail;

// A clock of 256 ticks a count with one partition, and one with two.
const ONE_PARTITION: &str = "SCLK01_MODULI_99 = ( 4294967296 256 )
SCLK_PARTITION_START_99 = 0
SCLK_PARTITION_END_99 = 1099511627775
";

const TWO_PARTITIONS: &str = "SCLK01_MODULI_99 = ( 4294967296 256 )
SCLK_PARTITION_START_99 = ( 0 0 )
SCLK_PARTITION_END_99 = ( 1000000 1099511627775 )
";

fn has_few_items(doc: &Doc) -> bool
    ensures { IsTrue result → length (items_of doc.now) < 2 ^ 32 }
{
    match doc.blocks.as_slice() {
        [block] => block.items.as_text().len() < 100_000,
        _ => false,
    }
}

fn clock_of(rt: &(impl Abort + AllocGlobal), partitions: &str) -> Result<Clock, Fail> {
    let text = format!(in rt.alloc();
        "\\begindata
SCLK_DATA_TYPE_99 = 1
SCLK01_TIME_SYSTEM_99 = 2
SCLK01_N_FIELDS_99 = 2
SCLK01_OFFSETS_99 = ( 0 0 )
SCLK01_OUTPUT_DELIM_99 = 2
{partitions}\\begintext
"
    )?;
    assert!(rt; text.len() < 2000);
    let doc = read_doc(rt.alloc(), text.as_bytes())?;
    assert!(rt; has_few_items(&doc));
    let pool = Pool::of(rt.alloc(), &doc)?;
    Ok(Clock::of(rt.alloc(), &pool, 99)?)
}

fn observations(alloc: Global, clock: &Clock, records: &str) -> Result<List<Observation>, Fail>
    ensures { IfOk result (AreRows (total clock.now)) }
{
    let text = format!(in alloc; "id,clock,time,delay\n{records}")?;
    let list = read_observations(alloc, text.as_bytes(), clock, &LeapTable::none())?;
    Ok(list)
}

// The runs of these records, at a tolerance of a millisecond.
fn runs(rt: &(impl Abort + AllocGlobal), partitions: &str, records: &str) -> Result<String, Fail> {
    let alloc = rt.alloc();
    let clock = clock_of(rt, partitions)?;
    let list = observations(alloc, &clock, records)?;
    let tolerance = Fixed {
        units: 1_000_000_000,
    };
    let mut text = String::new(alloc);
    for stretch in least(alloc, &clock, list.as_slice(), tolerance)?.as_slice() {
        let line = format!(in alloc; "{}-{} {:?};", stretch.first, stretch.past, stretch.stop)?;
        text.push_str(line.as_str())?;
    }
    Ok(text)
}

#[test]
fn one_partition(rt: HostRuntime) -> Result<(), Fail> {
    let table = [
        ("", ""),
        ("a,tick:5,tdt:7,0\n", "0-1 Last;"),
        // The need of b and c equals the room of a and b.
        (
            "a,tick:256000,tdt:1000.002,0\nb,tick:512000,tdt:2000.004,0\nc,tick:768000,tdt:3000.010,0\n",
            "0-3 Last;",
        ),
        (
            "a,tick:256000,tdt:1000.002,0\nb,tick:512000,tdt:2000.004,0\nc,tick:768000,tdt:3000.011,0\n",
            "0-2 Bent { need_from: 1, need_to: 2, room_from: 0, room_to: 1 };2-3 Last;",
        ),
        // Two pairs need 1/256 s a tick: the one whose later place is less is named.
        (
            "a,tick:0,tdt:0,0\nb,tick:256,tdt:1.002,0\nc,tick:512,tdt:2.002,0\nd,tick:768,tdt:2.9,0\n",
            "0-3 Bent { need_from: 0, need_to: 1, room_from: 2, room_to: 3 };3-4 Last;",
        ),
    ];
    for (records, want) in table {
        let got = runs(&rt, ONE_PARTITION, records)?;
        assert_eq!(rt; got.as_str(), want, "at {records}");
    }
    Ok(())
}

#[test]
fn a_run_ends_with_its_partition(rt: HostRuntime) -> Result<(), Fail> {
    let records = "a,tick:999744,tdt:1,0\nb,2/0:0,tdt:2,0\nc,2/1:0,tdt:3,0\n";
    let got = runs(&rt, TWO_PARTITIONS, records)?;
    assert_eq!(rt; got.as_str(), "0-1 Partition;1-3 Last;");
    Ok(())
}
