ghost use Rattle.std.specs.Prelude.{◌^◌, ◌<◌, length, IsTrue};
ghost use Rattle.sk_grammar.specs.Variables.{items_of};

use crate::{ExcerptFault, Kernel, TickRange, excerpt, join};
use sk_clock::Clock;
use sk_grammar::{Doc, read_doc};
use sk_pool::Pool;
use sk_triples::Triples;
use std::process::Abort;
use std::test::Fail;

// A clock of 256 ticks a count, whose greatest tick is 1099511627775.
const CLOCK: &str = "SCLK_DATA_TYPE_99 = 1
SCLK01_TIME_SYSTEM_99 = 2
SCLK01_N_FIELDS_99 = 2
SCLK01_MODULI_99 = (
4294967296 256
)
SCLK01_OFFSETS_99 = (
0 0
)
SCLK01_OUTPUT_DELIM_99 = 2
SCLK_PARTITION_START_99 = 0
SCLK_PARTITION_END_99 = 1099511627775
";

fn has_few_items(doc: &Doc) -> bool
    ensures { IsTrue result → length (items_of doc.now) < 2 ^ 32 }
{
    match doc.blocks.as_slice() {
        [first, later] => {
            first.items.as_text().len() < 100_000 && later.items.as_text().len() < 100_000
        }
        _ => false,
    }
}

fn read(rt: &(impl Abort + AllocGlobal), text: &str) -> Result<Doc, Fail> {
    assert!(rt; text.len() < 4000);
    Ok(read_doc(rt.alloc(), text.as_bytes())?)
}

// The kernel with these coefficients, and a later kernel with these items over it.
fn joined(rt: &(impl Abort + AllocGlobal), coefficients: &str, later: &str) -> Result<Doc, Fail> {
    let alloc = rt.alloc();
    let kernel = format!(in alloc;
        "KPL/SCLK\n\\begindata\n{CLOCK}SCLK01_COEFFICIENTS_99 = ( {coefficients} )\n\\begintext\na comment\n"
    )?;
    let over = format!(in alloc; "a head\n\\begindata\n{later}\n\\begintext\nanother\n")?;
    let doc = join(read(rt, kernel.as_str())?, read(rt, over.as_str())?)?;
    Ok(doc)
}

fn expect_doc(rt: &(impl Abort + AllocGlobal), doc: &Doc, items: &str) -> Result<(), Fail> {
    assert_eq!(rt; doc.head.as_text(), b"KPL/SCLK\n".as_slice());
    match doc.blocks.as_slice() {
        [block] => {
            assert_eq!(rt; block.items.as_text(), items.as_bytes());
            assert_eq!(rt; block.text.as_text(), b"".as_slice());
        }
        _ => assert!(rt; false, "not one block"),
    }
    Ok(())
}

// What the range makes of the joined kernels.
fn expect_excerpt(
    rt: &(impl Abort + AllocGlobal),
    doc: Doc,
    range: TickRange,
    want: Result<&str, ExcerptFault>,
) -> Result<(), Fail> {
    let alloc = rt.alloc();
    assert!(rt; has_few_items(&doc));
    let pool = Pool::of(alloc, &doc)?;
    let clock = Clock::of(alloc, &pool, 99)?;
    let triples = Triples::of(alloc, &pool, &clock, 99)?;
    let kernel = Kernel {
        pool: &pool,
        clock: &clock,
        triples: &triples,
        sc: 99,
    };
    match (excerpt(alloc, doc, &kernel, range), want) {
        (Ok(doc), Ok(items)) => expect_doc(rt, &doc, items)?,
        (Err(fault), Err(other)) => assert_eq!(rt; fault, other),
        _ => assert!(rt; false, "{} to {}", range.from, range.to),
    }
    Ok(())
}

#[test]
fn the_triples_that_a_range_needs(rt: HostRuntime) -> Result<(), Fail> {
    let two = "SCLK01_COEFFICIENTS_99 += ( 512 2.5 1 )";
    let table = [
        (0, 600, "0 0 1\n512 2.5 1"),
        (0, 511, "0 0 1"),
        (511, 511, "0 0 1"),
        (511, 512, "0 0 1\n512 2.5 1"),
        (512, 512, "512 2.5 1"),
        (600, 1_099_511_627_775, "512 2.5 1"),
        (0, 0, "0 0 1"),
    ];
    for (from, to, left) in table {
        let doc = joined(&rt, "0 0 1", two)?;
        let items = format!(in rt.alloc(); "{CLOCK}SCLK01_COEFFICIENTS_99 = (\n{left}\n)\n")?;
        expect_excerpt(&rt, doc, TickRange { from, to }, Ok(items.as_str()))?;
    }
    Ok(())
}

#[test]
fn dates_are_left_as_they_stand(rt: HostRuntime) -> Result<(), Fail> {
    // The times are -43200 s, 1.5 s and 2.5 s. Values with a date among them stand one a line.
    let two = "SCLK01_COEFFICIENTS_99 += ( 256 @1-Jan-2000/12:00:01.50 1 512 2.5 1 )";
    let table = [
        (0, 255, "0\n@2000-001\n1"),
        (255, 511, "0\n@2000-001\n1\n256\n@1-Jan-2000/12:00:01.50\n1"),
        (256, 512, "256\n@1-Jan-2000/12:00:01.50\n1\n512\n2.5\n1"),
        (512, 512, "512 2.5 1"),
    ];
    for (from, to, left) in table {
        let doc = joined(&rt, "0 @2000-001 1", two)?;
        let items = format!(in rt.alloc(); "{CLOCK}SCLK01_COEFFICIENTS_99 = (\n{left}\n)\n")?;
        expect_excerpt(&rt, doc, TickRange { from, to }, Ok(items.as_str()))?;
    }
    Ok(())
}

#[test]
fn a_later_kernel_goes_over_the_first(rt: HostRuntime) -> Result<(), Fail> {
    let later = "A = 'x'\nSCLK01_COEFFICIENTS_99 = ( 256 0 1 512 2.5 1 )\nA += 'y'";
    let doc = joined(&rt, "0 0 1", later)?;
    let items = format!(in rt.alloc();
        "{CLOCK}SCLK01_COEFFICIENTS_99 = (\n256 0 1\n)\nA = (\n'x'\n'y'\n)\n"
    )?;
    let range = TickRange { from: 256, to: 257 };
    expect_excerpt(&rt, doc, range, Ok(items.as_str()))
}

#[test]
fn no_range_of_ticks(rt: HostRuntime) -> Result<(), Fail> {
    let table = [
        (300, 299, ExcerptFault::BadRange),
        (5, 4, ExcerptFault::BadRange),
        (300, 1_099_511_627_776, ExcerptFault::BadRange),
        (255, 1_099_511_627_776, ExcerptFault::BadRange),
        (255, 300, ExcerptFault::BeforeFirst),
        (0, 0, ExcerptFault::BeforeFirst),
    ];
    for (from, to, fault) in table {
        let doc = joined(&rt, "256 1 1", "A = 1")?;
        expect_excerpt(&rt, doc, TickRange { from, to }, Err(fault))?;
    }
    Ok(())
}
