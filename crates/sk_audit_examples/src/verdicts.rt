use crate::kernels::{Asked, NINE_DECIMALS, OLD, doc, observations, pool, settings};
use sk_audit::audit;
use sk_clock::Clock;
use sk_triples::Triples;
use std::process::Abort;
use std::test::Fail;

const TWO: &str = "a,tick:256000,tdt:1000.002,0
b,tick:512000,tdt:2000.004,0
";

const TWO_BLOCK: &str = "\\begindata
SCLK01_COEFFICIENTS_99 += ( 1 0.00390625 1.000002 )
\\begintext
residuals;2
a;1/0000001000:000;1000.002000000000;1000.001999992187;7813;2;new;
b;1/0000002000:000;2000.004000000000;2000.003999992187;7813;2;new;last
";

const THREE: &str = "a,tick:256000,tdt:1000.002,0
b,tick:512000,tdt:2000.004,0
c,tick:768000,tdt:3000.010,0
";

const THREE_BLOCK: &str = "\\begindata
SCLK01_COEFFICIENTS_99 += ( 1 0.00390625 1.000002
512000 2000.003999992188 1.000006 )
\\begintext
residuals;3
a;1/0000001000:000;1000.002000000000;1000.001999992187;7813;2;new;
b;1/0000002000:000;2000.004000000000;2000.003999992188;7812;3;new;blocked:4:3
c;1/0000003000:000;3000.010000000000;3000.009999992188;7812;3;new;last
";

const DROPPED: &str = "a,tick:256000,tdt:1000.002,0
x,tick:384000,tdt:1600,0
b,tick:512000,tdt:2000.004,0
";

const DROPPED_BLOCK: &str = "\\begindata
SCLK01_COEFFICIENTS_99 += ( 1 0.00390625 1.000002 )
\\begintext
residuals;3
a;1/0000001000:000;1000.002000000000;1000.001999992187;7813;2;new;
x;1/0000001500:000;1600.000000000000;1500.002999992187;99997000007813;2;dropped;
b;1/0000002000:000;2000.004000000000;2000.003999992187;7813;2;new;last
";

/// The first observation of a later partition is before the line, by no more than the tolerance.
const RESET: &str = "a,tick:3600,tdt:900,0
b,tick:4000,tdt:999.9995,0
";

const RESET_BLOCK: &str = "\\begindata
SCLK01_COEFFICIENTS_99 += ( 4000 1000 1 )
\\begintext
residuals;2
a;1/0000000900:0;900.000000000000;900.000000000000;0;1;new;partition
b;2/0000000000:0;999.999500000000;1000.000000000000;-500000000;2;new;last
";

/// What the auditor says of a new kernel over the old one.
fn judged(
    rt: &(impl Abort + AllocGlobal),
    asked: Asked,
    records: &str,
    old: &str,
    new: &str,
) -> Result<String, Fail> {
    let alloc = rt.alloc();
    let old = doc(rt, old)?;
    let new = doc(rt, new)?;
    let pool = pool(rt, &old)?;
    let clock = Clock::of(alloc, &pool, 99)?;
    let triples = Triples::of(alloc, &pool, &clock, 99)?;
    let list = observations(alloc, &clock, records)?;
    assert!(rt; list.as_slice().len() <= 100_000);
    let settings = settings(rt, asked);
    let verdict = audit(
        alloc,
        &old,
        &new,
        &clock,
        &triples,
        99,
        list.as_slice(),
        &settings,
    )?;
    Ok(format!(in alloc; "{verdict:?}")?)
}

/// What the auditor says of the old kernel with this block.
fn said(
    rt: &(impl Abort + AllocGlobal),
    asked: Asked,
    records: &str,
    block: &str,
) -> Result<String, Fail> {
    let new = format!(in rt.alloc(); "{OLD}{block}")?;
    judged(rt, asked, records, OLD, new.as_str())
}

/// What the auditor says of the block over an old kernel with other coefficients.
fn said_over(
    rt: &(impl Abort + AllocGlobal),
    asked: Asked,
    coefficients: &str,
    block: &str,
) -> Result<String, Fail> {
    let old = edited(rt, OLD, "( 0 0 1 )", coefficients)?;
    let old = old.as_str();
    let new = format!(in rt.alloc(); "{old}{block}")?;
    judged(rt, asked, TWO, old, new.as_str())
}

/// The text with one part of it changed.
fn edited(rt: &impl AllocGlobal, text: &str, part: &str, other: &str) -> Result<String, Fail> {
    Ok(text.replace(rt.alloc(), part, other)?)
}

#[test]
fn publications_are_accepted(rt: HostRuntime) -> Result<(), Fail> {
    assert_eq!(rt; said(&rt, NINE_DECIMALS, TWO, TWO_BLOCK)?.as_str(), "Yes");
    assert_eq!(rt;
        said(&rt, NINE_DECIMALS, THREE, THREE_BLOCK)?.as_str(),
        "Yes"
    );
    let one = Asked {
        reject: 1,
        ..NINE_DECIMALS
    };
    assert_eq!(rt; said(&rt, one, DROPPED, DROPPED_BLOCK)?.as_str(), "Yes");
    assert_eq!(rt;
        said(&rt, NINE_DECIMALS, DROPPED, DROPPED_BLOCK)?.as_str(),
        "No(Chain)"
    );
    Ok(())
}

#[test]
fn changed_publications_are_refused(rt: HostRuntime) -> Result<(), Fail> {
    for (part, other, wanted) in [
        ("1.000002 ", "1.000001999 ", "No(Chain)"),
        ("1.000002 ", "1.0000020 ", "Yes"),
        ("0.00390625", "0.003906249999", "No(Chain)"),
        ("( 1 0.", "( 2 0.", "No(Chain)"),
        (
            "\\begindata\n",
            "\\begindata\nSCLK_KERNEL_ID = @2024-06-01\n",
            "Yes",
        ),
        (
            "\\begindata\n",
            "\\begindata\nSCLK_KERNEL_ID += @2024-06-01\n",
            "No(Items)",
        ),
        ("+=", "=", "No(Items)"),
        ("_99 ", "_98 ", "No(Items)"),
        (" 1.000002 )", " 1.000002 5 )", "No(Items)"),
        ("residuals;2", "residuals;3", "No(Table(1))"),
        ("1000.001999992187", "1000.001999992188", "No(Table(2))"),
        ("last", "fixed", "No(Table(3))"),
        ("last\n", "last\n\n", "No(Table(4))"),
        ("\nb;", "\nx;", "No(Table(3))"),
    ] {
        let block = edited(&rt, TWO_BLOCK, part, other)?;
        assert_eq!(rt;
            said(&rt, NINE_DECIMALS, TWO, block.as_str())?.as_str(),
            wanted
        );
    }
    let block = edited(&rt, THREE_BLOCK, "blocked:4:3", "blocked:4:4")?;
    assert_eq!(rt;
        said(&rt, NINE_DECIMALS, THREE, block.as_str())?.as_str(),
        "No(Table(3))"
    );
    Ok(())
}

#[test]
fn lines_of_the_table_are_all_compared(rt: HostRuntime) -> Result<(), Fail> {
    for (part, other, wanted) in [
        ("residuals;2\n", "", "No(Table(1))"),
        ("7813;2;new;\n", "7812;2;new;\n", "No(Table(2))"),
        ("7813;2;new;\n", "7813;1;new;\n", "No(Table(2))"),
        ("7813;2;new;\n", "7813;2;old;\n", "No(Table(2))"),
        ("7813;2;new;\n", "7813;2;new; \n", "No(Table(2))"),
        ("last\n", "last\nlast\n", "No(Table(4))"),
        (
            "b;1/0000002000:000;2000.004000000000;2000.003999992187;7813;2;new;last\n",
            "",
            "No(Table(3))",
        ),
    ] {
        let block = edited(&rt, TWO_BLOCK, part, other)?;
        assert_eq!(rt;
            said(&rt, NINE_DECIMALS, TWO, block.as_str())?.as_str(),
            wanted
        );
    }
    Ok(())
}

#[test]
fn a_later_partition_begins_on_the_line_before(rt: HostRuntime) -> Result<(), Fail> {
    let quarters = edited(&rt, OLD, "4294967296 256", "4294967296 4")?;
    let begun = edited(&rt, quarters.as_str(), "START_99 = 0", "START_99 = ( 0 0 )")?;
    let old = edited(
        &rt,
        begun.as_str(),
        "END_99 = 1099511627775",
        "END_99 = ( 4000 1099511627775 )",
    )?;
    for (record, part, other, wanted) in [
        ("999.9995", "( 4000 1000 1 )", "( 4000 1000.0 1 )", "Yes"),
        (
            "999.9995",
            "( 4000 1000 1 )",
            "( 4000 999.9995 1 )",
            "No(Chain)",
        ),
        (
            "999.9995",
            "( 4000 1000 1 )",
            "( 4000 1000.000000000001 1 )",
            "No(Chain)",
        ),
        (
            "999.998999999999",
            "999.999500000000;1000.000000000000;-500000000",
            "999.998999999999;1000.000000000000;-1000000001",
            "No(Chain)",
        ),
        (
            "999.999",
            "999.999500000000;1000.000000000000;-500000000",
            "999.999000000000;1000.000000000000;-1000000000",
            "Yes",
        ),
    ] {
        let records = edited(&rt, RESET, "999.9995", record)?;
        let block = edited(&rt, RESET_BLOCK, part, other)?;
        let new = format!(in rt.alloc(); "{}{}", old.as_str(), block.as_str())?;
        let said = judged(
            &rt,
            NINE_DECIMALS,
            records.as_str(),
            old.as_str(),
            new.as_str(),
        )?;
        assert_eq!(rt; said.as_str(), wanted, "at {record}");
    }
    Ok(())
}

#[test]
fn the_old_document_stands_in_the_new_one(rt: HostRuntime) -> Result<(), Fail> {
    assert_eq!(rt; said(&rt, NINE_DECIMALS, TWO, "")?.as_str(), "No(Standing)");
    let two = format!(in rt.alloc(); "{TWO_BLOCK}{TWO_BLOCK}")?;
    assert_eq!(rt;
        said(&rt, NINE_DECIMALS, TWO, two.as_str())?.as_str(),
        "No(Standing)"
    );
    for (part, other) in [
        ("KPL/SCLK\n", "KPL/SCLK\nA note.\n"),
        ("@2024-01-01", "@2024-01-02"),
        ("( 0 0 1 )", "( 0 0 1.0000001 )"),
        ("( 0 0 1 )", "( 0 @2000-JAN-1-12:00 1 )"),
    ] {
        let old = edited(&rt, OLD, part, other)?;
        let new = format!(in rt.alloc(); "{OLD}{TWO_BLOCK}")?;
        let other = judged(&rt, NINE_DECIMALS, TWO, old.as_str(), new.as_str())?;
        assert_eq!(rt; other.as_str(), "No(Standing)");
    }
    Ok(())
}

#[test]
fn times_that_are_dates(rt: HostRuntime) -> Result<(), Fail> {
    let date = "( 0 @2000-JAN-1-12:00 1 )";
    assert_eq!(rt;
        said_over(&rt, NINE_DECIMALS, date, TWO_BLOCK)?.as_str(),
        "Yes"
    );
    let block = edited(
        &rt,
        TWO_BLOCK,
        "0.00390625",
        "@2000-01-01T12:00:00.00390625",
    )?;
    assert_eq!(rt;
        said_over(&rt, NINE_DECIMALS, date, block.as_str())?.as_str(),
        "No(Items)"
    );
    Ok(())
}

#[test]
fn settings_that_admit_no_publication(rt: HostRuntime) -> Result<(), Fail> {
    let held = Asked {
        hold: Some(1 << 50),
        ..NINE_DECIMALS
    };
    assert_eq!(rt; said(&rt, held, TWO, TWO_BLOCK)?.as_str(), "No(Settings)");
    let early = "( 512000 2000 1 )";
    assert_eq!(rt;
        said_over(&rt, NINE_DECIMALS, early, TWO_BLOCK)?.as_str(),
        "No(Settings)"
    );
    let falling = "( 0 0 1 256 0.998 1 )";
    assert_eq!(rt;
        said_over(&rt, NINE_DECIMALS, falling, TWO_BLOCK)?.as_str(),
        "No(Settings)"
    );
    let coarse = Asked {
        rate_decimals: 1,
        ..NINE_DECIMALS
    };
    assert_eq!(rt;
        said_over(&rt, coarse, "( 0 0 1.05 )", TWO_BLOCK)?.as_str(),
        "No(Settings)"
    );
    // Nothing else is judged before the settings.
    assert_eq!(rt; said(&rt, held, TWO, "")?.as_str(), "No(Settings)");
    Ok(())
}
