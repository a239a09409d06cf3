use super::*;
use crate::tests::{
    CLOCK, EARLY, HEADER, KERNEL, LEAPS, SHAPE, SPAN, SYSTEM, TRIPLE, files, first_line, output,
    texts,
};
use sk_edge::{MemoryDepot, MemorySink};
use std::alloc::{AllocError, Global};
use std::test::Fail;

/// A join at which time falls by half a microsecond, and one at which it leaps ahead by half a second.
const JOINS: &str =
    "SCLK01_COEFFICIENTS_99 = (\n0 0 1\n256 0.9999995 1\n512 2.4999995 1\n)\n\\begintext\n";

/// A kernel of these parts, and a leap second kernel.
fn files_for(alloc: Global, parts: &[&str]) -> Result<Vec<(String, Vec<u8>)>, AllocError> {
    let mut held = files(alloc, parts, HEADER)?;
    held.push((
        String::from_str(alloc, "l")?,
        LEAPS.as_bytes().to_vec(alloc)?,
    ))?;
    Ok(held)
}

#[test]
fn times_are_inverted(rt: HostRuntime) -> Result<(), Fail> {
    let alloc = rt.alloc();
    let plain: &[&str] = &[KERNEL, CLOCK, SHAPE, SPAN, TRIPLE];
    let joined: &[&str] = &[KERNEL, CLOCK, SHAPE, SPAN, JOINS];
    let early: &[&str] = &[KERNEL, CLOCK, SHAPE, SPAN, EARLY];
    let half = "1/0000001000:128;256128;1000.500000000000\n";
    let last = "1/4294967295:255;1099511627775;4294967295.996093750000\n";
    let table: [(&[&str], &[&str], &str); 11] = [
        (
            plain,
            &["--leap=l", "--time=utc:2000-01-01T12:15:36.316Z"],
            half,
        ),
        (
            plain,
            &["--leap=l", "--time=utc:2000-001T12:15:36.316"],
            half,
        ),
        (
            plain,
            &["--time=tdt:0.999"],
            "1/0000000000:255;255;0.996093750000\n",
        ),
        (
            plain,
            &["--time=tdt:1.0000000000000000"],
            "1/0000000001:000;256;1.000000000000\n",
        ),
        (plain, &["--time=tdt:4294967295.99609375"], last),
        // From the fall's lower end on the time is the later triple's; at the leap the tick before it is told.
        (
            joined,
            &["--time=tdt:1"],
            "1/0000000001:000;256;0.999999500000\n",
        ),
        (
            joined,
            &["--time=tdt:0.9999994"],
            "1/0000000000:255;255;0.996093750000\n",
        ),
        (
            joined,
            &["--time=tdt:2.4"],
            "1/0000000001:255;511;1.996093250000\n",
        ),
        // The time of tick 1 is above its floor.
        (
            early,
            &["--time=tdt:-0.99609375"],
            "1/0000000000:000;0;-1.000000000000\n",
        ),
        (
            early,
            &["--time=tdt:-0.996093749999"],
            "1/0000000000:001;1;-0.996093750000\n",
        ),
        (
            early,
            &["--time=tdt:-1"],
            "1/0000000000:000;0;-1.000000000000\n",
        ),
    ];
    for (parts, options, text) in table {
        let mut words = texts(alloc, &["invert", "--kernel=k", "--sc=99"])?;
        for option in options {
            words.push(String::from_str(alloc, option)?)?;
        }
        let held = files_for(alloc, parts)?;
        let mut depot = MemoryDepot::new(held, vec![in alloc; 1]?, Vec::new(alloc));
        let mut out = output(alloc, Vec::new(alloc))?;
        let mut notes = output(alloc, Vec::new(alloc))?;
        let status = run(alloc, &words, &mut depot, &mut out, &mut notes);
        assert_eq!(rt; out.written(), text.as_bytes());
        assert_eq!(rt; status.code(), 0, "{text}");
        assert!(rt; notes.written().is_empty());
    }
    Ok(())
}

#[test]
fn times_are_refused(rt: HostRuntime) -> Result<(), Fail> {
    let alloc = rt.alloc();
    let plain: &[&str] = &[KERNEL, CLOCK, SHAPE, SPAN, TRIPLE];
    let barycentric: &[&str] = &[KERNEL, SYSTEM, SHAPE, SPAN, TRIPLE];
    let before_table = "refused;10;Utc;BeforeTable\n";
    let table: [(&[&str], &str, u8, &str); 15] = [
        (plain, "--leap=l", 2, "refused;2;NeedOption;time\n"),
        (barycentric, "--time=", 4, "refused;4;Clock;Barycentric\n"),
        (plain, "--time=", 10, "refused;10;Form\n"),
        (plain, "--time=tdt:1.0000000000001", 10, "refused;10;Form\n"),
        (plain, "--time=cuc:2d000003e880", 10, "refused;10;Form\n"),
        (
            plain,
            "--time=utc:2000-02-30T00:00:00",
            10,
            "refused;10;Form\n",
        ),
        (plain, "--time=utc:2000-01-01T12:00:00", 10, before_table),
        (plain, "--time=tdt:1E35", 10, "refused;10;Range\n"),
        (
            plain,
            "--time=tdt:-9000000000.000000000001",
            10,
            "refused;10;Range\n",
        ),
        (
            plain,
            "--time=tdt:-9000000000",
            10,
            "refused;10;BeforeFirst\n",
        ),
        (plain, "--time=tdt:-1", 10, "refused;10;BeforeFirst\n"),
        (
            plain,
            "--time=tdt:-0.000000000001",
            10,
            "refused;10;BeforeFirst\n",
        ),
        (
            plain,
            "--time=tdt:4294967295.996093750001",
            10,
            "refused;10;PastEnd\n",
        ),
        (plain, "--time=tdt:4294967296", 10, "refused;10;PastEnd\n"),
        (plain, "--time=tdt:9000000000", 10, "refused;10;PastEnd\n"),
    ];
    for (parts, option, code, line) in table {
        let words = texts(alloc, &["invert", "--kernel=k", "--sc=99", option])?;
        let held = files_for(alloc, parts)?;
        let mut depot = MemoryDepot::new(held, vec![in alloc; 1]?, Vec::new(alloc));
        let mut out = output(alloc, Vec::new(alloc))?;
        let mut notes = output(alloc, Vec::new(alloc))?;
        let status = run(alloc, &words, &mut depot, &mut out, &mut notes);
        assert_eq!(rt; first_line(notes.written()), line.as_bytes());
        assert_eq!(rt; status.code(), code, "{line}");
        assert!(rt; out.written().is_empty());
    }
    Ok(())
}

#[test]
fn each_call_of_the_depot_fails(rt: HostRuntime) -> Result<(), Fail> {
    let alloc = rt.alloc();
    let plain: &[&str] = &[KERNEL, CLOCK, SHAPE, SPAN, TRIPLE];
    for call in 1..8u64 {
        let words = texts(
            alloc,
            &[
                "invert",
                "--leap=l",
                "--kernel=k",
                "--sc=99",
                "--time=utc:2000-01-01T23:59:60",
            ],
        )?;
        let held = files_for(alloc, plain)?;
        let mut depot = MemoryDepot::new(held, Vec::new(alloc), vec![in alloc; call]?);
        let mut out = output(alloc, Vec::new(alloc))?;
        let mut notes = output(alloc, Vec::new(alloc))?;
        let status = run(alloc, &words, &mut depot, &mut out, &mut notes);
        // A file is chosen, read, and read at its end; only then the time is judged.
        let (code, line) = match call {
            1..=3 => (7, "refused;7;Leap\n"),
            4..=6 => (7, "refused;7;Kernel\n"),
            _ => (10, "refused;10;Utc;NotInDay\n"),
        };
        assert_eq!(rt; status.code(), code, "at {call}");
        assert_eq!(rt; first_line(notes.written()), line.as_bytes());
        assert!(rt; out.written().is_empty(), "at {call}");
    }
    Ok(())
}
