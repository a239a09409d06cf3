use super::*;
use crate::tests::{
    CLOCK, HEADER, KERNEL, LEAPS, SHAPE, SPAN, SPANS, SYSTEM, TRIPLE, files, first_line, output,
    texts,
};
use sk_edge::MemoryDepot;
use std::alloc::{AllocError, Global};
use std::test::Fail;

/// The need of b and c is the room of a and b.
const STRAIGHT: &str =
    "id,clock,time,delay\na,tick:256000,tdt:1000.002,0\nb,tick:512000,tdt:2000.004,0\nc,tick:768000,tdt:3000.010,0\n";

const BENT: &str =
    "id,clock,time,delay\na,tick:256000,tdt:1000.002,0\nb,tick:512000,tdt:2000.004,0\nc,tick:768000,tdt:3000.011,0\n";

/// The first pair needs most, and the last one leaves least.
const APART: &str =
    "id,clock,time,delay\na,tick:0,tdt:0,0\nb,tick:256,tdt:1.002,0\nc,tick:512,tdt:2.002,0\nd,tick:768,tdt:2.9,0\n";

/// Three lines; the middle one meets three observations.
const STEPS: &str =
    "id,clock,time,delay\na,1/1:0,tdt:0,0\nb,1/2:0,tdt:1,0\nc,1/3:0,tdt:9,0\nd,1/4:0,tdt:10,0\ne,1/5:0,tdt:11,0\nf,1/6:0,tdt:50,0\n";

/// The middle one is 50 ns above the line of the others.
const KINK: &str =
    "id,clock,time,delay\na,tick:0,tdt:0,0\nb,tick:100,tdt:0.00000005,0\nc,tick:200,tdt:0,0\n";

const ACROSS: &str =
    "id,clock,time,delay\na,tick:999744,tdt:1,0\nb,2/0:0,tdt:2,0\nc,2/1:0,tdt:3,0\n";

const DATED: &str =
    "id,clock,time,delay\na,1/1000:0,utc:2000-01-01T12:15:36.816,1000\nb,1/2000:0,tdt:2001,0\n";

/// The kernel's first triple begins behind the observations.
const LATE: &str = "SCLK01_COEFFICIENTS_99 = (\n25600000 1 1\n)\n\\begintext\n";

const TWO_LINES: &str = "least;2\na;b;bent:3:4:2:3\nc;c;last\n";

/// A kernel of these parts, observations and a leap second kernel.
fn files_for(
    alloc: Global,
    parts: &[&str],
    observations: &str,
) -> Result<Vec<(String, Vec<u8>)>, AllocError> {
    let mut held = files(alloc, parts, observations)?;
    held.push((
        String::from_str(alloc, "l")?,
        LEAPS.as_bytes().to_vec(alloc)?,
    ))?;
    Ok(held)
}

#[test]
fn the_fewest_lines_are_told(rt: HostRuntime) -> Result<(), Fail> {
    let alloc = rt.alloc();
    let plain: &[&str] = &[KERNEL, CLOCK, SHAPE, SPAN, TRIPLE];
    let split: &[&str] = &[KERNEL, CLOCK, SHAPE, SPANS, TRIPLE];
    let late: &[&str] = &[KERNEL, CLOCK, SHAPE, SPAN, LATE];
    let table: [(&[&str], &str, &str, &str); 11] = [
        (plain, STRAIGHT, "--leap=l", "least;1\na;c;last\n"),
        (plain, BENT, "--leap=l", TWO_LINES),
        (plain, HEADER, "--leap=l", "least;0\n"),
        (plain, STRAIGHT, "--tol-ns=1000", TWO_LINES),
        (plain, BENT, "--tol-ns=2000000", "least;1\na;c;last\n"),
        (
            plain,
            APART,
            "--leap=l",
            "least;2\na;c;bent:2:3:4:5\nd;d;last\n",
        ),
        (
            plain,
            STEPS,
            "--hold=0",
            "least;3\na;b;bent:3:4:2:3\nc;e;bent:6:7:4:6\nf;f;last\n",
        ),
        (plain, KINK, "--tol-ns=25", "least;1\na;c;last\n"),
        (
            late,
            KINK,
            "--tol-ns=24",
            "least;2\na;b;bent:2:3:3:4\nc;c;last\n",
        ),
        (
            split,
            ACROSS,
            "--reject=1",
            "least;2\na;a;partition\nb;c;last\n",
        ),
        (plain, DATED, "--leap=l", "least;1\na;b;last\n"),
    ];
    for (parts, observations, option, text) in table {
        let words = texts(
            alloc,
            &["least", "--kernel=k", "--obs=o", "--sc=99", option],
        )?;
        let held = files_for(alloc, parts, observations)?;
        let mut depot = MemoryDepot::new(held, vec![in alloc; 1]?, Vec::new(alloc));
        let mut out = output(alloc, Vec::new(alloc))?;
        let mut notes = output(alloc, Vec::new(alloc))?;
        let status = run(alloc, &words, &mut depot, &mut out, &mut notes);
        assert_eq!(rt; out.written(), text.as_bytes());
        assert_eq!(rt; status.code(), 0, "{text}");
        assert!(rt; notes.written().is_empty());
    }
    Ok(())
}

#[test]
fn what_cannot_be_read_is_refused(rt: HostRuntime) -> Result<(), Fail> {
    let alloc = rt.alloc();
    let plain: &[&str] = &[KERNEL, CLOCK, SHAPE, SPAN, TRIPLE];
    let barycentric: &[&str] = &[KERNEL, SYSTEM, SHAPE, SPAN, TRIPLE];
    let table: [(&[&str], &str, &str, u8, &str); 8] = [
        (
            plain,
            STRAIGHT,
            "--tol-ns=0",
            2,
            "refused;2;OutOfRange;tol-ns\n",
        ),
        (
            plain,
            STRAIGHT,
            "--tol-ns=60000000001",
            2,
            "refused;2;OutOfRange;tol-ns\n",
        ),
        (
            barycentric,
            "",
            "--leap=k",
            3,
            "refused;3;Leap;Missing;DELTET/DELTA_T_A\n",
        ),
        (
            barycentric,
            "",
            "--leap=l",
            4,
            "refused;4;Clock;Barycentric\n",
        ),
        (plain, "", "--leap=l", 5, "refused;5;Header\n"),
        (
            plain,
            DATED,
            "--tol-ns=1",
            5,
            "refused;5;Record;2;UtcRefused;BeforeTable\n",
        ),
        (
            plain,
            "id,clock,time,delay\na,tick:5,tdt:1,0\nb,tick:5,tdt:1,0\n",
            "--leap=l",
            5,
            "refused;5;Record;3;OutOfOrder\n",
        ),
        (plain, STRAIGHT, "--leap=n", 7, "refused;7;Leap\n"),
    ];
    for (parts, observations, option, code, line) in table {
        let words = texts(
            alloc,
            &["least", "--kernel=k", "--obs=o", "--sc=99", option],
        )?;
        let held = files_for(alloc, parts, observations)?;
        let mut depot = MemoryDepot::new(held, vec![in alloc; 1]?, Vec::new(alloc));
        let mut out = output(alloc, Vec::new(alloc))?;
        let mut notes = output(alloc, Vec::new(alloc))?;
        let status = run(alloc, &words, &mut depot, &mut out, &mut notes);
        assert_eq!(rt; first_line(notes.written()), line.as_bytes());
        assert_eq!(rt; status.code(), code, "{line}");
        assert!(rt; out.written().is_empty());
    }
    Ok(())
}

#[test]
fn each_call_of_the_depot_fails(rt: HostRuntime) -> Result<(), Fail> {
    let alloc = rt.alloc();
    let plain: &[&str] = &[KERNEL, CLOCK, SHAPE, SPAN, TRIPLE];
    for call in 1..11u64 {
        let words = texts(
            alloc,
            &["least", "--leap=l", "--kernel=k", "--obs=o", "--sc=99"],
        )?;
        let held = files_for(alloc, plain, BENT)?;
        let mut depot = MemoryDepot::new(held, Vec::new(alloc), vec![in alloc; call]?);
        let mut out = output(alloc, Vec::new(alloc))?;
        let mut notes = output(alloc, Vec::new(alloc))?;
        let status = run(alloc, &words, &mut depot, &mut out, &mut notes);
        // A file is chosen, read, and read at its end.
        let (code, line, text) = match call {
            1..=3 => (7, "refused;7;Leap\n", ""),
            4..=6 => (7, "refused;7;Kernel\n", ""),
            7..=9 => (7, "refused;7;Observations\n", ""),
            _ => (0, "", TWO_LINES),
        };
        assert_eq!(rt; status.code(), code, "at {call}");
        assert_eq!(rt; first_line(notes.written()), line.as_bytes());
        assert_eq!(rt; out.written(), text.as_bytes());
    }
    Ok(())
}

#[test]
fn each_call_of_the_output_fails(rt: HostRuntime) -> Result<(), Fail> {
    let alloc = rt.alloc();
    let plain: &[&str] = &[KERNEL, CLOCK, SHAPE, SPAN, TRIPLE];
    let words = texts(alloc, &["least", "--kernel=k", "--obs=o", "--sc=99"])?;
    for call in 1..5usize {
        let held = files(alloc, plain, BENT)?;
        let mut depot = MemoryDepot::new(held, Vec::new(alloc), Vec::new(alloc));
        let mut out = output(alloc, vec![in alloc; call as u64]?)?;
        let mut notes = output(alloc, Vec::new(alloc))?;
        let status = run(alloc, &words, &mut depot, &mut out, &mut notes);
        assert_eq!(rt; status.code(), 8, "at {call}");
        assert_eq!(rt; out.written(), &TWO_LINES.as_bytes()[..10 * (call - 1)]);
        assert_eq!(rt;
            first_line(notes.written()),
            b"refused;8;Write\n".as_slice()
        );
    }
    Ok(())
}
