use super::*;
use crate::tests::{CLOCK, KERNEL, SHAPE, SPAN, TRIPLE, files, first_line, output, texts};
use sk_edge::{MemoryDepot, MemorySink};
use std::alloc::{AllocError, Global};
use std::test::Fail;

const TWO: &str =
    "id,clock,time,delay\na,tick:256000,tdt:1000.002,0\nb,tick:512000,tdt:2000.004,0\n";

const SECOND: &str = "SCLK01_COEFFICIENTS_99 = (\n0 0 1.000002\n)\n\\begintext\n";

const LATE: &str = "SCLK01_COEFFICIENTS_99 = (\n256001 0 1\n)\n\\begintext\n";

const NO_TRIPLES: &str = "\\begintext\n";

const UNREADABLE: &str = "(A) = 1\n";

/// A picture of these observations by the first kernel, and by one of these triples; what is written, and then what is noted
/// first. Calls of the depot fail as told.
fn said(
    alloc: Global,
    observations: &str,
    second: &str,
    failing: Vec<u64>,
) -> Result<Vec<u8>, AllocError> {
    let mut held = files(alloc, &[KERNEL, CLOCK, SHAPE, SPAN, TRIPLE], observations)?;
    let mut words = texts(alloc, &["plot", "--kernel=k", "--obs=o", "--sc=99"])?;
    if !second.is_empty() {
        let mut new = Vec::new(alloc);
        for part in [KERNEL, CLOCK, SHAPE, SPAN, second] {
            new.extend_from_slice(part.as_bytes())?;
        }
        held.push((String::from_str(alloc, "n")?, new))?;
        words.push(String::from_str(alloc, "--new=n")?)?;
    }
    let mut depot = MemoryDepot::new(held, Vec::new(alloc), failing);
    let mut out = MemorySink::new(
        vec![in alloc; 10]?,
        Vec::new(alloc),
        vec![in alloc; 0; 20000]?,
    );
    let mut notes = output(alloc, Vec::new(alloc))?;
    run(alloc, &words, &mut depot, &mut out, &mut notes);
    let mut said = Vec::new(alloc);
    said.extend_from_slice(out.written())?;
    said.extend_from_slice(first_line(notes.written()))?;
    Ok(said)
}

fn holds(text: &[u8], part: &[u8]) -> bool {
    if part.is_empty() {
        return true;
    }
    text.windows(part.len()).any(|window| window == part)
}

// By independent arithmetic.
const MARKS: &str =
    "<text x=\"120\" y=\"72\">Residuals by --kernel in microseconds: 2 of 2 outside 1000.000000, the worst 4000.000000 of b</text>
<circle class=\"outside\" fill=\"#c00020\" cx=\"198.70\" cy=\"220.00\" r=\"2.5\"><title>a 1/0000001000:000 2000.000000 us</title></circle>
<circle class=\"outside\" fill=\"#c00020\" cx=\"777.40\" cy=\"140.00\" r=\"2.5\"><title>b 1/0000002000:000 4000.000000 us</title></circle>
";

const SECOND_MARKS: &str =
    "<text x=\"120\" y=\"532\">Residuals by --new in microseconds: 0 of 2 outside 1000.000000, the worst 0.000000 of a</text>
<circle class=\"inside\" fill=\"#1d4f91\" cx=\"198.70\" cy=\"760.00\" r=\"2.5\"><title>a 1/0000001000:000 0.000000 us</title></circle>
<circle class=\"inside\" fill=\"#1d4f91\" cx=\"777.40\" cy=\"760.00\" r=\"2.5\"><title>b 1/0000002000:000 0.000000 us</title></circle>
";

const FOOT: &str =
    "<text x=\"120\" font-size=\"11\" y=\"1012\">station 0.9.0 plot --kernel=k --obs=o --sc=99</text>\n</svg>\n";

const SECOND_FOOT: &str =
    "<text x=\"120\" font-size=\"11\" y=\"1472\">station 0.9.0 plot --kernel=k --obs=o --sc=99 --new=n</text>\n</svg>\n";

#[test]
fn a_second_kernel_has_a_panel(rt: HostRuntime) -> Result<(), Fail> {
    let alloc = rt.alloc();
    let one = said(alloc, TWO, "", Vec::new(alloc))?;
    assert!(rt; holds(one.as_slice(), MARKS.as_bytes()));
    assert!(rt; one.as_slice().ends_with(FOOT.as_bytes()));
    assert_eq!(rt; one.len(), 5_170);
    let both = said(alloc, TWO, SECOND, Vec::new(alloc))?;
    for part in [MARKS, SECOND_MARKS] {
        assert!(rt; holds(both.as_slice(), part.as_bytes()), "{part}");
    }
    assert!(rt; both.as_slice().ends_with(SECOND_FOOT.as_bytes()));
    assert_eq!(rt; both.len(), 7_168);
    Ok(())
}

#[test]
fn the_second_kernel_is_refused_last(rt: HostRuntime) -> Result<(), Fail> {
    let alloc = rt.alloc();
    let table: [(&str, &str, &str); 4] = [
        ("", UNREADABLE, "refused;5;Header\n"),
        (TWO, UNREADABLE, "refused;12;Grammar;16;BadName\n"),
        (TWO, NO_TRIPLES, "refused;12;Triples;Missing\n"),
        (TWO, LATE, "refused;5;Range;2;BeforeFirst\n"),
    ];
    for (observations, second, line) in table {
        let answer = said(alloc, observations, second, Vec::new(alloc))?;
        assert_eq!(rt; answer.as_slice(), line.as_bytes());
    }
    Ok(())
}

#[test]
fn each_call_of_the_depot_fails(rt: HostRuntime) -> Result<(), Fail> {
    let alloc = rt.alloc();
    for call in 1..10u64 {
        let answer = said(alloc, TWO, SECOND, vec![in alloc; call]?)?;
        // A file is chosen, read, and read at its end; the second kernel last.
        let line = match call {
            1..=3 => "refused;7;Kernel\n",
            4..=6 => "refused;7;Observations\n",
            _ => "refused;7;New\n",
        };
        assert_eq!(rt; answer.as_slice(), line.as_bytes());
    }
    Ok(())
}
