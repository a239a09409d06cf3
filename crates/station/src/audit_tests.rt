use super::*;
use crate::tests::{
    CLOCK, HEADER, KERNEL, LEAPS, SHAPE, SPAN, TRIPLE, files, first_line, output, texts,
};
use sk_edge::{MemoryDepot, MemorySink};
use std::alloc::{AllocError, Global};
use std::test::Fail;

const TWO: &str =
    "id,clock,time,delay\na,tick:256000,tdt:1000.002,0\nb,tick:512000,tdt:2000.004,0\n";

const THREE: &str =
    "id,clock,time,delay\na,tick:256000,tdt:1000.002,0\nb,tick:512000,tdt:2000.004,0\nc,tick:768000,tdt:3000.010,0\n";

const STRAY: &str =
    "id,clock,time,delay\na,tick:256000,tdt:1000.002,0\nx,tick:384000,tdt:1600,0\nb,tick:512000,tdt:2000.004,0\n";

const UNDATED: &str = TRIPLE;

const DATED: &str = "SCLK01_COEFFICIENTS_99 = (\n0\n@2000-JAN-1-12:00\n1\n)\n\\begintext\n";

const OTHER_LETTERS: &str = "SCLK01_COEFFICIENTS_99 = (\n0\n@2000-Jan-1-12:00\n1\n)\n\\begintext\n";

const ONE_LINE: &str =
    "\\begindata\nSCLK01_COEFFICIENTS_99 += (\n1 0.00390625 1.000002\n)\n\\begintext\nresiduals;2\na;1/0000001000:000;1000.002000000000;1000.001999992187;7813;2;new;\nb;1/0000002000:000;2000.004000000000;2000.003999992187;7813;2;new;last\n";

const IN_ANOTHER_LAYOUT: &str =
    "\\begindata\r\n\r\n\tSCLK01_COEFFICIENTS_99 += (1,3.90625E-3,\n  1.000002000 )\n\\begintext\nresiduals;2\r\na;1/0000001000:000;1000.002000000000;1000.001999992187;7813;2;new;\nb;1/0000002000:000;2000.004000000000;2000.003999992187;7813;2;new;last";

const ONE_STEP_LESS: &str =
    "\\begindata\nSCLK01_COEFFICIENTS_99 += (\n1 0.00390625 1.000001999\n)\n\\begintext\nresiduals;2\na;1/0000001000:000;1000.002000000000;1000.001999992187;7813;2;new;\nb;1/0000002000:000;2000.004000000000;2000.003999992187;7813;2;new;last\n";

const BY_A_DATE: &str =
    "\\begindata\nSCLK01_COEFFICIENTS_99 += (\n1 @2000-01-01T12:00:00.00390625 1.000002\n)\n\\begintext\nresiduals;2\na;1/0000001000:000;1000.002000000000;1000.001999992187;7813;2;new;\nb;1/0000002000:000;2000.004000000000;2000.003999992187;7813;2;new;last\n";

const TWO_LINES: &str =
    "\\begindata\nSCLK01_COEFFICIENTS_99 += (\n1 0.00390625 1.000002\n512000 2000.003999992188 1.000006\n)\n\\begintext\nresiduals;3\na;1/0000001000:000;1000.002000000000;1000.001999992187;7813;2;new;\nb;1/0000002000:000;2000.004000000000;2000.003999992188;7812;3;new;blocked:4:3\nc;1/0000003000:000;3000.010000000000;3000.009999992188;7812;3;new;last\n";

const ANOTHER_PAIR: &str =
    "\\begindata\nSCLK01_COEFFICIENTS_99 += (\n1 0.00390625 1.000002\n512000 2000.003999992188 1.000006\n)\n\\begintext\nresiduals;3\na;1/0000001000:000;1000.002000000000;1000.001999992187;7813;2;new;\nb;1/0000002000:000;2000.004000000000;2000.003999992188;7812;3;new;blocked:4:4\nc;1/0000003000:000;3000.010000000000;3000.009999992188;7812;3;new;last\n";

const WITHOUT_THE_STRAY: &str =
    "\\begindata\nSCLK01_COEFFICIENTS_99 += (\n1 0.00390625 1.000002\n)\n\\begintext\nresiduals;3\na;1/0000001000:000;1000.002000000000;1000.001999992187;7813;2;new;\nx;1/0000001500:000;1600.000000000000;1500.002999992187;99997000007813;2;dropped;\nb;1/0000002000:000;2000.004000000000;2000.003999992187;7813;2;new;last\n";

const NAMED: &str = "\\begindata\nSCLK_KERNEL_ID = @2024-02-01\n\\begintext\nresiduals;0\n";

const UNREADABLE: &str = "\\begindata\n(A) = 1\n";

const NINE: &str = "--rate-decimals=9";

/// The old kernel, the observations, a leap second kernel, and the new kernel of these triples and this block.
fn held(
    alloc: Global,
    old: &str,
    observations: &str,
    triples: &str,
    block: &str,
) -> Result<Vec<(String, Vec<u8>)>, AllocError> {
    let mut held = files(alloc, &[KERNEL, CLOCK, SHAPE, SPAN, old], observations)?;
    held.push((
        String::from_str(alloc, "l")?,
        LEAPS.as_bytes().to_vec(alloc)?,
    ))?;
    let mut new = Vec::new(alloc);
    for part in [KERNEL, CLOCK, SHAPE, SPAN, triples, block] {
        new.extend_from_slice(part.as_bytes())?;
    }
    held.push((String::from_str(alloc, "n")?, new))?;
    Ok(held)
}

/// An audit with nine decimals of a rate and up to two further options.
fn words_with(alloc: Global, first: &str, second: &str) -> Result<Vec<String>, AllocError> {
    let mut words = texts(
        alloc,
        &["audit", "--kernel=k", "--obs=o", "--sc=99", "--new=n"],
    )?;
    for option in [first, second] {
        if !option.is_empty() {
            words.push(String::from_str(alloc, option)?)?;
        }
    }
    Ok(words)
}

/// The first option, where it is not the nine decimals.
fn besides(option: &str) -> &str {
    if option == NINE { "" } else { option }
}

/// What an audit writes, and then what it notes first.
fn said(
    alloc: Global,
    old: &str,
    observations: &str,
    option: &str,
    new: (&str, &str),
) -> Result<Vec<u8>, AllocError> {
    let (triples, block) = new;
    let words = words_with(alloc, NINE, besides(option))?;
    let files = held(alloc, old, observations, triples, block)?;
    let mut depot = MemoryDepot::new(files, vec![in alloc; 100]?, Vec::new(alloc));
    let mut out = output(alloc, Vec::new(alloc))?;
    let mut notes = output(alloc, Vec::new(alloc))?;
    run(alloc, &words, &mut depot, &mut out, &mut notes);
    let mut said = Vec::new(alloc);
    said.extend_from_slice(out.written())?;
    said.extend_from_slice(first_line(notes.written()))?;
    Ok(said)
}

#[test]
fn publications_are_accepted(rt: HostRuntime) -> Result<(), Fail> {
    let alloc = rt.alloc();
    let answer = said(alloc, UNDATED, TWO, NINE, (UNDATED, ONE_LINE))?;
    assert_eq!(rt; answer.as_slice(), "yes\n".as_bytes());
    let answer = said(alloc, UNDATED, THREE, NINE, (UNDATED, TWO_LINES))?;
    assert_eq!(rt; answer.as_slice(), "yes\n".as_bytes());
    let answer = said(
        alloc,
        UNDATED,
        STRAY,
        "--reject=1",
        (UNDATED, WITHOUT_THE_STRAY),
    )?;
    assert_eq!(rt; answer.as_slice(), "yes\n".as_bytes());
    let answer = said(alloc, UNDATED, TWO, NINE, (UNDATED, IN_ANOTHER_LAYOUT))?;
    assert_eq!(rt; answer.as_slice(), "yes\n".as_bytes());
    let answer = said(alloc, UNDATED, HEADER, NINE, (UNDATED, NAMED))?;
    assert_eq!(rt; answer.as_slice(), "yes\n".as_bytes());
    let answer = said(alloc, DATED, TWO, NINE, (DATED, ONE_LINE))?;
    assert_eq!(rt; answer.as_slice(), "yes\n".as_bytes());
    Ok(())
}

#[test]
fn other_documents_are_told(rt: HostRuntime) -> Result<(), Fail> {
    let alloc = rt.alloc();
    let answer = said(
        alloc,
        UNDATED,
        TWO,
        "--hold=1099511627776",
        (UNDATED, ONE_LINE),
    )?;
    assert_eq!(rt; answer.as_slice(), "refused;11;Settings\n".as_bytes());
    let answer = said(alloc, UNDATED, TWO, NINE, (UNDATED, ""))?;
    assert_eq!(rt; answer.as_slice(), "refused;11;Standing\n".as_bytes());
    let answer = said(alloc, DATED, TWO, NINE, (UNDATED, ONE_LINE))?;
    assert_eq!(rt; answer.as_slice(), "refused;11;Standing\n".as_bytes());
    let answer = said(alloc, UNDATED, TWO, NINE, (DATED, ONE_LINE))?;
    assert_eq!(rt; answer.as_slice(), "refused;11;Standing\n".as_bytes());
    let answer = said(alloc, DATED, TWO, NINE, (OTHER_LETTERS, ONE_LINE))?;
    assert_eq!(rt; answer.as_slice(), "refused;11;Standing\n".as_bytes());
    let answer = said(
        alloc,
        UNDATED,
        TWO,
        NINE,
        (UNDATED, "A\n\\begindata\nA = ("),
    )?;
    assert_eq!(rt;
        answer.as_slice(),
        "refused;12;Grammar;22;Unfinished\n".as_bytes()
    );
    Ok(())
}

#[test]
fn other_publications_are_told(rt: HostRuntime) -> Result<(), Fail> {
    let alloc = rt.alloc();
    let answer = said(alloc, DATED, TWO, NINE, (DATED, BY_A_DATE))?;
    assert_eq!(rt; answer.as_slice(), "refused;11;Items\n".as_bytes());
    let answer = said(alloc, UNDATED, TWO, NINE, (UNDATED, ONE_STEP_LESS))?;
    assert_eq!(rt; answer.as_slice(), "refused;11;Chain\n".as_bytes());
    let answer = said(alloc, UNDATED, TWO, "--hold=0", (UNDATED, TWO_LINES))?;
    assert_eq!(rt; answer.as_slice(), "refused;11;Chain\n".as_bytes());
    let answer = said(alloc, UNDATED, THREE, NINE, (UNDATED, ANOTHER_PAIR))?;
    assert_eq!(rt; answer.as_slice(), "refused;11;Table;3\n".as_bytes());
    Ok(())
}

#[test]
fn each_call_of_the_depot_fails(rt: HostRuntime) -> Result<(), Fail> {
    let alloc = rt.alloc();
    for call in 1..14u64 {
        let words = words_with(alloc, NINE, "--leap=l")?;
        let files = held(alloc, UNDATED, TWO, UNDATED, ONE_LINE)?;
        let mut depot = MemoryDepot::new(files, Vec::new(alloc), vec![in alloc; call]?);
        let mut out = output(alloc, Vec::new(alloc))?;
        let mut notes = output(alloc, Vec::new(alloc))?;
        let status = run(alloc, &words, &mut depot, &mut out, &mut notes);
        // A file is chosen, read, and read at its end; the new one last.
        let (code, line, text) = match call {
            1..=3 => (7, "refused;7;Leap\n", ""),
            4..=6 => (7, "refused;7;Kernel\n", ""),
            7..=9 => (7, "refused;7;Observations\n", ""),
            10..=12 => (7, "refused;7;New\n", ""),
            _ => (0, "", "yes\n"),
        };
        assert_eq!(rt; status.code(), code, "at {call}");
        assert_eq!(rt; first_line(notes.written()), line.as_bytes());
        assert_eq!(rt; out.written(), text.as_bytes());
    }
    Ok(())
}

/// What is noted first of an audit of the new kernel of this block, over these observations.
fn noted(
    alloc: Global,
    observations: &str,
    block: &str,
    option: &str,
) -> Result<MemorySink, AllocError> {
    let words = words_with(alloc, option, "")?;
    let files = held(alloc, UNDATED, observations, UNDATED, block)?;
    let mut depot = MemoryDepot::new(files, Vec::new(alloc), Vec::new(alloc));
    let mut out = output(alloc, Vec::new(alloc))?;
    let mut notes = output(alloc, Vec::new(alloc))?;
    run(alloc, &words, &mut depot, &mut out, &mut notes);
    Ok(notes)
}

#[test]
fn the_new_kernel_is_read_last(rt: HostRuntime) -> Result<(), Fail> {
    let alloc = rt.alloc();
    let table: [(&str, &str, &str, &str); 4] = [
        (TWO, ONE_LINE, "--tol-ns=0", "refused;2;OutOfRange;tol-ns\n"),
        ("", UNREADABLE, "--leap=l", "refused;5;Header\n"),
        (
            TWO,
            UNREADABLE,
            "--leap=l",
            "refused;12;Grammar;21;BadName\n",
        ),
        (
            TWO,
            UNREADABLE,
            "--leap=k",
            "refused;3;Leap;Missing;DELTET/DELTA_T_A\n",
        ),
    ];
    for (observations, block, option, line) in table {
        let notes = noted(alloc, observations, block, option)?;
        assert_eq!(rt; first_line(notes.written()), line.as_bytes());
    }
    Ok(())
}
