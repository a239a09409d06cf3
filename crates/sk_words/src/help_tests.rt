use super::*;
use std::alloc::Global;
use std::test::Fail;

/// The page that these words ask for.
fn asked(alloc: Global, words: &[&str]) -> Result<Vec<u8>, Fail> {
    match topic_of(words) {
        Some(topic) => Ok(page(alloc, topic)?),
        None => Err("no topic".into()),
    }
}

#[test]
fn the_version_stands_in_one_line(rt: HostRuntime) -> Result<(), Fail> {
    let alloc = rt.alloc();
    let long = asked(alloc, ["station", "--version"].as_slice())?;
    let short = asked(alloc, ["station", "-V"].as_slice())?;
    assert!(rt; long.as_slice() == b"station 0.9.0\n".as_slice());
    assert!(rt; short.as_slice() == b"station 0.9.0\n".as_slice());
    Ok(())
}

#[test]
fn three_words_ask_for_the_whole_help(rt: HostRuntime) -> Result<(), Fail> {
    let alloc = rt.alloc();
    let first = asked(alloc, ["station", "help"].as_slice())?;
    for word in ["--help", "-h"] {
        let words = ["station", word];
        let other = asked(alloc, words.as_slice())?;
        assert!(rt; other.as_slice() == first.as_slice(), "{word}");
    }
    let parts: [&str; 10] = [
        "station 0.9.0: keeps a spacecraft clock kernel (NAIF SCLK type 1), exactly\n\nusage: ",
        "\n  publish             new triples, with the residual table as comments\n",
        "\n                      needs --kernel --obs --sc\n",
        "\n  normal              the kernel in canonical layout\n                      needs --kernel\n",
        "\n  --tol-ns=N          how far an observation may lie from the line, ns\n",
        "\n                      1 to 60000000000; 1000000 where it is not given\n",
        "\n  --sc=N              number of the spacecraft, with NAIF's minus sign or not\n                      1 to 999999999\n",
        "\n  audit               whether a kernel is what the options and files publish\n                      needs --kernel --obs --sc --new\n",
        "\n  --new=FILE          second clock kernel: to be judged, or drawn too\n",
        "\n\nStatus: 0 done, ",
    ];
    for part in parts {
        assert!(rt; holds(first.as_slice(), part.as_bytes()), "{part}");
    }
    Ok(())
}

fn holds(text: &[u8], part: &[u8]) -> bool {
    if part.is_empty() {
        return true;
    }
    text.windows(part.len()).any(|window| window == part)
}

const OF_RESIDUALS: &str =
    "station residuals: how far each observation lies from the kernel\n\nusage: station residuals --kernel=FILE --obs=FILE --sc=N [OPTION ..]\n\nOptions\n";

const ITS_FILES: &str =
    "  --leap=FILE         leap seconds kernel; times as utc: and cds: need it\n  --kernel=FILE       clock kernel\n";

const ITS_OTHERS: &str =
    "  --obs=FILE          observations, csv with the header id,clock,time,delay\n  --sc=N              number of the spacecraft, with NAIF's minus sign or not\n                      1 to 999999999\n";

const ITS_REMARKS: &str =
    "\nWrites a line for each observation: id, clock reading, observed TDT, TDT by the\nkernel, difference in ps, triple and kind. TDT is in seconds past J2000.\n";

#[test]
fn a_command_has_a_page_of_its_own(rt: HostRuntime) -> Result<(), Fail> {
    let alloc = rt.alloc();
    let mut expected = Vec::new(alloc);
    for part in [OF_RESIDUALS, ITS_FILES, ITS_OTHERS, ITS_REMARKS] {
        expected.extend_from_slice(part.as_bytes())?;
    }
    let given = asked(alloc, ["station", "help", "residuals"].as_slice())?;
    assert!(rt; given.as_slice() == expected.as_slice());
    let normal = asked(alloc, ["station", "help", "normal"].as_slice())?;
    assert!(rt; holds(normal.as_slice(), b"usage: station normal --kernel=FILE\n"));
    Ok(())
}

#[test]
fn no_line_has_more_than_eighty_columns(rt: HostRuntime) -> Result<(), Fail> {
    let alloc = rt.alloc();
    let mut pages = Vec::new(alloc);
    pages.push(page(alloc, Topic::Program)?)?;
    pages.push(page(alloc, Topic::Version)?)?;
    for command in Command::all() {
        pages.push(page(alloc, Topic::Of(*command))?)?;
    }
    for text in pages.iter() {
        assert!(rt; text.as_slice().ends_with(b"\n"));
        for line in text.as_slice().split(|byte| *byte == b'\n') {
            assert!(rt; line.len() <= 80);
        }
    }
    Ok(())
}

#[test]
fn other_words_have_no_topic(rt: HostRuntime) {
    let table: [&[&str]; 10] = [
        &[],
        &["station"],
        &["station", "normal"],
        &["station", "Help"],
        &["station", "--Version"],
        &["station", "--help", "normal"],
        &["station", "normal", "--help"],
        &["station", "help", "frob"],
        &["station", "help", "normal", "more"],
        &["station", "--", "help"],
    ];
    for (place, words) in table.iter().enumerate() {
        assert!(rt; topic_of(words).is_none(), "at {place}");
    }
}
