use super::*;
use crate::tests::{
    CLOCK, HEADER, KERNEL, SHAPE, SPAN, SPANS, TRIPLE, files, first_line, leap_files_of, texts,
};
use sk_edge::{MemoryDepot, MemorySink};
use std::alloc::{AllocError, Global};
use std::test::Fail;

const PLAIN: [&str; 5] = [KERNEL, CLOCK, SHAPE, SPAN, TRIPLE];

const SPLIT: [&str; 5] = [KERNEL, CLOCK, SHAPE, SPANS, TRIPLE];

/// Two observations, on a line that is slower by 2 parts of a million.
const SLOW: &str =
    "id,clock,time,delay\na,tick:256000,tdt:1000.002,0\nb,tick:512000,tdt:2000.004,0\n";

const FAR_OFF: &str = "id,clock,time,delay\na,tick:256000,tdt:1100,0\n";

const NEXT: &str = "id,clock,time,delay\na,2/0:0,tdt:4000,0\n";

const EARLIER: &str = "id,clock,time,delay\na,2/0:0,tdt:3900,0\n";

const SLOW_BLOCK: &str =
    "\\begindata\nSCLK01_COEFFICIENTS_99 += (\n1 0.00390625 1.000002\n)\n\\begintext\nresiduals;2\na;1/0000001000:000;1000.002000000000;1000.001999992187;7813;2;new;\nb;1/0000002000:000;2000.004000000000;2000.003999992187;7813;2;new;last\n";

const HELD_BLOCK: &str =
    "\\begindata\nSCLK01_COEFFICIENTS_99 += (\n128000 500 1.000002666\n)\n\\begintext\nresiduals;2\na;1/0000001000:000;1000.002000000000;1000.001333000000;667000000;2;new;\nb;1/0000002000:000;2000.004000000000;2000.003999000000;1000000;2;new;last\n";

const NEXT_BLOCK: &str =
    "\\begindata\nSCLK01_COEFFICIENTS_99 += (\n1000000 4000 1\n)\n\\begintext\nresiduals;1\na;2/0000000000:000;4000.000000000000;4000.000000000000;0;2;new;last\n";

const DROPPED_BLOCK: &str =
    "\\begindata\n\\begintext\nresiduals;1\na;1/0000001000:000;1100.000000000000;1000.000000000000;100000000000000;1;dropped;\n";

const NAMED_BLOCK: &str = "\\begindata\nSCLK_KERNEL_ID = @2024-02-01\n\\begintext\nresiduals;0\n";

/// An output with room for 2,000 bytes, which takes ten bytes a write.
fn wide_output(alloc: Global, failing: Vec<u64>) -> Result<MemorySink, AllocError> {
    Ok(MemorySink::new(vec![in alloc; 10]?, failing, vec![in alloc; 0; 2000]?))
}

/// The kernel of these parts with a block behind it; nothing where there is no block.
fn published(alloc: Global, parts: &[&str], block: &str) -> Result<Vec<u8>, AllocError> {
    let mut text = Vec::new(alloc);
    if block.is_empty() {
        return Ok(text);
    }
    for part in parts {
        text.extend_from_slice(part.as_bytes())?;
    }
    text.extend_from_slice(block.as_bytes())?;
    Ok(text)
}

const WORDS: [&str; 6] = [
    "publish",
    "--leap=l",
    "--kernel=k",
    "--obs=o",
    "--sc=99",
    "--rate-decimals=9",
];

#[test]
fn each_call_of_the_depot_fails(rt: HostRuntime) -> Result<(), Fail> {
    let alloc = rt.alloc();
    let text = published(alloc, &PLAIN, SLOW_BLOCK)?;
    for call in 1..11u64 {
        let words = texts(alloc, &WORDS)?;
        let held = leap_files_of(alloc, SLOW)?;
        let mut depot = MemoryDepot::new(held, Vec::new(alloc), vec![in alloc; call]?);
        let mut out = wide_output(alloc, Vec::new(alloc))?;
        let mut notes = wide_output(alloc, Vec::new(alloc))?;
        let status = run(alloc, &words, &mut depot, &mut out, &mut notes);
        // A file is chosen, read, and read at its end.
        let (code, line) = match call {
            1..=3 => (7, "refused;7;Leap\n"),
            4..=6 => (7, "refused;7;Kernel\n"),
            7..=9 => (7, "refused;7;Observations\n"),
            _ => (0, ""),
        };
        let written: &[u8] = if code == 0 { text.as_slice() } else { &[] };
        assert_eq!(rt; status.code(), code, "at {call}");
        assert_eq!(rt; first_line(notes.written()), line.as_bytes());
        assert_eq!(rt; out.written(), written);
    }
    Ok(())
}

#[test]
fn each_call_of_the_output_fails(rt: HostRuntime) -> Result<(), Fail> {
    let alloc = rt.alloc();
    let text = published(alloc, &PLAIN, SLOW_BLOCK)?;
    // The text has 549 bytes.
    for call in 1..57usize {
        let words = texts(alloc, &WORDS)?;
        let held = leap_files_of(alloc, SLOW)?;
        let mut depot = MemoryDepot::new(held, vec![in alloc; 7]?, Vec::new(alloc));
        let mut out = wide_output(alloc, vec![in alloc; call as u64]?)?;
        let mut notes = wide_output(alloc, Vec::new(alloc))?;
        let status = run(alloc, &words, &mut depot, &mut out, &mut notes);
        let written = text.len().min(10 * (call - 1));
        let code = if call <= 55 { 8 } else { 0 };
        assert_eq!(rt; status.code(), code, "at {call}");
        assert_eq!(rt; out.written(), &text[..written]);
    }
    Ok(())
}

/// A kernel with one partition, or with two.
fn parts(is_split: bool) -> [&'static str; 5] {
    if is_split { SPLIT } else { PLAIN }
}

/// The words that publish the observations with up to two options.
fn words_with(alloc: Global, first: &str, second: &str) -> Result<Vec<String>, AllocError> {
    let mut words = texts(alloc, &["publish", "--kernel=k", "--obs=o", "--sc=99"])?;
    if !first.is_empty() {
        words.push(String::from_str(alloc, first)?)?;
    }
    if !second.is_empty() {
        words.push(String::from_str(alloc, second)?)?;
    }
    Ok(words)
}

const NINE: &str = "--rate-decimals=9";

#[test]
fn kernels_are_published(rt: HostRuntime) -> Result<(), Fail> {
    let alloc = rt.alloc();
    let table = [
        (false, SLOW, NINE, "", 0, SLOW_BLOCK, ""),
        (false, SLOW, NINE, "--hold=128000", 0, HELD_BLOCK, ""),
        (false, FAR_OFF, "", "", 6, "", "refused;6;NoRate;2\n"),
        (false, FAR_OFF, "--reject=1", "", 0, DROPPED_BLOCK, ""),
        (false, HEADER, "--id=2024-02-01", "", 0, NAMED_BLOCK, ""),
        (true, NEXT, "", "", 0, NEXT_BLOCK, ""),
        (true, EARLIER, "", "", 6, "", "refused;6;TimeFalls;2\n"),
        (
            true,
            NEXT,
            "--hold=1000000",
            "",
            6,
            "",
            "refused;6;BadHold\n",
        ),
        (
            false,
            SLOW,
            "--id=2024-02-30",
            "",
            2,
            "",
            "refused;2;OutOfRange;id\n",
        ),
    ];
    for (is_split, observations, first, second, code, block, line) in table {
        let parts = parts(is_split);
        let words = words_with(alloc, first, second)?;
        let held = files(alloc, &parts, observations)?;
        let mut depot = MemoryDepot::new(held, vec![in alloc; 1]?, Vec::new(alloc));
        let mut out = wide_output(alloc, Vec::new(alloc))?;
        let mut notes = wide_output(alloc, Vec::new(alloc))?;
        let status = run(alloc, &words, &mut depot, &mut out, &mut notes);
        let text = published(alloc, &parts, block)?;
        assert_eq!(rt; first_line(notes.written()), line.as_bytes());
        assert_eq!(rt; out.written(), text.as_slice());
        assert_eq!(rt; status.code(), code);
    }
    Ok(())
}
