use super::*;
use crate::tests::{first_line, leap_files_of};
use sk_edge::{MemoryDepot, MemorySink};
use std::alloc::{AllocError, Global};
use std::test::Fail;

/// Words that a newcomer may write, the line that refuses them, and the cure that is told behind it.
const WORD_SLIPS: [(&str, &str, &str); 26] = [
    (
        "",
        "refused;2;NotTaken\n",
        "usage: station COMMAND --NAME=VALUE ..",
    ),
    (
        "normal|-o|x",
        "refused;2;NotTaken\n",
        "unexpected argument '-o' found",
    ),
    (
        "normal|--kernal=k",
        "refused;2;NotTaken\n",
        "a similar argument exists: '--kernel'",
    ),
    (
        "normal|--kernel=k|--kernel=k",
        "refused;2;NotTaken\n",
        "'--kernel <kernel>' cannot be used multiple times",
    ),
    (
        "normal|--kernel|=|x",
        "refused;2;NotTaken\n",
        "no blank beside the =",
    ),
    ("convert|--sc|-99", "refused;2;NotTaken\n", "--sc=-99"),
    (
        "normal|again",
        "refused;2;NotTaken\n",
        "unexpected argument 'again' found",
    ),
    (
        "normal|--kernel",
        "refused;2;NotTaken\n",
        "a value is required for '--kernel <kernel>' but none was supplied",
    ),
    (
        "normal|--help",
        "refused;2;NotTaken\n",
        "station help COMMAND",
    ),
    (
        "publis",
        "refused;2;UnknownCommand\n",
        "the commands are publish residuals normal convert sample invert audit excerpt least",
    ),
    (
        "Publish",
        "refused;2;UnknownCommand\n",
        "in small letters and in full",
    ),
    (
        "residuals|--kernel=k|--sc=99",
        "refused;2;NeedOption;obs\n",
        "--obs=FILE: observations, csv with the header id,clock,time,delay",
    ),
    (
        "audit|--kernel=k|--obs=o|--sc=99",
        "refused;2;NeedOption;new\n",
        "--new=FILE: second clock kernel: to be judged, or drawn too",
    ),
    (
        "audit|--kernel=k|--obs=o|--sc=99|--new=missing",
        "refused;7;New\n",
        "missing (--new):",
    ),
    (
        "normal|--kernel=k|--tol-ns=1e6",
        "refused;2;OutOfRange;tol-ns\n",
        "a whole number from 1 to 60000000000, in digits alone",
    ),
    (
        "normal|--kernel=k|--tol-ns=1_000",
        "refused;2;OutOfRange;tol-ns\n",
        "no point, exponent, _ or blank",
    ),
    (
        "normal|--kernel=k|--tol-ns=1_000",
        "refused;2;OutOfRange;tol-ns\n",
        "--tol-ns=1_000:",
    ),
    (
        "normal|--kernel=missing",
        "refused;7;Kernel\n",
        "missing (--kernel):",
    ),
    (
        "normal|--kernel=-",
        "refused;7;Kernel\n",
        "is it a file (no folder, and not -)?",
    ),
    (
        "residuals|--kernel=k|--obs=o|--sc=98",
        "refused;4;Clock;Missing;DataType\n",
        "Is --sc the number at the end of SCLK01_MODULI_n in the file?",
    ),
    (
        "residuals|--kernel=k|--obs=o|--sc=98",
        "refused;4;Clock;Missing;DataType\n",
        "k (--kernel), spacecraft 98:",
    ),
    (
        "residuals|--leap=k|--kernel=l|--obs=o|--sc=99",
        "refused;3;Leap;Missing;DELTET/DELTA_T_A\n",
        "Are the files of --leap and --kernel swapped?",
    ),
    (
        "invert|--kernel=k|--sc=99|--time=utc:2024-01-22T00:00:00",
        "refused;10;Utc;BeforeTable\n",
        "no --leap was given",
    ),
    (
        "invert|--leap=l|--kernel=k|--sc=99|--time=utc:1971-01-22T00:00:00",
        "refused;10;Utc;BeforeTable\n",
        "before the first date of the leap seconds kernel",
    ),
    (
        "convert|--kernel=k|--sc=99|--clock=1099511627775",
        "refused;5;Clock;Text;OutsidePartition\n",
        "Write tick:NUMBER",
    ),
    (
        "convert|--kernel=k|--sc=99|--clock=noon",
        "refused;5;Clock;Text;BadText\n",
        "--clock=noon:",
    ),
];

/// Observation files that a newcomer may write, the line that refuses them, and the cure that is told behind it.
const FILE_SLIPS: [(&str, &str, &str); 26] = [
    (
        "clock,id,time,delay\n",
        "refused;5;Header\n",
        "stand in another order",
    ),
    (
        "clock,id,time,delay\n",
        "refused;5;Header\n",
        "in this order: id,clock,time,delay.",
    ),
    (
        "ID,Clock,Time,Delay\n",
        "refused;5;Header\n",
        "Write it in small letters",
    ),
    (
        "id, clock, time, delay\n",
        "refused;5;Header\n",
        "white space beside the header",
    ),
    (
        "id,clock,time,delay,note\n",
        "refused;5;Header\n",
        "The header has four names alone",
    ),
    (
        "id,clock,time\n",
        "refused;5;Header\n",
        "Is a column or a comma missing?",
    ),
    (
        "id;clock;time;delay\n",
        "refused;5;Header\n",
        "Write commas in place of semicolons or tabs",
    ),
    (
        "i\0d\0,\0c\0l\0o\0c\0k\0",
        "refused;5;Header\n",
        "Save the file as UTF-8.",
    ),
    (
        "# made by hand\nid,clock,time,delay\n",
        "refused;5;Header\n",
        "Remove that line: the header comes first.",
    ),
    (
        "# made\n# by hand\nid,clock,time,delay\n",
        "refused;5;Header\n",
        "Remove each line that begins with #.",
    ),
    ("", "refused;5;Header\n", "the file holds no record"),
    (
        "a,tick:256000,tdt:1000,0\n",
        "refused;5;Header\n",
        "Write a first line before it: id,clock,time,delay.",
    ),
    (
        "name,reading,when,late\n",
        "refused;5;Header\n",
        "Write the header just so",
    ),
    (
        "id,clock,time,delay\na, tick:256000, tdt:1000, 0\n",
        "refused;5;Record;2;ClockRefused;Text;BadText\n",
        "Is there a blank before the word",
    ),
    (
        "id,clock,time,delay\na,tick:256000, tdt:1000, 0\n",
        "refused;5;Record;2;TimeForm\n",
        "no blank before it",
    ),
    (
        "id,clock,time,delay\na,1099511627775,tdt:1000,0\n",
        "refused;5;Record;2;ClockRefused;Text;OutsidePartition\n",
        "Write tick:NUMBER",
    ),
    (
        "id,clock,time,delay\na,tick:256000,2024-01-22T00:00:00,0\n",
        "refused;5;Record;2;TimeForm\n",
        "Begin with the mark, as utc:",
    ),
    (
        "id,clock,time,delay\na,tick:256000,utc:2024-01-22 00:00:00,0\n",
        "refused;5;Record;2;TimeForm\n",
        "a T between date and time",
    ),
    (
        "id,clock,time,delay\na,tick:256000,utc:2024-01-22T00:00:00+00:00,0\n",
        "refused;5;Record;2;TimeForm\n",
        "no offset as +00:00",
    ),
    (
        "id,clock,time,delay\na,tick:256000,utc:2024-01-22T00:00:00.1234567890123,0\n",
        "refused;5;Record;2;TimeForm\n",
        "at most 12 decimals",
    ),
    (
        "id,clock,time,delay\na,tick:256000,utc:2024-01-22T00:00:00,0\n",
        "refused;5;Record;2;UtcRefused;BeforeTable\n",
        "Give --leap=FILE",
    ),
    (
        "id,clock,time,delay\na,tick:256000,tdt:1000,-1250700000\n",
        "refused;5;Record;2;BadDelay\n",
        "without sign and point",
    ),
    (
        "id,clock,time,delay\na,tick:256000,tdt:1000,1.2507\n",
        "refused;5;Record;2;BadDelay\n",
        "in nanoseconds",
    ),
    (
        "id,clock,time,delay\na,tick:256000,tdt:1000,0\nb,tick:1,tdt:1000,0\n",
        "refused;5;Record;3;OutOfOrder\n",
        "Sort the records by tick",
    ),
    (
        "id,clock,time,delay\na,tick:256000,tdt:1000,0\nb,tick:256000,tdt:1000,0\n",
        "refused;5;Record;3;OutOfOrder\n",
        "of two with the same tick leave one out",
    ),
    (
        "id,clock,time,delay\na,tick:256000,tdt:1000,0\nb,tick:1,tdt:1000,0\n",
        "refused;5;Record;3;OutOfOrder\n",
        "grep -n . FILE | sed -n 3p",
    ),
];

/// Observations that no allowed rate meets, the line that refuses them, and what is told behind it.
const RATE_SLIPS: [(&str, &str, &str); 4] = [
    (
        "id,clock,time,delay\na,tick:256000,tdt:1100,0\n",
        "refused;6;NoRate;2\n",
        "the record lies 100000000.000000 us after that line.",
    ),
    (
        "id,clock,time,delay\na,tick:256000,tdt:1000.002,0\nx,tick:384000,tdt:1400,0\n",
        "refused;6;NoRate;3\n",
        "at record 2 (0.000813 us after the line) or too large at record 3 (100003000.002687 us before it).",
    ),
    (
        "id,clock,time,delay\na,tick:256000,tdt:1000.002,0\nx,tick:384000,tdt:1600,0\n",
        "refused;6;NoRate;3\n",
        "at record 3 (99996999.997313 us after the line) or too large at record 2 (0.000813 us after it).",
    ),
    (
        "id,clock,time,delay\na,tick:256000,tdt:1000.002,0\nb,tick:512000,tdt:2000.006,0\nx,tick:768000,tdt:3100,0\n",
        "refused;6;NoRate;4\n",
        "at record 4 (99991749.986743 us after the line) or too large at record 2 (749.997257 us before it).",
    ),
];

/// The words between the bars.
fn split_words(alloc: Global, words: &str) -> Result<Vec<String>, AllocError> {
    let mut all = Vec::new(alloc);
    for word in words.split('|') {
        if !word.is_empty() {
            all.push(String::from_str(alloc, word)?)?;
        }
    }
    Ok(all)
}

/// What is noted of a run with these words over a kernel, these observations and a leap seconds kernel.
fn noted(alloc: Global, words: &str, observations: &str) -> Result<MemorySink, AllocError> {
    let words = split_words(alloc, words)?;
    let held = leap_files_of(alloc, observations)?;
    let mut depot = MemoryDepot::new(held, Vec::new(alloc), Vec::new(alloc));
    let mut out = MemorySink::new(Vec::new(alloc), Vec::new(alloc), vec![in alloc; 0; 300]?);
    let mut notes = MemorySink::new(Vec::new(alloc), Vec::new(alloc), vec![in alloc; 0; 2000]?);
    run(alloc, &words, &mut depot, &mut out, &mut notes);
    Ok(notes)
}

/// The text stands somewhere in the bytes.
fn tells(bytes: &[u8], text: &str) -> bool {
    match std::str::from_utf8(bytes) {
        Ok(whole) => whole.contains(text),
        Err(_) => false,
    }
}

/// Each line behind the first begins with two blanks.
fn are_set_in(notes: &[u8]) -> bool {
    match std::str::from_utf8(notes) {
        Ok(whole) => whole
            .split('\n')
            .skip(1)
            .all(|line| line.is_empty() || line.starts_with("  ")),
        Err(_) => false,
    }
}

#[test]
fn each_slip_of_the_words_leads_to_its_cure(rt: HostRuntime) -> Result<(), Fail> {
    let alloc = rt.alloc();
    for (words, line, cure) in WORD_SLIPS {
        let notes = noted(alloc, words, "id,clock,time,delay\n")?;
        assert_eq!(rt; first_line(notes.written()), line.as_bytes(), "{words}");
        assert!(rt; tells(notes.written(), cure), "{words} {cure}");
        assert!(rt; are_set_in(notes.written()), "{words}");
    }
    Ok(())
}

#[test]
fn each_slip_of_the_observations_leads_to_its_cure(rt: HostRuntime) -> Result<(), Fail> {
    let alloc = rt.alloc();
    for (observations, line, cure) in FILE_SLIPS {
        let notes = noted(alloc, "residuals|--kernel=k|--obs=o|--sc=99", observations)?;
        assert_eq!(rt;
            first_line(notes.written()),
            line.as_bytes(),
            "{observations}"
        );
        assert!(rt; tells(notes.written(), cure), "{observations} {cure}");
        assert!(rt; tells(notes.written(), "o (--obs)"), "{observations}");
        assert!(rt; are_set_in(notes.written()), "{observations}");
    }
    Ok(())
}

#[test]
fn a_record_without_a_rate_leads_to_the_pair(rt: HostRuntime) -> Result<(), Fail> {
    let alloc = rt.alloc();
    for (observations, line, told) in RATE_SLIPS {
        let notes = noted(alloc, "publish|--kernel=k|--obs=o|--sc=99", observations)?;
        assert_eq!(rt;
            first_line(notes.written()),
            line.as_bytes(),
            "{observations}"
        );
        assert!(rt; tells(notes.written(), told), "{observations} {told}");
        assert!(rt; are_set_in(notes.written()), "{observations}");
    }
    Ok(())
}
