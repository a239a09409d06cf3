use super::*;
use sk_edge::{MemoryDepot, MemorySink};
use std::alloc::{AllocError, Global};
use std::test::Fail;

/// A clock with one triple: tick 0 at time 0, 256 ticks and one second a count. Its text is canonical.
pub const KERNEL: &str =
    "KPL/SCLK\n\\begindata\nSCLK_KERNEL_ID = @2024-01-01\nSCLK_DATA_TYPE_99 = 1\n";

pub const CLOCK: &str =
    "SCLK01_TIME_SYSTEM_99 = 2\nSCLK01_N_FIELDS_99 = 2\nSCLK01_MODULI_99 = (\n4294967296 256\n)\n";

pub const SHAPE: &str = "SCLK01_OFFSETS_99 = (\n0 0\n)\nSCLK01_OUTPUT_DELIM_99 = 2\n";

pub const SPAN: &str = "SCLK_PARTITION_START_99 = 0\nSCLK_PARTITION_END_99 = 1099511627775\n";

pub const TRIPLE: &str = "SCLK01_COEFFICIENTS_99 = (\n0 0 1\n)\n\\begintext\n";

const LATER: &str = "SCLK01_COEFFICIENTS_99 = (\n256 1 1\n)\n\\begintext\n";

pub const SYSTEM: &str = "SCLK01_N_FIELDS_99 = 2\nSCLK01_MODULI_99 = (\n4294967296 256\n)\n";

/// A first partition of 1,000,000 ticks, and a second one.
pub const SPANS: &str =
    "SCLK_PARTITION_START_99 = (\n0 0\n)\nSCLK_PARTITION_END_99 = (\n1000000 1099511627775\n)\n";

/// A time before J2000, and a rate of which no tick takes whole picoseconds.
pub const EARLY: &str = "SCLK01_COEFFICIENTS_99 = (\n0 -1 1.000000000001\n)\n\\begintext\n";

/// A time before any leap seconds, and one past 9·10^9 s.
const FAR: &str = "SCLK01_COEFFICIENTS_99 = (\n0 -1000000000 1\n256 9500000000 1\n)\n\\begintext\n";

pub const LEAPS: &str =
    "\\begindata\nDELTET/DELTA_T_A = 32.184\nDELTET/DELTA_AT = (\n31 @1997-JUL-1\n32 @1999-JAN-1\n33 @2006-JAN-1\n)\n\\begintext\n";

pub const HEADER: &str = "id,clock,time,delay\n";

const ROW: &str = "id,clock,time,delay\na,tick:256000,tdt:1000,0\n";

const TABLE: &str =
    "residuals;1\na;1/0000001000:000;1000.000000000000;1000.000000000000;0;1;old;\n";

const WORDS: [&str; 4] = ["residuals", "--kernel=k", "--obs=o", "--sc=99"];

pub fn texts(alloc: Global, words: &[&str]) -> Result<Vec<String>, AllocError> {
    let mut texts = Vec::new(alloc);
    for word in words {
        texts.push(String::from_str(alloc, word)?)?;
    }
    Ok(texts)
}

/// A kernel of these parts and a file of observations.
pub fn files(
    alloc: Global,
    parts: &[&str],
    observations: &str,
) -> Result<Vec<(String, Vec<u8>)>, AllocError> {
    let mut kernel = Vec::new(alloc);
    for part in parts {
        kernel.extend_from_slice(part.as_bytes())?;
    }
    let mut files = Vec::new(alloc);
    files.push((String::from_str(alloc, "k")?, kernel))?;
    files.push((
        String::from_str(alloc, "o")?,
        observations.as_bytes().to_vec(alloc)?,
    ))?;
    Ok(files)
}

/// The line of a refusal: what was noted up to the first line feed.
pub fn first_line(notes: &[u8]) -> &[u8] {
    match notes.iter().position(|byte| *byte == b'\n') {
        Some(place) => notes.get(..=place).unwrap_or(notes),
        None => notes,
    }
}

/// An output with room for 300 bytes, which takes ten bytes a write.
pub fn output(alloc: Global, failing: Vec<u64>) -> Result<MemorySink, AllocError> {
    Ok(MemorySink::new(vec![in alloc; 10]?, failing, vec![in alloc; 0; 300]?))
}

#[test]
fn words_are_refused_in_their_order(rt: HostRuntime) -> Result<(), Fail> {
    let alloc = rt.alloc();
    let table: [(&[&str], &str); 7] = [
        (&[], "refused;2;NotTaken\n"),
        (&["frob"], "refused;2;UnknownCommand\n"),
        (
            &["residuals", "--kernel", "k"],
            "refused;2;NeedOption;obs\n",
        ),
        (
            &["residuals", "--kernel=k", "--obs=o", "--sc=0"],
            "refused;2;OutOfRange;sc\n",
        ),
        (
            &[
                "residuals",
                "--kernel=k",
                "--obs=o",
                "--sc=99",
                "--band-ppm=0",
            ],
            "refused;2;OutOfRange;band-ppm\n",
        ),
        (
            &["residuals", "--kernel=k", "--kernel=k"],
            "refused;2;NotTaken\n",
        ),
        (&["normal", "--help"], "refused;2;NotTaken\n"),
    ];
    for (words, line) in table {
        let words = texts(alloc, words)?;
        let mut depot = MemoryDepot::new(Vec::new(alloc), Vec::new(alloc), Vec::new(alloc));
        let mut out = output(alloc, Vec::new(alloc))?;
        let mut notes = output(alloc, Vec::new(alloc))?;
        let status = run(alloc, &words, &mut depot, &mut out, &mut notes);
        assert_eq!(rt; status.code(), 2, "{line}");
        assert_eq!(rt; first_line(notes.written()), line.as_bytes());
        assert!(rt; out.written().is_empty(), "{line}");
    }
    Ok(())
}

#[test]
fn residuals_of_a_plain_kernel(rt: HostRuntime) -> Result<(), Fail> {
    let alloc = rt.alloc();
    let plain: &[&str] = &[KERNEL, CLOCK, SHAPE, SPAN, TRIPLE];
    let table: [(&[&str], &str, u8, &str, &str); 6] = [
        (plain, ROW, 0, TABLE, ""),
        (plain, HEADER, 0, "residuals;0\n", ""),
        (
            &[KERNEL, CLOCK, SHAPE, SPAN, LATER],
            "id,clock,time,delay\na,tick:0,tdt:1,0\n",
            5,
            "",
            "refused;5;Range;2;BeforeFirst\n",
        ),
        (
            &[KERNEL, SYSTEM, SHAPE, SPAN, TRIPLE],
            HEADER,
            4,
            "",
            "refused;4;Clock;Barycentric\n",
        ),
        (plain, "", 5, "", "refused;5;Header\n"),
        (
            plain,
            "id,clock,time,delay\na,tick:5,tdt:1,0\nb,tick:5,tdt:1,0\n",
            5,
            "",
            "refused;5;Record;3;OutOfOrder\n",
        ),
    ];
    for (parts, observations, code, text, line) in table {
        let words = texts(alloc, &WORDS)?;
        let pieces = vec![in alloc; 1]?;
        let mut depot = MemoryDepot::new(
            files(alloc, parts, observations)?,
            pieces,
            Vec::new(alloc),
        );
        let mut out = output(alloc, Vec::new(alloc))?;
        let mut notes = output(alloc, Vec::new(alloc))?;
        let status = run(alloc, &words, &mut depot, &mut out, &mut notes);
        assert_eq!(rt; first_line(notes.written()), line.as_bytes());
        assert_eq!(rt; out.written(), text.as_bytes());
        assert_eq!(rt; status.code(), code);
    }
    Ok(())
}

/// A leap second kernel of one pair.
const LEAP: &str =
    "\\begindata\nDELTET/DELTA_T_A = 32.184\nDELTET/DELTA_AT = ( 10 @1972-JAN-1 )\n\\begintext\n";

const LEAP_WORDS: [&str; 5] = ["residuals", "--leap=l", "--kernel=k", "--obs=o", "--sc=99"];

/// The same files, and a leap second kernel before them.
fn leap_files(alloc: Global) -> Result<Vec<(String, Vec<u8>)>, AllocError> {
    leap_files_of(alloc, ROW)
}

/// A kernel, these observations and a leap second kernel.
pub fn leap_files_of(
    alloc: Global,
    observations: &str,
) -> Result<Vec<(String, Vec<u8>)>, AllocError> {
    let kernel: &[&str] = &[KERNEL, CLOCK, SHAPE, SPAN, TRIPLE];
    let mut files = files(alloc, kernel, observations)?;
    files.push((
        String::from_str(alloc, "l")?,
        LEAP.as_bytes().to_vec(alloc)?,
    ))?;
    Ok(files)
}

#[test]
fn each_call_of_the_depot_fails(rt: HostRuntime) -> Result<(), Fail> {
    let alloc = rt.alloc();
    for call in 1..11u64 {
        let words = texts(alloc, &LEAP_WORDS)?;
        let failing = vec![in alloc; call]?;
        let mut depot = MemoryDepot::new(leap_files(alloc)?, Vec::new(alloc), failing);
        let mut out = output(alloc, Vec::new(alloc))?;
        let mut notes = output(alloc, Vec::new(alloc))?;
        let status = run(alloc, &words, &mut depot, &mut out, &mut notes);
        // A file is chosen, read, and read at its end.
        let (code, line) = match call {
            1..=3 => (7, "refused;7;Leap\n"),
            4..=6 => (7, "refused;7;Kernel\n"),
            7..=9 => (7, "refused;7;Observations\n"),
            _ => (0, ""),
        };
        assert_eq!(rt; status.code(), code, "at {call}");
        assert_eq!(rt; first_line(notes.written()), line.as_bytes());
        assert_eq!(rt; out.written().is_empty(), code == 7, "at {call}");
    }
    Ok(())
}

#[test]
fn each_call_of_the_output_fails(rt: HostRuntime) -> Result<(), Fail> {
    let alloc = rt.alloc();
    for call in 1..8usize {
        let words = texts(alloc, &WORDS)?;
        let kernel: &[&str] = &[KERNEL, CLOCK, SHAPE, SPAN, TRIPLE];
        let held = files(alloc, kernel, ROW)?;
        let mut depot = MemoryDepot::new(held, Vec::new(alloc), Vec::new(alloc));
        let mut out = output(alloc, vec![in alloc; call as u64]?)?;
        let mut notes = output(alloc, vec![in alloc; 2]?)?;
        let status = run(alloc, &words, &mut depot, &mut out, &mut notes);
        assert_eq!(rt; status.code(), 8, "at {call}");
        assert_eq!(rt; out.written(), &TABLE.as_bytes()[..10 * (call - 1)]);
        assert_eq!(rt; notes.written(), b"refused;8;".as_slice());
    }
    Ok(())
}

#[test]
fn notes_that_fail_change_no_status(rt: HostRuntime) -> Result<(), Fail> {
    let alloc = rt.alloc();
    let words = texts(alloc, &["residuals", "--kernel=k"])?;
    let mut depot = MemoryDepot::new(Vec::new(alloc), Vec::new(alloc), Vec::new(alloc));
    let mut out = output(alloc, Vec::new(alloc))?;
    let mut notes = output(alloc, vec![in alloc; 1]?)?;
    let status = run(alloc, &words, &mut depot, &mut out, &mut notes);
    assert_eq!(rt; status.code(), 2);
    assert!(rt; notes.written().is_empty());
    assert!(rt; out.written().is_empty());
    Ok(())
}

#[test]
fn pieces_change_nothing(rt: HostRuntime) -> Result<(), Fail> {
    let alloc = rt.alloc();
    for piece in [1, 2, 3, 7] {
        let words = texts(alloc, &LEAP_WORDS)?;
        let mut depot = MemoryDepot::new(
            leap_files(alloc)?,
            vec![in alloc; piece]?,
            Vec::new(alloc),
        );
        let mut out = output(alloc, Vec::new(alloc))?;
        let mut notes = output(alloc, Vec::new(alloc))?;
        let status = run(alloc, &words, &mut depot, &mut out, &mut notes);
        assert_eq!(rt; out.written(), TABLE.as_bytes());
        assert_eq!(rt; status.code(), 0, "of {piece}");
        assert!(rt; notes.written().is_empty());
    }
    Ok(())
}

/// The whole text of the plain kernel.
fn whole_kernel(alloc: Global) -> Result<Vec<u8>, AllocError> {
    let mut kernel = Vec::new(alloc);
    for part in [KERNEL, CLOCK, SHAPE, SPAN, TRIPLE] {
        kernel.extend_from_slice(part.as_bytes())?;
    }
    Ok(kernel)
}

/// The files of a kernel's first bytes, and of no observation.
fn cut_files(alloc: Global, length: usize) -> Result<Vec<(String, Vec<u8>)>, AllocError> {
    let mut kernel = whole_kernel(alloc)?;
    kernel.truncate(length);
    let mut files = Vec::new(alloc);
    files.push((String::from_str(alloc, "k")?, kernel))?;
    files.push((
        String::from_str(alloc, "o")?,
        HEADER.as_bytes().to_vec(alloc)?,
    ))?;
    Ok(files)
}

#[test]
fn a_kernel_that_is_cut(rt: HostRuntime) -> Result<(), Fail> {
    let alloc = rt.alloc();
    let words = texts(alloc, &WORDS)?;
    let length = whole_kernel(alloc)?.len();
    for taken in 0..length + 1 {
        let held = cut_files(alloc, taken)?;
        let mut depot = MemoryDepot::new(held, Vec::new(alloc), Vec::new(alloc));
        let mut out = output(alloc, Vec::new(alloc))?;
        let mut notes = output(alloc, Vec::new(alloc))?;
        let status = run(alloc, &words, &mut depot, &mut out, &mut notes);
        let missing = length - taken;
        let code = match missing {
            0 | 1 | 11 | 12 => 0,
            _ => 4,
        };
        assert_eq!(rt; status.code(), code, "at {taken}");
        if 2 <= missing && missing <= 10 {
            assert_eq!(rt;
                first_line(notes.written()),
                b"refused;4;Grammar;19;NoAssign\n".as_slice()
            );
        }
    }
    Ok(())
}

/// A kernel, and text lines of 4,000 bytes behind it, the last one not ended, up to so many bytes.
fn long_kernel(alloc: Global, length: usize) -> Result<Vec<u8>, AllocError> {
    let mut line = vec![in alloc; b'x'; 3_999]?;
    line.push(b'\n')?;
    let mut kernel = whole_kernel(alloc)?;
    let free = length.saturating_sub(kernel.len());
    for _ in 0..free / line.len() {
        kernel.extend_from_slice(&line)?;
    }
    kernel.extend_from_slice(&line[..free % line.len()])?;
    Ok(kernel)
}

#[test]
fn a_kernel_of_the_limit_and_one_byte_more(rt: HostRuntime) -> Result<(), Fail> {
    let alloc = rt.alloc();
    let words = texts(alloc, &["normal", "--kernel=k"])?;
    // The text of the first is canonical but for the end of its last line.
    let table = [
        (16_777_216, 0, 16_777_217, ""),
        (16_777_217, 4, 0, "refused;4;TooLong\n"),
    ];
    for (length, code, written, line) in table {
        let kernel = long_kernel(alloc, length)?;
        let mut held = Vec::new(alloc);
        held.push((String::from_str(alloc, "k")?, kernel))?;
        let mut depot = MemoryDepot::new(held, Vec::new(alloc), Vec::new(alloc));
        let room = vec![in alloc; 0; 16_777_217]?;
        let mut out = MemorySink::new(Vec::new(alloc), Vec::new(alloc), room);
        let mut notes = output(alloc, Vec::new(alloc))?;
        let status = run(alloc, &words, &mut depot, &mut out, &mut notes);
        assert_eq!(rt; status.code(), code, "of {length}");
        assert_eq!(rt; first_line(notes.written()), line.as_bytes());
        assert_eq!(rt; out.written().len(), written);
    }
    Ok(())
}

#[test]
fn a_file_is_read_on_behind_its_refused_line(rt: HostRuntime) -> Result<(), Fail> {
    let alloc = rt.alloc();
    let kernel: &[&str] = &["\\begindata\nX\nY = 1\n"];
    for call in 1..6u64 {
        let words = texts(alloc, &["normal", "--kernel=k"])?;
        let failing = vec![in alloc; call]?;
        let held = files(alloc, kernel, HEADER)?;
        let mut depot = MemoryDepot::new(held, vec![in alloc; 14]?, failing);
        let mut out = output(alloc, Vec::new(alloc))?;
        let mut notes = output(alloc, Vec::new(alloc))?;
        let status = run(alloc, &words, &mut depot, &mut out, &mut notes);
        // The file is chosen, and read in two pieces and at its end.
        let (code, line) = match call {
            1..=4 => (7, "refused;7;Kernel\n"),
            _ => (4, "refused;4;Grammar;2;NoAssign\n"),
        };
        assert_eq!(rt; status.code(), code, "at {call}");
        assert_eq!(rt; first_line(notes.written()), line.as_bytes());
    }
    Ok(())
}

#[test]
fn a_file_that_is_too_long_behind_its_refused_line(rt: HostRuntime) -> Result<(), Fail> {
    let alloc = rt.alloc();
    let words = texts(alloc, &WORDS)?;
    let mut kernel = b"\\begindata\nX\n".to_vec(alloc)?;
    let blanks = vec![in alloc; b' '; 16_777_217]?;
    kernel.extend_from_slice(&blanks)?;
    let mut held = Vec::new(alloc);
    held.push((String::from_str(alloc, "k")?, kernel))?;
    let mut depot = MemoryDepot::new(held, Vec::new(alloc), Vec::new(alloc));
    let mut out = output(alloc, Vec::new(alloc))?;
    let mut notes = output(alloc, Vec::new(alloc))?;
    let status = run(alloc, &words, &mut depot, &mut out, &mut notes);
    assert_eq!(rt; status.code(), 4);
    assert_eq!(rt;
        first_line(notes.written()),
        b"refused;4;TooLong\n".as_slice()
    );
    Ok(())
}

#[test]
fn files_and_streams_of_the_host(rt: HostRuntime) -> Result<(), Fail> {
    let alloc = rt.alloc();
    let words = texts(
        alloc,
        &["residuals", "--kernel=nowhere", "--obs=o", "--sc=99"],
    )?;
    let mut depot = FileDepot::new(&rt);
    let mut out = StreamSink::new(std::io::writer(&rt));
    let mut notes = output(alloc, Vec::new(alloc))?;
    let status = run(alloc, &words, &mut depot, &mut out, &mut notes);
    assert_eq!(rt; status.code(), 7);
    assert_eq!(rt;
        first_line(notes.written()),
        b"refused;7;Kernel\n".as_slice()
    );
    Ok(())
}

#[test]
fn normal_of_a_kernel(rt: HostRuntime) -> Result<(), Fail> {
    let alloc = rt.alloc();
    let table: [(&str, u8, &str, &str); 4] = [
        (
            "\\begindata\nA = 'don''t'\nX += 3\nY = 1.657D-3\n",
            0,
            "\\begindata\nA = 'don''t'\nX += 3\nY = 0.001657\n\\begintext\n",
            "",
        ),
        (
            "\\begindata\nX = ( 1 2\n",
            4,
            "",
            "refused;4;Grammar;2;Unfinished\n",
        ),
        (
            "\\begindata\nX = 170141183460469231731687303715884105728\n",
            4,
            "",
            "refused;4;Grammar;2;NumberTooWide\n",
        ),
        ("", 0, "", ""),
    ];
    for (kernel, code, text, line) in table {
        let words = texts(alloc, &["normal", "--kernel=k"])?;
        let pieces = vec![in alloc; 1]?;
        let mut depot = MemoryDepot::new(files(alloc, &[kernel], HEADER)?, pieces, Vec::new(alloc));
        let mut out = output(alloc, Vec::new(alloc))?;
        let mut notes = output(alloc, Vec::new(alloc))?;
        let status = run(alloc, &words, &mut depot, &mut out, &mut notes);
        assert_eq!(rt; first_line(notes.written()), line.as_bytes());
        assert_eq!(rt; out.written(), text.as_bytes());
        assert_eq!(rt; status.code(), code);
    }
    Ok(())
}

#[test]
fn clock_words_are_converted(rt: HostRuntime) -> Result<(), Fail> {
    let alloc = rt.alloc();
    let plain: &[&str] = &[KERNEL, CLOCK, SHAPE, SPAN, TRIPLE];
    let split: &[&str] = &[KERNEL, CLOCK, SHAPE, SPANS, TRIPLE];
    let later: &[&str] = &[KERNEL, CLOCK, SHAPE, SPAN, LATER];
    let early: &[&str] = &[KERNEL, CLOCK, SHAPE, SPAN, EARLY];
    let far: &[&str] = &[KERNEL, CLOCK, SHAPE, SPAN, FAR];
    let half = "1/0000001000:128;256128;1000.500000000000;-\n";
    let dated = "1/0000001000:128;256128;1000.500000000000;2000-01-01T12:15:36.316000000000Z\n";
    let next = "2/0000000000:000;1000000;3906.250000000000;-\n";
    let before = "1/0000000000:001;1;-0.996093750000;-\n";
    let old = "1/0000000000:000;0;-1000000000.000000000000;-\n";
    let past = "1/0000000001:000;256;9500000000.000000000000;-\n";
    let outside = "refused;5;Clock;Text;OutsidePartition\n";
    let shape = "refused;5;Clock;Text;WrongShape\n";
    let table: [(&[&str], &[&str], u8, &str, &str); 13] = [
        (plain, &["--clock=1/999:384"], 0, half, ""),
        (plain, &["--leap=l", "--clock=1/1000:128"], 0, dated, ""),
        (split, &["--clock=1/3906:64"], 0, next, ""),
        (split, &["--clock=1/3906:65"], 5, "", outside),
        (plain, &["--clock=cuc:2d000003e880"], 0, half, ""),
        (plain, &["--clock=cuc:2e000003e88000"], 5, "", shape),
        (plain, &["--clock=cuc:2d0"], 5, "", "refused;5;Clock;Hex\n"),
        (
            plain,
            &["--clock=cuc:3d"],
            5,
            "",
            "refused;5;Clock;Cuc;NotCuc\n",
        ),
        (
            later,
            &["--clock=1/0:255"],
            5,
            "",
            "refused;5;Range;0;BeforeFirst\n",
        ),
        (early, &["--clock=tick:1"], 0, before, ""),
        (far, &["--leap=l", "--clock=0"], 0, old, ""),
        (far, &["--leap=l", "--clock=1"], 0, past, ""),
        (plain, &[], 2, "", "refused;2;NeedOption;clock\n"),
    ];
    for (parts, options, code, text, line) in table {
        let mut words = texts(alloc, &["convert", "--kernel=k", "--sc=99"])?;
        for option in options {
            words.push(String::from_str(alloc, option)?)?;
        }
        let mut held = files(alloc, parts, HEADER)?;
        held.push((
            String::from_str(alloc, "l")?,
            LEAPS.as_bytes().to_vec(alloc)?,
        ))?;
        let mut depot = MemoryDepot::new(held, vec![in alloc; 1]?, Vec::new(alloc));
        let mut out = output(alloc, Vec::new(alloc))?;
        let mut notes = output(alloc, Vec::new(alloc))?;
        let status = run(alloc, &words, &mut depot, &mut out, &mut notes);
        assert_eq!(rt; first_line(notes.written()), line.as_bytes());
        assert_eq!(rt; out.written(), text.as_bytes());
        assert_eq!(rt; status.code(), code);
    }
    Ok(())
}
