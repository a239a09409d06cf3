use super::*;
use crate::tests::{CLOCK, KERNEL, SHAPE, SPAN, first_line, output, texts};
use sk_edge::{MemoryDepot, MemorySink};
use std::alloc::{AllocError, Global};
use std::test::Fail;

/// Times as numbers and as dates; a list with a date among its values stands one value a line.
const MIXED: &str = "0 0 1 256 @2000-01-01T12:00:01 1 512 2.5 1 768 @2000-001/12:00:03.5 1";

/// A further triple, by a number and by a date.
const NEXT: &str = "\\begindata\nSCLK01_COEFFICIENTS_99 += ( 512 2.5 1 )\n";

const DATED: &str = "\\begindata\nSCLK01_COEFFICIENTS_99 += ( 512 @2000-jan-01-12:00:02.5 1 )\n";

/// Other coefficients and one variable more, with a head and a comment.
const ANEW: &str =
    "another head\n\\begindata\nSCLK01_COEFFICIENTS_99 = ( 256 1 1 )\nA = 'x'\n\\begintext\na comment\n";

/// A kernel in a producer's layout, and its text from the head to the coefficients.
const PRODUCED: &str =
    "KPL/SCLK\n\nClock kernel of spacecraft -99.\n\n\\begindata\n\nSCLK_KERNEL_ID           = ( @2000-01-02/12:00 )\n\nSCLK_DATA_TYPE_99        = ( 1 )\nSCLK01_TIME_SYSTEM_99    = ( 2 )\nSCLK01_N_FIELDS_99       = ( 2 )\nSCLK01_MODULI_99         = ( 4294967296  256 )\nSCLK01_OFFSETS_99        = ( 0  0 )\nSCLK01_OUTPUT_DELIM_99   = ( 1 )\n\nSCLK_PARTITION_START_99  = ( 0.0000000000000E+00 )\nSCLK_PARTITION_END_99    = ( 1.0995116277750E+12 )\n\n";

const ITS_TRIPLES: &str =
    "SCLK01_COEFFICIENTS_99   = (\n\n    0.0000000000000E+00    0.0000000000000E+00    1.0000000000000E+00\n    2.2118400000000E+07    8.6400000100000E+04    1.0000000010000E+00\n\n)\n\n\\begintext\n";

const ITS_EXCERPT: &str =
    "KPL/SCLK\n\nClock kernel of spacecraft -99.\n\n\\begindata\nSCLK_KERNEL_ID = @2000-01-02/12:00\nSCLK_DATA_TYPE_99 = 1\nSCLK01_TIME_SYSTEM_99 = 2\nSCLK01_N_FIELDS_99 = 2\nSCLK01_MODULI_99 = (\n4294967296 256\n)\nSCLK01_OFFSETS_99 = (\n0 0\n)\nSCLK01_OUTPUT_DELIM_99 = 1\nSCLK_PARTITION_START_99 = 0\nSCLK_PARTITION_END_99 = 1099511627775\nSCLK01_COEFFICIENTS_99 = (\n22118400 86400.0001 1.000000001\n)\n\\begintext\n";

/// The kernel `k` with these coefficients, and the files `v` and `w`.
fn files_of(
    alloc: Global,
    coefficients: &str,
    v: &str,
    w: &str,
) -> Result<Vec<(String, Vec<u8>)>, AllocError> {
    let kernel = format!(in alloc;
        "{KERNEL}{CLOCK}{SHAPE}{SPAN}SCLK01_COEFFICIENTS_99 = ( {coefficients} )\n\\begintext\na comment\n"
    )?;
    let mut files = Vec::new(alloc);
    push_file(&mut files, alloc, "k", kernel.as_str())?;
    push_file(&mut files, alloc, "v", v)?;
    push_file(&mut files, alloc, "w", w)?;
    Ok(files)
}

fn push_file(
    files: &mut Vec<(String, Vec<u8>)>,
    alloc: Global,
    name: &str,
    text: &str,
) -> Result<(), AllocError> {
    files.push((
        String::from_str(alloc, name)?,
        text.as_bytes().to_vec(alloc)?,
    ))?;
    Ok(())
}

/// The words of an excerpt; without `--over` where there is no name.
fn words_of(alloc: Global, over: &str, from: &str, to: &str) -> Result<Vec<String>, AllocError> {
    let mut words = texts(alloc, &["excerpt", "--kernel=k", "--sc=99"])?;
    words.push(format!(in alloc; "--from={from}")?)?;
    words.push(format!(in alloc; "--to={to}")?)?;
    if !over.is_empty() {
        words.push(format!(in alloc; "--over={over}")?)?;
    }
    Ok(words)
}

/// An output with room for 1000 bytes.
fn wide_output(alloc: Global) -> Result<MemorySink, AllocError> {
    let room = vec![in alloc; 0; 1000]?;
    Ok(MemorySink::new(vec![in alloc; 100]?, Vec::new(alloc), room))
}

#[test]
fn triples_of_a_range_are_kept(rt: HostRuntime) -> Result<(), Fail> {
    let alloc = rt.alloc();
    let two = "256\n@2000-01-01T12:00:01\n1\n512\n2.5\n1\n768\n@2000-001/12:00:03.5\n1";
    let table: [(&str, &str, &str, &str, &str, &str); 9] = [
        ("0 0 1", NEXT, "v", "0", "600", "0 0 1\n512 2.5 1"),
        ("0 0 1", NEXT, "v", "0", "511", "0 0 1"),
        ("0 0 1", NEXT, "v", "512", "1099511627775", "512 2.5 1"),
        // Nothing of a file that is not named.
        ("0 0 1", NEXT, "", "0", "600", "0 0 1"),
        (
            "0 0 1",
            DATED,
            "v",
            "0",
            "600",
            "0\n0\n1\n512\n@2000-jan-01-12:00:02.5\n1",
        ),
        (MIXED, "", "", "256", "900", two),
        (MIXED, "", "", "512", "767", "512 2.5 1"),
        (MIXED, "", "", "0", "0", "0 0 1"),
        // Ticks of as many digits as there may be.
        (
            MIXED,
            "",
            "",
            "0000000000000512",
            "0000000000000512",
            "512 2.5 1",
        ),
    ];
    for (coefficients, v, over, from, to, left) in table {
        let expected = format!(in alloc;
            "{KERNEL}{CLOCK}{SHAPE}{SPAN}SCLK01_COEFFICIENTS_99 = (\n{left}\n)\n\\begintext\n"
        )?;
        let held = files_of(alloc, coefficients, v, "")?;
        let mut depot = MemoryDepot::new(held, vec![in alloc; 1]?, Vec::new(alloc));
        let mut out = wide_output(alloc)?;
        let mut notes = output(alloc, Vec::new(alloc))?;
        let words = words_of(alloc, over, from, to)?;
        let status = run(alloc, &words, &mut depot, &mut out, &mut notes);
        assert_eq!(rt; out.written(), expected.as_bytes());
        assert_eq!(rt; status.code(), 0, "{from} to {to}");
        assert!(rt; notes.written().is_empty());
    }
    Ok(())
}

#[test]
fn a_kernel_in_its_own_layout(rt: HostRuntime) -> Result<(), Fail> {
    let alloc = rt.alloc();
    let mut kernel = PRODUCED.as_bytes().to_vec(alloc)?;
    kernel.extend_from_slice(ITS_TRIPLES.as_bytes())?;
    let mut held = Vec::new(alloc);
    held.push((String::from_str(alloc, "k")?, kernel))?;
    let mut depot = MemoryDepot::new(held, Vec::new(alloc), Vec::new(alloc));
    let mut out = wide_output(alloc)?;
    let mut notes = output(alloc, Vec::new(alloc))?;
    let words = words_of(alloc, "", "22118400", "30000000")?;
    let status = run(alloc, &words, &mut depot, &mut out, &mut notes);
    assert_eq!(rt; out.written(), ITS_EXCERPT.as_bytes());
    assert_eq!(rt; status.code(), 0);
    assert!(rt; notes.written().is_empty());
    Ok(())
}

/// A later file goes over those before it; its head and its comments are left out.
#[test]
fn files_are_joined_in_their_order(rt: HostRuntime) -> Result<(), Fail> {
    let alloc = rt.alloc();
    let table: [(&str, &str, &str, &str); 4] = [
        ("v,w", "256", "600", "256 1 1\n512 2.5 1"),
        ("w,v", "256", "600", "256 1 1"),
        ("v,w,v", "300", "300", "256 1 1"),
        // As many files as there may be.
        ("v,v,v,v,v,v,v,v,v,v,v,v,v,v,v,w", "512", "600", "512 2.5 1"),
    ];
    for (over, from, to, left) in table {
        let expected = format!(in alloc;
            "{KERNEL}{CLOCK}{SHAPE}{SPAN}SCLK01_COEFFICIENTS_99 = (\n{left}\n)\nA = 'x'\n\\begintext\n"
        )?;
        let held = files_of(alloc, "0 0 1", ANEW, NEXT)?;
        let mut depot = MemoryDepot::new(held, vec![in alloc; 7]?, Vec::new(alloc));
        let mut out = wide_output(alloc)?;
        let mut notes = output(alloc, Vec::new(alloc))?;
        let words = words_of(alloc, over, from, to)?;
        let status = run(alloc, &words, &mut depot, &mut out, &mut notes);
        assert_eq!(rt; out.written(), expected.as_bytes());
        assert_eq!(rt; status.code(), 0, "{over}");
    }
    Ok(())
}

#[test]
fn excerpts_are_refused(rt: HostRuntime) -> Result<(), Fail> {
    let alloc = rt.alloc();
    let open = "\\begindata\nSCLK01_COEFFICIENTS_99 += ( 512 2.5 1\n";
    let mixed = "\\begindata\nSCLK01_COEFFICIENTS_99 += 'x'\n";
    let barycentric = "\\begindata\nSCLK01_TIME_SYSTEM_99 = 1\n";
    let early = "\\begindata\nSCLK01_COEFFICIENTS_99 += ( 0 5 1 )\n";
    let many = "w,w,w,w,w,w,w,w,w,w,w,w,w,w,w,w,w";
    let table: [(&str, &str, &str, &str, u8, &str); 18] = [
        ("", "", "5", "4", 13, "refused;13;BadRange\n"),
        ("", "", "0", "1099511627776", 13, "refused;13;BadRange\n"),
        ("", "", "257", "1099511627776", 13, "refused;13;BadRange\n"),
        ("", "", "255", "256", 13, "refused;13;BeforeFirst\n"),
        (
            "",
            "",
            "256",
            "9007199254740992",
            2,
            "refused;2;OutOfRange;to\n",
        ),
        ("", "", "-1", "256", 2, "refused;2;OutOfRange;from\n"),
        (NEXT, many, "256", "256", 2, "refused;2;OutOfRange;over\n"),
        (NEXT, "v,,w", "256", "256", 2, "refused;2;OutOfRange;over\n"),
        (NEXT, ",v", "256", "256", 2, "refused;2;OutOfRange;over\n"),
        (NEXT, "v,", "256", "256", 2, "refused;2;OutOfRange;over\n"),
        (
            open,
            "v",
            "256",
            "256",
            14,
            "refused;14;1;Grammar;2;Unfinished\n",
        ),
        (
            open,
            "w,v",
            "5",
            "4",
            14,
            "refused;14;2;Grammar;2;Unfinished\n",
        ),
        (
            open,
            "v,z",
            "5",
            "4",
            14,
            "refused;14;1;Grammar;2;Unfinished\n",
        ),
        (open, "z,v", "5", "4", 7, "refused;7;Over;1\n"),
        (open, "w,z,v", "5", "4", 7, "refused;7;Over;2\n"),
        // Items are counted over all files; what they mean is judged before the range.
        (mixed, "w,v", "5", "4", 4, "refused;4;Pool;AppendMixed;12\n"),
        (
            barycentric,
            "v",
            "5",
            "4",
            4,
            "refused;4;Clock;Barycentric\n",
        ),
        (
            early,
            "w,v",
            "5",
            "4",
            4,
            "refused;4;Triples;OutOfOrder;2\n",
        ),
    ];
    for (v, over, from, to, code, line) in table {
        let held = files_of(alloc, "256 1 1", v, "\\begindata\nA = 1\n")?;
        let mut depot = MemoryDepot::new(held, vec![in alloc; 1]?, Vec::new(alloc));
        let mut out = wide_output(alloc)?;
        let mut notes = output(alloc, Vec::new(alloc))?;
        let words = words_of(alloc, over, from, to)?;
        let status = run(alloc, &words, &mut depot, &mut out, &mut notes);
        assert_eq!(rt; first_line(notes.written()), line.as_bytes());
        assert_eq!(rt; status.code(), code, "{line}");
        assert!(rt; out.written().is_empty());
    }
    Ok(())
}

#[test]
fn each_call_of_the_depot_fails(rt: HostRuntime) -> Result<(), Fail> {
    let alloc = rt.alloc();
    for call in 1..11u64 {
        let held = files_of(alloc, "0 0 1", NEXT, "\\begindata\nA = 1\n")?;
        let mut depot = MemoryDepot::new(held, Vec::new(alloc), vec![in alloc; call]?);
        let mut out = wide_output(alloc)?;
        let mut notes = output(alloc, Vec::new(alloc))?;
        let words = words_of(alloc, "v,w", "5", "4")?;
        let status = run(alloc, &words, &mut depot, &mut out, &mut notes);
        // A file is chosen, read, and read at its end; only then the range is judged.
        let (code, line) = match call {
            1..=3 => (7, "refused;7;Kernel\n"),
            4..=6 => (7, "refused;7;Over;1\n"),
            7..=9 => (7, "refused;7;Over;2\n"),
            _ => (13, "refused;13;BadRange\n"),
        };
        assert_eq!(rt; status.code(), code, "at {call}");
        assert_eq!(rt; first_line(notes.written()), line.as_bytes());
        assert!(rt; out.written().is_empty(), "at {call}");
    }
    Ok(())
}
