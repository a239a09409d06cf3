//! Kernel texts, whole and in pieces.

ghost use Rattle.std.specs.Prelude.{◌<◌, ◌≤◌, length};

use sk_grammar::{Doc, GrammarFault, Reader, Reason, read_doc};
use std::alloc::{AllocError, Global};
use std::test::Fail;

/// What reading the bytes answers, as text.
fn told(alloc: Global, answer: &Result<Doc, GrammarFault>) -> Result<String, AllocError> {
    format!(in alloc; "{answer:?}")
}

fn read(alloc: Global, bytes: &[u8]) -> Result<Doc, GrammarFault>
    requires { length bytes.now ≤ 65536 }
{
    read_doc(alloc, bytes)
}

fn fault(alloc: Global, bytes: &[u8]) -> Option<GrammarFault>
    requires { length bytes.now ≤ 65536 }
{
    read(alloc, bytes).err()
}

/// What a reader answers that is fed with pieces of this size.
pub fn read_in_pieces(alloc: Global, bytes: &[u8], size: usize) -> Result<Doc, GrammarFault>
    requires some { 0 < size }
    requires short { length bytes.now ≤ 65536 }
{
    let mut reader = Reader::new(alloc);
    let mut rest = bytes;
    while !rest.is_empty() {
        let (piece, behind) = rest.split_at(size.min(rest.len()));
        // Its last call answers the same fault again.
        let _ = reader.feed(piece);
        rest = behind;
    }
    reader.finish()
}

pub fn at(line: u32, reason: Reason) -> Option<GrammarFault> {
    Some(GrammarFault::At { line, reason })
}

const REFUSED: [(&str, u32, Reason); 28] = [
    ("A B", 2, Reason::NoAssign),
    ("A = ( 1 , , 2 )", 2, Reason::BadComma),
    ("A = ( 1 'x' )", 2, Reason::MixedKinds),
    ("A = ( )", 2, Reason::EmptyVector),
    ("A = 1 2", 2, Reason::AfterValue),
    ("A = 'x", 2, Reason::TextOpen),
    ("A = @", 2, Reason::BadDate),
    ("A = 1x", 2, Reason::BadNumber),
    ("(A) = 1", 2, Reason::BadName),
    ("A = (\n1\n\\begintext", 4, Reason::Unfinished),
    (
        "A = 170141183460469231731687303715884105728",
        2,
        Reason::NumberTooWide,
    ),
    ("A = ( 1, )", 2, Reason::BadComma),
    ("A = ( ,1 )", 2, Reason::BadComma),
    ("A = , 1", 2, Reason::BadComma),
    ("A = )", 2, Reason::BadNumber),
    ("A = ( 1 (", 2, Reason::BadNumber),
    ("A = 1 'x", 2, Reason::AfterValue),
    ("A = ( 'x'1", 2, Reason::MixedKinds),
    ("A = ( 'x'1x", 2, Reason::BadNumber),
    ("=1", 2, Reason::BadName),
    ("+=1", 2, Reason::BadName),
    ("A = \r1", 2, Reason::BadByte),
    ("\\begindata\r ", 2, Reason::BadByte),
    ("A = (\n\\begindata", 3, Reason::Unfinished),
    ("A = ( 1 2", 2, Reason::Unfinished),
    ("A =\n\nB = 1", 4, Reason::BadNumber),
    ("A = 'x''", 2, Reason::TextOpen),
    ("A = 'x\n'", 2, Reason::TextOpen),
];

const TAKEN: [&str; 9] = [
    "A = 170141183460469231731687303715884105727",
    "A = 1\n\r",
    "A+ = 1\nA+=1\nA++=1",
    "A = 0E99999999999999999999",
    "A =\n\n 5",
    "A=1\nA+=2\nA = 3\nA += 4",
    "A = ( 'it''s' '' )",
    "A = ( @a/b:c, 1 )",
    "A = ''''",
];

#[test]
fn a_data_line_is_taken_or_refused_for_its_reason(rt: HostRuntime) -> Result<(), Fail> {
    let alloc = rt.alloc();
    for (lines, line, reason) in &REFUSED {
        let text = format!(in alloc; "\\begindata\n{lines}")?;
        if text.len() <= 65_536 {
            assert_eq!(rt;
                fault(alloc, text.as_bytes()),
                at(*line, *reason),
                "at {lines:?}"
            );
        }
    }
    for lines in &TAKEN {
        let text = format!(in alloc; "\\begindata\n{lines}")?;
        if text.len() <= 65_536 {
            assert_eq!(rt; fault(alloc, text.as_bytes()), None, "at {lines:?}");
        }
    }
    Ok(())
}

/// A front, so many of one byte, a back, and the row of the refusal.
const LONG: [(&str, u8, usize, &str, Option<(u32, Reason)>); 12] = [
    (
        "\\begindata\nA = ",
        b'1',
        128,
        "",
        Some((2, Reason::NumberTooWide)),
    ),
    (
        "\\begindata\nA = ",
        b'1',
        129,
        "",
        Some((2, Reason::DataLineTooLong)),
    ),
    ("\\begindata\nA = 1", b' ', 200, "\n", None),
    ("\\begindata\n\\begintext", b'\t', 200, "\n", None),
    ("", b'x', 4096, "\r\r\n", None),
    ("", b'x', 4097, "\n", Some((1, Reason::TextLineTooLong))),
    ("\\begindata\n", b'N', 32, "+=1", None),
    (
        "\\begindata\n",
        b'N',
        33,
        " = 1",
        Some((2, Reason::BadName)),
    ),
    ("\\begindata\nA = @", b'2', 79, "", None),
    (
        "\\begindata\nA = @",
        b'2',
        80,
        "",
        Some((2, Reason::BadDate)),
    ),
    ("\\begindata\nA = '", b't', 80, "'", None),
    (
        "\\begindata\nA = '",
        b't',
        81,
        "'",
        Some((2, Reason::TextTooLong)),
    ),
];

#[test]
fn lengths_are_taken_up_to_their_limits(rt: HostRuntime) -> Result<(), Fail> {
    let alloc = rt.alloc();
    for (front, byte, count, back, refused) in &LONG {
        let mut text = front.as_bytes().to_vec(alloc)?;
        text.extend_from_slice(vec![in alloc; *byte; *count]?.as_slice())?;
        text.extend_from_slice(back.as_bytes())?;
        let wanted = match refused {
            Some((line, reason)) => at(*line, *reason),
            None => None,
        };
        if text.len() <= 65_536 {
            assert_eq!(rt;
                fault(alloc, text.as_slice()),
                wanted,
                "at {front:?}, {count}"
            );
        }
    }
    Ok(())
}

const KERNEL: &str = "KPL/SCLK
\\begindata
SCLK_KERNEL_ID = @2024-01-01
SCLK_DATA_TYPE_99 = 1
SCLK01_TIME_SYSTEM_99 = 2
SCLK01_N_FIELDS_99 = 2
SCLK01_MODULI_99 = (
4294967296 256
)
SCLK01_OFFSETS_99 = (
0 0
)
SCLK01_OUTPUT_DELIM_99 = 2
SCLK_PARTITION_START_99 = 0
SCLK_PARTITION_END_99 = 1099511627775
SCLK01_COEFFICIENTS_99 = (
0 0 1
)
\\begintext
";

/// How many of the kernel's first bytes are refused at this line, or taken, up to the next row.
const CUT: [(usize, Option<(u32, Reason)>); 37] = [
    (0, None),
    (21, Some((3, Reason::NoAssign))),
    (36, Some((3, Reason::Unfinished))),
    (38, Some((3, Reason::BadDate))),
    (39, None),
    (50, Some((4, Reason::NoAssign))),
    (68, Some((4, Reason::Unfinished))),
    (70, None),
    (72, Some((5, Reason::NoAssign))),
    (94, Some((5, Reason::Unfinished))),
    (96, None),
    (98, Some((6, Reason::NoAssign))),
    (117, Some((6, Reason::Unfinished))),
    (119, None),
    (121, Some((7, Reason::NoAssign))),
    (138, Some((7, Reason::Unfinished))),
    (142, Some((8, Reason::Unfinished))),
    (157, None),
    (159, Some((10, Reason::NoAssign))),
    (177, Some((10, Reason::Unfinished))),
    (181, Some((11, Reason::Unfinished))),
    (185, None),
    (187, Some((13, Reason::NoAssign))),
    (210, Some((13, Reason::Unfinished))),
    (212, None),
    (214, Some((14, Reason::NoAssign))),
    (238, Some((14, Reason::Unfinished))),
    (240, None),
    (242, Some((15, Reason::NoAssign))),
    (264, Some((15, Reason::Unfinished))),
    (266, None),
    (280, Some((16, Reason::NoAssign))),
    (303, Some((16, Reason::Unfinished))),
    (307, Some((17, Reason::Unfinished))),
    (313, None),
    (315, Some((19, Reason::NoAssign))),
    (324, None),
];

#[test]
fn a_cut_kernel_is_taken_or_refused_at_its_last_line(rt: HostRuntime) -> Result<(), Fail> {
    let alloc = rt.alloc();
    let mut wanted = None;
    let mut rows = CUT.iter();
    let mut next = rows.next();
    for size in 0..=325 {
        if let Some((first, refused)) = next {
            if *first == size {
                wanted = match refused {
                    Some((line, reason)) => at(*line, *reason),
                    None => None,
                };
                next = rows.next();
            }
        }
        let text = KERNEL.as_bytes().get(..size).ok_or("a short kernel")?;
        if text.len() <= 65_536 {
            assert_eq!(rt; fault(alloc, text), wanted, "at {size}");
        }
    }
    Ok(())
}

#[test]
fn pieces_are_read_as_the_whole(rt: HostRuntime) -> Result<(), Fail> {
    let alloc = rt.alloc();
    let wide = "\\begindata\r\nX = 170141183460469231731687303715884105728\r\nY = 1";
    for text in [
        KERNEL,
        wide,
        "",
        "A\r",
        "\\begindata\nA = 'it''s'\n\\begintext\nB\r\r\n",
    ] {
        if text.len() <= 65_536 {
            let whole = told(alloc, &read(alloc, text.as_bytes()))?;
            for size in [1, 2, 3, 7] {
                let cut = told(alloc, &read_in_pieces(alloc, text.as_bytes(), size))?;
                assert_eq!(rt; cut.as_str(), whole.as_str(), "in pieces of {size}");
            }
        }
    }
    Ok(())
}

/// Text lines on both sides of the few bytes that are looked at one by one. A line of 4,096 bytes follows them.
const SHORT_LINES: [&str; 8] = [
    "",
    "x",
    "1234567",
    "12345678",
    "123456789",
    "1234567890123456",
    " indented",
    "\\other",
];

/// These lines as they are kept.
const SHORT_LINES_KEPT: &str =
    "\nx\n1234567\n12345678\n123456789\n1234567890123456\n indented\n\\other\n";

/// The short lines and one of 4,096 bytes, each with this end, behind a front.
fn text_lines(alloc: Global, front: &str, end: &str) -> Result<Vec<u8>, AllocError> {
    let mut text = front.as_bytes().to_vec(alloc)?;
    for line in &SHORT_LINES {
        text.extend_from_slice(line.as_bytes())?;
        text.extend_from_slice(end.as_bytes())?;
    }
    text.extend_from_slice(vec![in alloc; b'x'; 4096]?.as_slice())?;
    text.extend_from_slice(end.as_bytes())?;
    Ok(text)
}

#[test]
fn text_lines_are_kept_in_whatever_pieces(rt: HostRuntime) -> Result<(), Fail> {
    let alloc = rt.alloc();
    let mut kept = SHORT_LINES_KEPT.as_bytes().to_vec(alloc)?;
    kept.extend_from_slice(vec![in alloc; b'x'; 4096]?.as_slice())?;
    kept.push(b'\n')?;
    for end in ["\n", "\r\n", "\r\r\n"] {
        let head = text_lines(alloc, "", end)?;
        let block = text_lines(alloc, "\\begindata\n\\begintext\n", end)?;
        if head.len() <= 65_536 && block.len() <= 65_536 {
            for size in [1, 2, 3, 7, 4096] {
                let doc = read_in_pieces(alloc, head.as_slice(), size)?;
                assert_eq!(rt;
                    doc.head.as_text(),
                    kept.as_slice(),
                    "{end:?} in pieces of {size}"
                );
                let doc = read_in_pieces(alloc, block.as_slice(), size)?;
                let block = doc.blocks.as_slice().first().ok_or("no block")?;
                assert_eq!(rt;
                    block.text.as_text(),
                    kept.as_slice(),
                    "{end:?} in pieces of {size}"
                );
            }
        }
    }
    Ok(())
}

#[test]
fn a_document_is_shown(rt: HostRuntime) -> Result<(), Fail> {
    let alloc = rt.alloc();
    let text = told(
        alloc,
        &read(alloc, b"H\n\\begindata\nA += ( 'it''s' )\n\\begintext\nT"),
    )?;
    assert_eq!(rt;
        text.as_str(),
        "Ok(Doc { head: Lines { text: [72, 10] }, blocks: List { items: [Block { items: Items { text: [65, 32, 43, 61, 32, 39, 105, 116, 39, 39, 115, 39, 10] }, text: Lines { text: [84, 10] } }] } })"
    );
    let mut reader = Reader::new(alloc);
    assert_eq!(rt;
        reader.feed(b"\\begindata\n1\n").err(),
        at(2, Reason::NoAssign)
    );
    assert_eq!(rt; reader.feed(b"A = 1").err(), at(2, Reason::NoAssign));
    assert_eq!(rt; reader.finish().err(), at(2, Reason::NoAssign));
    Ok(())
}
