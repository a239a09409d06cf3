//! Tests of data lines that are read one after the other, however the text is cut.

use crate::texts::{at, read_in_pieces};
use sk_checks::NoMemory;
use sk_grammar::{Block, Doc, Item, Op, Reason, Value, read_doc};
use std::alloc::Global;
use std::test::Fail;

/// The value as it may stand in an item, without the quotes around a text.
fn show_value(out: &mut Vec<u8>, value: &Value) -> Result<(), NoMemory> {
    match value {
        Value::Number(number) => number.print(out),
        Value::Date(date) => out.extend_from_slice(date.as_slice()),
        Value::Text(text) => out.extend_from_slice(text.as_slice()),
    }
}

/// The name, the sign and the values of an item, each value in brackets.
fn show_item(out: &mut Vec<u8>, item: &Item) -> Result<(), NoMemory> {
    out.extend_from_slice(item.name.as_slice())?;
    match item.op {
        Op::Set => out.extend_from_slice(b" =")?,
        Op::Append => out.extend_from_slice(b" +=")?,
    }
    for value in item.values.as_slice() {
        out.extend_from_slice(b" [")?;
        show_value(out, value)?;
        out.extend_from_slice(b"]")?;
    }
    out.extend_from_slice(b"\n")
}

/// The items of a block, and its text lines.
fn show_block(alloc: Global, out: &mut Vec<u8>, block: &Block) -> Result<(), NoMemory> {
    for item in block.items.to_list(alloc)?.as_slice() {
        show_item(out, item)?;
    }
    out.extend_from_slice(block.text.as_text())
}

/// The blocks of a document, line by line.
fn show(alloc: Global, out: &mut Vec<u8>, doc: &Doc) -> Result<(), NoMemory> {
    for block in doc.blocks.as_slice() {
        show_block(alloc, out, block)?;
    }
    Ok(())
}

const SIZES: [usize; 6] = [1, 2, 3, 7, 64, 65_536];

/// Items on one line and on several, in vectors that stay open, with blank lines, markers and both ends of lines.
const SPREAD: &str = "HEAD
\\begindata
A=1
B = (
 10 20

30,\r
40\r\r
)
\\begindata
C += 'it''s'
D =

@2000-JAN-1
  \\begintext \r
NOTE
\\begindata
E = ( 'a'
'b c'
\t
'' )
F=-2.5
G+= ( -1\t)
G+=7";

const SHOWN: &str = "A = [1]
B = [10] [20] [30] [40]
C += [it's]
D = [@2000-JAN-1]
NOTE
E = [a] [b c] []
F = [-2.5]
G += [-1]
G += [7]
";

#[test]
fn items_are_read_however_their_lines_are_cut(rt: HostRuntime) -> Result<(), Fail> {
    let alloc = rt.alloc();
    let text = SPREAD.as_bytes();
    for size in SIZES {
        if size > 0 && text.len() <= 65_536 {
            let mut shown = Vec::new(alloc);
            match read_in_pieces(alloc, text, size) {
                Err(fault) => assert_eq!(rt; Some(fault), None, "in pieces of {size}"),
                Ok(doc) => show(alloc, &mut shown, &doc)?,
            }
            assert_eq!(rt; shown.as_slice(), SHOWN.as_bytes(), "in pieces of {size}");
        }
    }
    Ok(())
}

/// Lines of which the one of this number, from 1, is refused.
const STOPPED: [(&str, u32, Reason); 10] = [
    ("\\begindata\nA=1\nB=2\nC=1x\nD=3\n", 4, Reason::BadNumber),
    ("\\begindata\nA=1\nB\nC=2\n", 3, Reason::NoAssign),
    ("\\begindata\nA=(1\n2\n3,,4\n5)\n", 4, Reason::BadComma),
    ("\\begindata\nA=(\n1\n'x'\n)\n", 4, Reason::MixedKinds),
    ("\\begindata\nA=1\n\nB='x\nC=1\n", 4, Reason::TextOpen),
    ("\\begindata\nA=1\nB=2 3\nC=(\n", 3, Reason::AfterValue),
    ("\\begindata\nA=1\nB=\u{7f}\nC=1\n", 3, Reason::BadByte),
    (
        "\\begindata\nA=1\nB=(1\n\\begintext\nC\n",
        4,
        Reason::Unfinished,
    ),
    (
        "\\begindata\nA=(1\n2\n\\begindata\n3)\n",
        4,
        Reason::Unfinished,
    ),
    (
        "T\n\\begindata\nA=1\n\\begintext\nT\n\\begindata\nB=2\n=\n",
        8,
        Reason::BadName,
    ),
];

#[test]
fn a_data_line_is_refused_however_the_lines_are_cut(rt: HostRuntime) -> Result<(), Fail> {
    let alloc = rt.alloc();
    for (text, line, reason) in &STOPPED {
        for size in SIZES {
            if size > 0 && text.len() <= 65_536 {
                assert_eq!(rt;
                    read_in_pieces(alloc, text.as_bytes(), size).err(),
                    at(*line, *reason),
                    "{text:?} in pieces of {size}"
                );
            }
        }
    }
    Ok(())
}
