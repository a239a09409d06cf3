ghost use Rattle.std.specs.Prelude.{◌≡◌, ◌++◌, OnOk, IfOk};
ghost use Rattle.sk_grammar.specs.Canonical.{block_lines, ended_by_line_feeds, canonical_text};

use sk_checks::NoMemory;
use sk_grammar::{Block, Doc, Lines};
use std::alloc::Global;

// Appends the lines, each with a line feed behind it.
fn write_lines(out: &mut Vec<u8>, lines: &Lines) -> Result<(), NoMemory>
    ensures { OnOk result (out.new.items ≡ out.old.items ++ ended_by_line_feeds lines.now) }
{
    out.extend_from_slice(lines.as_text())?;
    Ok(())
}

fn write_block(out: &mut Vec<u8>, block: &Block) -> Result<(), NoMemory>
    ensures { OnOk result (out.new.items ≡ out.old.items ++ ended_by_line_feeds (block_lines block.now)) }
{
    out.extend_from_slice(b"\\begindata\n")?;
    out.extend_from_slice(block.items.as_text())?;
    out.extend_from_slice(b"\\begintext\n")?;
    write_lines(out, &block.text)?;
    Ok(())
}

/// The canonical text of the document (NAIF Kernel Required Reading, "Text Kernel Specifications"): the lines of the
/// head, and of each block `\begindata`, its items, `\begintext` and its text lines, each ended by a line feed. An
/// item with one value stands on one line where that has at most 132 bytes; otherwise its values stand on lines of
/// their own, three numbers a line or one other value.
pub fn write_doc(alloc: Global, doc: &Doc) -> Result<Vec<u8>, NoMemory>
    ensures { IfOk result (λ text. text.items ≡ canonical_text doc.now) }
{
    let mut out = Vec::new(alloc);
    write_lines(&mut out, &doc.head)?;
    for block in doc.blocks.as_slice() {
        write_block(&mut out, block)?;
    }
    Ok(out)
}
