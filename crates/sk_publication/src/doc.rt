//! The published document.

ghost use Rattle.std.specs.Prelude.{◌≡◌, ◌≤◌, ◌++◌, All, IfOk, IfSome, codes, option_map};
ghost use Rattle.sk_grammar.specs.Document.{IsDate, IsTextLine};
ghost use Rattle.sk_publishing.specs.Published.{appended, published_block};
ghost use Rattle.sk_publication.specs.Publication.{HasNumbers};

use crate::items::items_of;
use sk_checks::NoMemory;
use sk_grammar::{Block, Doc, Lines};
use sk_triples::Triple;
use sk_writer::append_block;
use std::alloc::Global;

// The block of a publication.
fn block_of(
    alloc: Global,
    id: Option<&str>,
    sc: u32,
    new_triples: &[Triple],
    table: Lines,
) -> Result<Block, NoMemory>
    requires id { IfSome id (λ text. IsDate (codes "@" ++ text.now)) }
    requires sc { sc ≤ 999_999_999 }
    requires triples { All HasNumbers new_triples.now }
    requires table { All IsTextLine table }
    ensures { IfOk result (λ block. block ≡ published_block (option_map (λ text. codes "@" ++ text.now) id.entry) sc new_triples.now table) }
{
    let items = items_of(alloc, id, sc, new_triples)?;
    Ok(Block { items, text: table })
}

/// The kernel with the block of a publication behind it. Its items are the kernel ID, which is `@` and the text, where
/// one is given, and the ticks, times and rates of the new triples, where there are any, for the spacecraft with the
/// number -sc; its text is the table.
pub fn published_doc(
    alloc: Global,
    doc: Doc,
    id: Option<&str>,
    sc: u32,
    new_triples: &[Triple],
    table: Lines,
) -> Result<Doc, NoMemory>
    requires id { IfSome id (λ text. IsDate (codes "@" ++ text.now)) }
    requires sc { sc ≤ 999_999_999 }
    requires triples { All HasNumbers new_triples.now }
    requires table { All IsTextLine table }
    ensures { IfOk result (λ published. published ≡ appended doc (published_block (option_map (λ text. codes "@" ++ text.now) id.entry) sc new_triples.now table)) }
{
    let block = block_of(alloc, id, sc, new_triples, table)?;
    match append_block(doc, block) {
        Ok(published) => Ok(published),
        Err(_) => Err(NoMemory),
    }
}
