//! The documents and the variables of texts.

ghost use Rattle.std.specs.Prelude.{◌^◌, ◌<◌, length, IsTrue, IfOk};
ghost use Rattle.sk_grammar.specs.Variables.{items_of};

use sk_grammar::{Doc, read_doc};
use sk_pool::Pool;
use std::process::Abort;
use std::test::Fail;

fn has_few_items(doc: &Doc) -> bool
    ensures { IsTrue result → length (items_of doc.now) < 2 ^ 32 }
{
    match doc.blocks.as_slice() {
        [block] => block.items.as_text().len() < 4_000_000,
        _ => false,
    }
}

/// The document of the text, which has one block.
pub fn doc_of(rt: &(impl Abort + AllocGlobal), text: &[u8]) -> Result<Doc, Fail>
    ensures { IfOk result (λ doc. length (items_of doc) < 2 ^ 32) }
{
    assert!(rt; text.len() < 4_000_000);
    let doc = read_doc(rt.alloc(), text)?;
    assert!(rt; has_few_items(&doc));
    Ok(doc)
}

/// The variables that the text assigns.
pub fn pool_of(rt: &(impl Abort + AllocGlobal), text: &[u8]) -> Result<Pool, Fail> {
    let doc = doc_of(rt, text)?;
    Ok(Pool::of(rt.alloc(), &doc)?)
}
