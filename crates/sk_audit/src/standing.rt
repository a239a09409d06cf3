//! Whether a document is another one with one block behind it.

ghost use Rattle.std.specs.Prelude.{◌≡◌, ◌≢◌, ◌↔◌, ◌≤◌, IsTrue, IfSome, IfNone, All, take, length};
ghost use Rattle.sk_grammar.specs.Document.{BlockView, IsBlock, IsItem, IsTextLine};
ghost use Rattle.sk_publishing.specs.Published.{appended};

use sk_grammar::{Block, Doc, Items, Lines};

/// The bytes are the same.
pub fn are_equal(a: &[u8], b: &[u8]) -> bool
    ensures { IsTrue result ↔ (a.now ≡ b.now) }
{
    a == b
}

// The lines are the same.
fn are_same_lines(a: &Lines, b: &Lines) -> bool
    requires first { All IsTextLine a.now }
    requires second { All IsTextLine b.now }
    ensures { IsTrue result ↔ (a.now ≡ b.now) }
{
    are_equal(a.as_text(), b.as_text())
}

// The items are the same.
fn are_same_items(a: &Items, b: &Items) -> bool
    requires first { All IsItem a.now }
    requires second { All IsItem b.now }
    ensures { IsTrue result ↔ (a.now ≡ b.now) }
{
    are_equal(a.as_text(), b.as_text())
}

// The blocks have the same items and text.
fn are_same(a: &Block, b: &Block) -> bool
    ensures { IsTrue result ↔ (a.now ≡ b.now) }
{
    are_same_items(&a.items, &b.items) && are_same_lines(&a.text, &b.text)
}

// The blocks begin with those.
fn begin_with(blocks: &[Block], front: &[Block]) -> bool
    requires { length front.now ≤ length blocks.now }
    ensures { IsTrue result ↔ (take (length front.now) blocks.now ≡ front.now) }
{
    for (place, block) in front.iter().enumerate() {
        if !are_same(&blocks[place], block) {
            return false;
        }
    }
    true
}

/// The block that the new document has behind the old one; `None` exactly where the new document is not the old one
/// with one block behind it.
pub fn added_block<'a>(old: &Doc, new: &'a Doc) -> Option<&'a Block>
    ensures some { IfSome result (λ block. new.now ≡ appended old.now block.now) }
    ensures none { IfNone result ((block : BlockView) → new.now ≢ appended old.now block) }
{
    let front = old.blocks.as_slice();
    let blocks = new.blocks.as_slice();
    let count = front.len();
    if blocks.len() <= count || blocks.len() - 1 > count {
        return None;
    }
    if !are_same_lines(&new.head, &old.head) || !begin_with(blocks, front) {
        return None;
    }
    Some(&blocks[count])
}
