ghost use Rattle.std.specs.Prelude.{◌≡◌, [], ◌∷◌, ◌++◌, IfOk, IfErr};

use sk_grammar::{Block, Doc};

/// What an append that found no memory hands back.
#[derive(Drop)]
pub struct AppendRefused {
    pub doc: Doc,
    pub block: Block,
}

/// The document with the block last.
pub fn append_block(doc: Doc, block: Block) -> Result<Doc, AppendRefused>
    ensures ok { IfOk result (λ longer. longer ≡ record { head = doc.head; blocks = doc.blocks ++ block ∷ [] }) }
    ensures err { IfErr result (λ refused. (refused.doc ≡ doc) × (refused.block ≡ block)) }
{
    let _ = &block.items;
    let Doc { head, mut blocks } = doc;
    match blocks.push(block) {
        Ok(()) => Ok(Doc { head, blocks }),
        Err(refused) => Err(AppendRefused {
            doc: Doc { head, blocks },
            block: refused.value,
        }),
    }
}
