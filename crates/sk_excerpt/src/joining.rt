//! Documents joined.

ghost use Rattle.std.specs.Prelude.{◌≡◌, ◌∷◌, [], IfOk};
ghost use Rattle.sk_excerpt.specs.Excerpt.{joined};

use sk_checks::NoMemory;
use sk_grammar::Doc;

/// The documents as one: the head of the first, and the blocks of the first and then those of the later one, so that
/// a later `=` assigns anew and a later `+=` appends (NAIF Kernel Required Reading, "Text Kernels").
pub fn join(doc: Doc, later: Doc) -> Result<Doc, NoMemory>
    ensures { IfOk result (λ both. both ≡ joined (doc ∷ later ∷ [])) }
{
    let Doc { head, mut blocks } = doc;
    let Doc {
        head: _,
        blocks: mut more,
    } = later;
    blocks.append(&mut more)?;
    Ok(Doc { head, blocks })
}
