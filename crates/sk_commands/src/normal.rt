//! The canonical text of a kernel.
ghost use Rattle.std.specs.Prelude.{◌≡◌};
ghost use Rattle.sk_outcome.specs.Stage.{MayAnswer};
ghost use Rattle.sk_outcome.specs.Outcome.{normal_of};

use sk_grammar::Doc;
use sk_status::Status;
use sk_writer::write_doc;
use std::alloc::Global;

/// What `normal` writes.
pub fn normal(alloc: Global, doc: Doc) -> Result<Vec<u8>, Status>
    ensures { MayAnswer (λ v. v.items) (normal_of doc) result }
{
    let Ok(text) = write_doc(alloc, &doc) else {
        return Err(Status::NoMemory);
    };
    Ok(text)
}
