//! The kernels of `--over`, joined behind the clock kernel.
ghost use Rattle.std.specs.Prelude.{◌≡◌, ◌≤◌, length, map, IfOk};
ghost use Rattle.sk_edge.specs.Asked.{AsksAmong};
ghost use Rattle.sk_words.specs.Asked.{options_in};
ghost use Rattle.station.specs.Asking.{joined_names};
ghost use Rattle.sk_outcome.specs.Stage.{MayAnswer};
ghost use Rattle.sk_outcome.specs.Seen.{seen_by, Stays};
ghost use Rattle.sk_outcome.specs.Files.{HasFew};
ghost use Rattle.sk_outcome.specs.Joined.{joined_behind as behind_stage, joined_kernel as joined_stage};

use crate::files::kernel_document;
use crate::reading::document;
use sk_edge::Depot;
use sk_excerpt::join;
use sk_grammar::Doc;
use sk_status::{DocumentKind, Status};
use sk_words::Request;
use std::alloc::Global;

/// A document with those of the named files behind it, each file read and joined before the next one is chosen.
fn joined_behind<D: Depot>(
    alloc: Global,
    depot: &mut D,
    first: Doc,
    names: &[&str],
) -> Result<Doc, Status>
    requires { length names.now ≤ 16 }
    ensures stays { Stays D.holds D.faults depot.old depot.new }
    ensures asks { AsksAmong (D.asked depot.old) (D.asked depot.new) (map (λ n. n.now) names.now) }
    ensures stage { MayAnswer (λ d. d) (behind_stage (seen_by D.holds D.given D.faults depot.old depot.new) first (map (λ n. n.now) names.now)) result }
{
    let mut doc = first;
    for (index, name) in names.iter().enumerate() {
        let place = index as u32 + 1;
        let later = document(alloc, depot, DocumentKind::Over(place), name)?;
        let Ok(both) = join(doc, later) else {
            return Err(Status::NoMemory);
        };
        doc = both;
    }
    Ok(doc)
}

/// The clock kernel with the kernels of `--over` behind it, as one document.
pub fn joined_kernel<D: Depot>(
    alloc: Global,
    depot: &mut D,
    request: &Request,
) -> Result<Doc, Status>
    ensures stays { Stays D.holds D.faults depot.old depot.new }
    ensures asks { AsksAmong (D.asked depot.old) (D.asked depot.new) (joined_names (options_in request.now)) }
    ensures stage { MayAnswer (λ d. d) (joined_stage (seen_by D.holds D.given D.faults depot.old depot.new) (options_in request.now)) result }
    ensures few { IfOk result HasFew }
{
    let first = kernel_document(alloc, depot, request)?;
    let Ok(names) = request.over(alloc) else {
        return Err(Status::NoMemory);
    };
    joined_behind(alloc, depot, first, names.as_slice())
}
