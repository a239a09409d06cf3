//! The marks of a chain.

ghost use Rattle.std.specs.Prelude.{◌≡◌, ◌<◌, ◌≤◌, ℕ, List, length, true, false, slice_index_or, slice_set, MatchOption, IfOk, IfSome, None, Some};
ghost use Rattle.std.specs.List.{AllByRecursion};
ghost use Rattle.sk_publishing.specs.Row.{RowView};
ghost use Rattle.sk_publishing.specs.Terms.{sights};
ghost use Rattle.sk_fit.specs.Given.{chain_view};
ghost use Rattle.sk_fit.specs.Over.{IsChainOver, IsSegmentWithin};
ghost use Rattle.sk_report.specs.Marks.{AreOver, Tells};
ghost use Rattle.sk_report.specs.Ends.{IsMarked, AreEnds, marked_end};

use crate::marks::Marks;
use sk_checks::NoMemory;
use sk_fit::{Chain, End, Segment};
use sk_obs::Observation;
use std::alloc::Global;

// Marks a place, if it is one.
fn mark_place(marked: &mut Vec<bool>, place: usize)
    ensures { marked.new.items ≡ slice_set marked.old.items place true }
{
    if place < marked.len() {
        marked[place] = true;
    }
}

// Marks the places that are dropped.
fn mark_dropped(marked: &mut Vec<bool>, dropped: &[usize])
    requires { (place : ℕ) → place < length marked.old.items → slice_index_or marked.old.items place false ≡ false }
    ensures many { length marked.new.items ≡ length marked.old.items }
    ensures marked { IsMarked dropped.now marked.new.items }
{
    for place in dropped {
        mark_place(marked, *place);
    }
}

// The last place from `first` to before `past` that is not dropped.
fn left_at(dropped: &[bool], first: usize, past: usize) -> Option<usize>
    requires { past ≤ length dropped.now }
    ensures { MatchOption result
        ((k : ℕ) → first ≤ k → k < past → slice_index_or dropped.now k false ≡ true)
        (λ place. (first ≤ place) × (place < past) × (slice_index_or dropped.now place false ≡ false)
        × ((k : ℕ) → place < k → k < past → slice_index_or dropped.now k false ≡ true)) }
{
    let mut place = past;
    'back: while place > first {
        place -= 1;
        if !dropped[place] {
            return Some(place);
        }
    }
    None
}

// Marks an end at a place, where there is no other.
fn mark_end(ends: &mut Vec<Option<End>>, place: Option<usize>, ended: End)
    requires { IfSome place (λ p. p < length ends.old.items) }
    ensures { ends.new.items ≡ marked_end ends.old.items place ended }
{
    let Some(place) = place else {
        return;
    };
    if ends[place].is_none() {
        ends[place] = Some(ended);
    }
}

// Marks where each segment's end stands.
fn mark_ends(ends: &mut Vec<Option<End>>, dropped: &[bool], segments: &[Segment])
    requires many { length ends.old.items ≡ length dropped.now }
    requires within { AllByRecursion (IsSegmentWithin (length dropped.now)) segments.now }
    requires none { (place : ℕ) → place < length dropped.now → slice_index_or ends.old.items place None ≡ None }
    ensures many { length ends.new.items ≡ length dropped.now }
    ensures marked { (rows : List RowView) (listed : List ℕ) → length rows ≡ length dropped.now → IsMarked listed dropped.now
        → AreEnds rows listed segments.now ends.new.items }
{
    for segment in segments {
        let place = left_at(dropped, segment.first, segment.past);
        mark_end(ends, place, segment.ended);
    }
}

/// The marks of a chain over these observations.
pub fn marks_of(
    alloc: Global,
    chain: &Chain,
    observations: &[Observation],
) -> Result<Marks, NoMemory>
    requires { IsChainOver (length observations.now) chain.now }
    ensures over { IfOk result (AreOver (length observations.now)) }
    ensures tells { IfOk result (λ m. (place : ℕ) → place < length observations.now
        → Tells observations.now (Some (chain_view (sights observations.now) chain.now)) m place) }
{
    let count = observations.len();
    let mut dropped = vec![in alloc; false; count]?;
    mark_dropped(&mut dropped, chain.dropped.as_slice());
    let mut ends = vec![in alloc; None; count]?;
    mark_ends(&mut ends, dropped.as_slice(), chain.segments.as_slice());
    Ok(Marks {
        first_new: chain.first_new,
        dropped,
        ends,
    })
}

/// The marks of observations that are all old, which take no memory.
pub fn old_marks(alloc: Global, count: usize) -> Marks
    ensures over { AreOver count result }
    ensures tells { (rows : List RowView) (place : ℕ) → place < count → Tells rows None result place }
{
    Marks {
        first_new: count,
        dropped: Vec::new(alloc),
        ends: Vec::new(alloc),
    }
}
