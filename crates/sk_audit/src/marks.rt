//! What is told of each observation, by its place.

ghost use Rattle.std.specs.Prelude.{◌≡◌, ◌<◌, ◌≤◌, ℕ, List, length, true, false, slice_index_or, slice_set, IfOk, None};
ghost use Rattle.sk_publishing.specs.Table.{end_text as end_text_of, number_at};
ghost use Rattle.sk_audit.specs.Given.{end_view};
ghost use Rattle.sk_audit.specs.Marks.{AreEnds, IsMarked, end_words, kind_word, marked_end};

use crate::told::{End, Told};
use crate::walking::Account;
use sk_checks::NoMemory;
use sk_decimal::Line;
use sk_obs::Observation;
use std::alloc::Global;

/// Of each observation whether it is dropped, and the end of the segment whose last covered observation it is.
#[derive(Drop)]
pub struct Marks {
    /// How many observations are old.
    pub first_new: usize,
    pub dropped: Vec<bool>,
    pub ends: Vec<Option<End>>,
}

// Marks a place, if it is one.
fn mark_place(marked: &mut Vec<bool>, place: usize)
    ensures { marked.new.items ≡ slice_set marked.old.items place true }
{
    if place < marked.len() {
        marked[place] = true;
    }
}

// Marks the places that are dropped.
fn mark_dropped(marked: &mut Vec<bool>, dropped: &[usize])
    requires { (place : ℕ) → place < length marked.old.items → slice_index_or marked.old.items place false ≡ false }
    ensures many { length marked.new.items ≡ length marked.old.items }
    ensures marked { IsMarked dropped.now marked.new.items }
{
    for place in dropped {
        mark_place(marked, *place);
    }
}

// Marks an end at a place, if it is one and there is no other.
fn mark_end(ends: &mut Vec<Option<End>>, place: Option<usize>, ended: End)
    ensures { ends.new.items ≡ marked_end ends.old.items place ended }
{
    let Some(place) = place else {
        return;
    };
    if place < ends.len() && ends[place].is_none() {
        ends[place] = Some(ended);
    }
}

// Marks where each segment's end stands.
fn mark_ends(ends: &mut Vec<Option<End>>, segments: &[Told])
    requires { (place : ℕ) → place < length ends.old.items → slice_index_or ends.old.items place None ≡ None }
    ensures many { length ends.new.items ≡ length ends.old.items }
    ensures marked { AreEnds (length ends.old.items) segments.now ends.new.items }
{
    for segment in segments {
        mark_end(ends, segment.place, segment.ended);
    }
}

/// The marks of so many observations.
pub fn marks_of(
    alloc: Global,
    account: &Account,
    first_new: usize,
    count: usize,
) -> Result<Marks, NoMemory>
    ensures first { IfOk result (λ m. m.first_new ≡ first_new) }
    ensures dropped { IfOk result (λ m. IsMarked account.now.dropped.items m.dropped.items) }
    ensures many { IfOk result (λ m. length m.dropped.items ≡ count) }
    ensures ends { IfOk result (λ m. AreEnds count account.now.segments.items m.ends.items) }
{
    let mut dropped = vec![in alloc; false; count]?;
    mark_dropped(&mut dropped, account.dropped.as_slice());
    let mut ends = vec![in alloc; None; count]?;
    mark_ends(&mut ends, account.segments.as_slice());
    Ok(Marks {
        first_new,
        dropped,
        ends,
    })
}

// The record number of the observation at a place, if there is one.
fn record_at(observations: &[Observation], place: usize) -> Line
    ensures text { result ≡ number_at observations.now place }
    ensures short { length result ≤ 40 }
{
    let mut text = Line::new();
    if place < observations.len() {
        let obs = &observations[place];
        text.push_number(obs.number as u128);
    }
    text
}

// The words of an end.
fn end_text(observations: &[Observation], ended: End) -> Line
    ensures { result ≡ end_text_of observations.now (end_view ended) }
{
    let mut text = Line::new();
    match ended {
        End::Last => text.push(b"last"),
        End::Partition => text.push(b"partition"),
        End::Fixed => text.push(b"fixed"),
        End::Blocked { low, high } => {
            text.push(b"blocked:");
            text.push(record_at(observations, low).as_slice());
            text.push(b":");
            text.push(record_at(observations, high).as_slice());
        }
    }
    text
}

/// The words of the end that stands at a place.
pub fn end_at(observations: &[Observation], marks: &Marks, place: usize) -> Line
    ensures { result ≡ end_words observations.now (slice_index_or marks.now.ends.items place None) }
{
    if place >= marks.ends.len() {
        return Line::new();
    }
    match marks.ends[place] {
        None => Line::new(),
        Some(ended) => end_text(observations, ended),
    }
}

// Whether the observation at a place is dropped.
fn is_dropped(marks: &Marks, place: usize) -> bool
    ensures { result ≡ slice_index_or marks.now.dropped.items place false }
{
    place < marks.dropped.len() && marks.dropped[place]
}

/// The word for the kind of the observation at a place.
pub fn kind_at(marks: &Marks, place: usize) -> &'static str
    ensures { result.now ≡ kind_word marks.now place }
{
    if is_dropped(marks, place) {
        "dropped"
    } else if marks.first_new <= place {
        "new"
    } else {
        "old"
    }
}
