//! The words for an observation's kind and for the end of a segment.

ghost use Rattle.std.specs.Prelude.{◌≡◌, ◌<◌, length, false, None, slice_index_or};
ghost use Rattle.sk_publishing.specs.Table.{end_text as end_text_of};
ghost use Rattle.sk_fit.specs.Given.{end_view};
ghost use Rattle.sk_fit.specs.Over.{IsEndOver};
ghost use Rattle.sk_report.specs.Marks.{AreOver, end_words, kind_word};

use crate::marks::Marks;
use sk_decimal::Line;
use sk_fit::End;
use sk_obs::Observation;

// The words of an end.
fn end_text(observations: &[Observation], ended: End) -> Line
    requires { IsEndOver (length observations.now) ended }
    ensures { result ≡ end_text_of observations.now (end_view ended) }
{
    let mut text = Line::new();
    match ended {
        End::Last => text.push(b"last"),
        End::Partition => text.push(b"partition"),
        End::Fixed => text.push(b"fixed"),
        End::Blocked { low, high } => {
            text.push(b"blocked:");
            let low = &observations[low];
            text.push_number(low.number as u128);
            text.push(b":");
            let high = &observations[high];
            text.push_number(high.number as u128);
        }
    }
    text
}

/// The words of the end that stands at a place.
pub fn end_at(observations: &[Observation], marks: &Marks, place: usize) -> Line
    requires marks { AreOver (length observations.now) marks.now }
    requires place { place < length observations.now }
    ensures { result ≡ end_words observations.now (slice_index_or marks.now.ends.items place None) }
{
    if place >= marks.ends.len() {
        return Line::new();
    }
    match marks.ends[place] {
        None => Line::new(),
        Some(ended) => end_text(observations, ended),
    }
}

// Whether the observation at a place is dropped.
fn is_dropped(marks: &Marks, place: usize) -> bool
    ensures { result ≡ slice_index_or marks.now.dropped.items place false }
{
    place < marks.dropped.len() && marks.dropped[place]
}

/// The word for the kind of the observation at a place.
pub fn kind_at(marks: &Marks, place: usize) -> &'static str
    ensures { result.now ≡ kind_word marks.now place }
{
    if is_dropped(marks, place) {
        "dropped"
    } else if marks.first_new <= place {
        "new"
    } else {
        "old"
    }
}
