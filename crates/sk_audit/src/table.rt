//! The lines of the table against those of a block.

ghost use Rattle.std.specs.Prelude.{◌≡◌, ◌≢◌, ◌<◌, ◌≤◌, ◌+◌, ◌^◌, ℕ, List, [], ◌∷◌, ◌++◌, All, IfOk, IfSome, IfNone, MatchOption, OnOk, IsTrue, None, Some, length, codes, decimal, false, slice_get};
ghost use Rattle.std.specs.List.{list_any};
ghost use Rattle.memchr.specs.Find.{IsFirstByte};
ghost use Rattle.std.specs.String.{string_bytes};
ghost use Rattle.sk_clock.specs.Clock.{clock_text as clock_text_of, total};
ghost use Rattle.sk_grammar.specs.Document.{IsTextLine};
ghost use Rattle.sk_grammar.specs.Lines.{held_lines, is_line_feed};
ghost use Rattle.sk_grammar.specs.Taken.{IsSplitAtFeed};
ghost use Rattle.sk_line.specs.Line.{covering};
ghost use Rattle.sk_publishing.specs.Row.{RowView};
ghost use Rattle.sk_triples.specs.Kernel.{AreOf};
ghost use Rattle.sk_audit.specs.Audit.{IsFirstDifference};
ghost use Rattle.sk_audit.specs.Tables.{line_of, lines_of};

use crate::marks::{Marks, end_at, kind_at};
use crate::row::write_line;
use crate::standing::are_equal;
use crate::times::time_of;
use memchr::memchr;
use sk_checks::NoMemory;
use sk_clock::Clock;
use sk_decimal::Line;
use sk_grammar::Lines;
use sk_obs::Observation;
use sk_triples::Triples;
use std::alloc::Global;

/// What the table of a publication is made from: the new kernel, the observations and what is told of them.
#[derive(Drop)]
pub struct Table<'a> {
    triples: &'a Triples,
    clock: &'a Clock,
    observations: &'a [Observation],
    marks: &'a Marks,
}

// The place of the first line feed.
fn find_feed(bytes: &[u8]) -> Option<usize>
    ensures { IsFirstByte is_line_feed bytes.now result }
{
    memchr(b'\n', bytes)
}

// The line in front and what stands behind its line feed, if one stands there.
fn split_line(bytes: &[u8]) -> Option<(&[u8], &[u8])>
    ensures { MatchOption result (list_any is_line_feed bytes.now ≡ false) (λ parts. IsSplitAtFeed bytes.now parts.0.now parts.1.now) }
{
    match find_feed(bytes) {
        None => None,
        Some(at) => Some((&bytes[..at], &bytes[at + 1..])),
    }
}

// What stands behind the line, where the text begins with it.
fn behind_line<'a>(text: &'a [u8], line: &[u8]) -> Option<&'a [u8]>
    ensures some { IfSome result (λ rest. held_lines text.now ≡ line.now ∷ held_lines rest.now) }
    ensures none { IfNone result ((more : List (List ℕ)) → held_lines text.now ≢ line.now ∷ more) }
{
    let Some(parts) = split_line(text) else {
        return None;
    };
    let (first, rest) = parts;
    if are_equal(first, line) {
        Some(rest)
    } else {
        None
    }
}

// No line stands there.
fn has_none(text: &[u8]) -> bool
    ensures none { IsTrue result → held_lines text.now ≡ [] }
    ensures some { held_lines text.now ≡ [] → IsTrue result }
{
    match split_line(text) {
        None => true,
        Some(_parts) => false,
    }
}

// The line with the number of observations.
fn head_line(count: usize) -> Line
    ensures { result ≡ codes "residuals;" ++ decimal count }
{
    let mut line = Line::new();
    line.push(b"residuals;");
    line.push_number(count as u128);
    line
}

impl<'a> Table<'a> {
    /// The table of a new kernel.
    pub fn new(
        triples: &'a Triples,
        clock: &'a Clock,
        observations: &'a [Observation],
        marks: &'a Marks,
    ) -> Table<'a>
        ensures triples { result.triples.now ≡ triples.entry.now }
        ensures clock { result.clock.now ≡ clock.entry.now }
        ensures observations { result.observations.now ≡ observations.entry.now }
        ensures marks { result.marks.now ≡ marks.entry.now }
    {
        Table {
            triples,
            clock,
            observations,
            marks,
        }
    }

    // Puts the line of the observation at a place in place of what `line` holds.
    fn write_row(&self, line: &mut Vec<u8>, alloc: Global, place: usize) -> Result<(), NoMemory>
        requires within { place < length self.now.observations.now }
        requires triples { AreOf self.now.clock.now self.now.triples.now }
        requires ticks { All (λ row. row.tick ≤ total self.now.clock.now) self.now.observations.now }
        requires covered { All (λ row. covering self.now.triples.now.triples row.tick ≢ None) self.now.observations.now }
        ensures { OnOk result ((row : RowView) → slice_get self.now.observations.now place ≡ Some row → line.new.items ≡ line_of self.now place row) }
    {
        let observation = &self.observations[place];
        let Ok(timed) = time_of(self.triples, self.clock, observation.tick) else {
            unreachable!();
        };
        let text = self.clock_text(alloc, observation)?;
        let kind = kind_at(self.marks, place);
        let ended = end_at(self.observations, self.marks, place);
        write_line(
            line,
            observation,
            text.as_str(),
            timed,
            kind,
            ended.as_slice(),
        )
    }

    // The clock text of an observation's tick.
    fn clock_text(&self, alloc: Global, observation: &Observation) -> Result<String, NoMemory>
        requires { observation.now.tick ≤ total self.now.clock.now }
        ensures { IfOk result (λ text. string_bytes text ≡ clock_text_of self.now.clock.now observation.now.tick) }
    {
        match self.clock.text_of(alloc, observation.tick) {
            Ok(text) => Ok(text),
            Err(_) => Err(NoMemory),
        }
    }

    /// The number of the first line, from 1, that differs or is missing on one side.
    pub fn first_difference(&self, alloc: Global, lines: &Lines) -> Result<Option<u32>, NoMemory>
        requires few { length self.now.observations.now + 2 < 2 ^ 32 }
        requires triples { AreOf self.now.clock.now self.now.triples.now }
        requires ticks { All (λ row. row.tick ≤ total self.now.clock.now) self.now.observations.now }
        requires covered { All (λ row. covering self.now.triples.now.triples row.tick ≢ None) self.now.observations.now }
        requires valid { All IsTextLine lines.now }
        ensures same { IfOk result (λ line. IfNone line (lines.now ≡ lines_of self.now)) }
        ensures differs { IfOk result (λ line. IfSome line (IsFirstDifference lines.now (lines_of self.now))) }
    {
        let count = self.observations.len();
        let Some(behind) = behind_line(lines.as_text(), head_line(count).as_slice()) else {
            return Ok(Some(1));
        };
        let mut rest = behind;
        let mut line = Vec::new(alloc);
        for place in 0..count {
            self.write_row(&mut line, alloc, place)?;
            let Some(behind) = behind_line(rest, line.as_slice()) else {
                return Ok(Some(place as u32 + 2));
            };
            rest = behind;
        }
        if has_none(rest) {
            Ok(None)
        } else {
            Ok(Some(count as u32 + 2))
        }
    }
}
