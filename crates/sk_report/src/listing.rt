//! The lines of the table.

ghost use Rattle.std.specs.Prelude.{◌≡◌, ◌<◌, ℕ, All, Option, [], ◌∷◌, ◌++◌, IfOk, IfSome, OnOk, OnErr, length, option_map, codes, decimal};
ghost use Rattle.sk_checks.specs.Checks.{JudgesUnless, carried, FirstRefuses};
ghost use Rattle.sk_grammar.specs.Document.{IsTextLine};
ghost use Rattle.sk_triples.specs.Kernel.{AreOf, range_checks};
ghost use Rattle.sk_publishing.specs.Table.{ChainView, kernel_view, row_lines_from};
ghost use Rattle.sk_publishing.specs.Terms.{sights};
ghost use Rattle.sk_fit.specs.Given.{chain_view};
ghost use Rattle.sk_report.specs.Marks.{AreOver, Tells};
ghost use Rattle.sk_report.specs.Line.{IsLined, fields_of};
ghost use Rattle.sk_fit.specs.Over.{IsChainOver};
ghost use Rattle.sk_report.specs.Report.{table_checks, table_of};

use crate::fault::ReportFault;
use crate::line::write_line;
use crate::marking::{marks_of, old_marks};
use crate::marks::Marks;
use crate::times::time_of;
use crate::words::{end_at, kind_at};
use sk_checks::NoMemory;
use sk_clock::Clock;
use sk_decimal::Line;
use sk_fit::Chain;
use sk_grammar::Lines;
use sk_obs::Observation;
use sk_triples::Triples;
use std::alloc::Global;

// The line with the number of observations.
fn head_line(alloc: Global, count: usize) -> Result<Lines, NoMemory>
    ensures { IfOk result (λ lines. lines ≡ (codes "residuals;" ++ decimal count) ∷ []) }
{
    let mut line = Line::new();
    line.push(b"residuals;");
    line.push_number(count as u128);
    let lines = Lines::new(alloc).with_line(line.as_slice())?;
    Ok(lines)
}

// Puts the line of an observation of this kind and end in place of what `line` holds, and its clock text in place of
// what `text` holds.
fn write_row(
    line: &mut Vec<u8>,
    text: &mut String,
    triples: &Triples,
    clock: &Clock,
    observation: &Observation,
    kind: &str,
    ended: &[u8],
) -> Result<(), ReportFault>
    requires { AreOf clock.now triples.now }
    ensures line { JudgesUnless ReportFault.NoMemory
        (carried (FirstRefuses (range_checks triples.now observation.now.tick)) (ReportFault.Range observation.now.number) ∷ [])
        (λ _. line.new.items ≡ fields_of (kernel_view 12 clock.now triples.now.triples) observation.now kind.now ended.now) result }
    ensures known { OnOk result (IsLined clock.now observation.now) }
{
    let tick = observation.tick;
    let timed = match time_of(triples, clock, tick) {
        Ok(timed) => timed,
        Err(fault) => return Err(ReportFault::Range(observation.number, fault)),
    };
    text.clear();
    let Ok(()) = clock.push_text(text, tick) else {
        return Err(ReportFault::NoMemory);
    };
    let Ok(()) = write_line(line, observation, text.as_str(), timed, kind, ended) else {
        return Err(ReportFault::NoMemory);
    };
    Ok(())
}

// The lines of the head, and those of the observations behind them.
fn with_rows(
    head: Lines,
    alloc: Global,
    triples: &Triples,
    clock: &Clock,
    observations: &[Observation],
    marks: &Marks,
) -> Result<Lines, ReportFault>
    requires triples { AreOf clock.now triples.now }
    requires marks { AreOver (length observations.now) marks.now }
    ensures rows { (chain : Option ChainView) → ((place : ℕ) → place < length observations.now → Tells observations.now chain marks.now place)
        → JudgesUnless ReportFault.NoMemory (table_checks triples.now observations.now)
        (λ lines. lines ≡ head ++ row_lines_from (kernel_view 12 clock.now triples.now.triples) chain observations.now 0 observations.now) result }
    ensures known { IfOk result (λ _. All (IsLined clock.now) observations.now) }
{
    let mut lines = head;
    // One line at a time stands here, and its clock text, so that their room is taken once.
    let mut line = Vec::new(alloc);
    let mut text = String::new(alloc);
    for (place, observation) in observations.iter().enumerate() {
        let kind = kind_at(marks, place);
        let ended = end_at(observations, marks, place);
        if let Err(fault) = write_row(
            &mut line,
            &mut text,
            triples,
            clock,
            observation,
            kind,
            ended.as_slice(),
        ) {
            return Err(fault);
        }
        let Ok(more) = lines.with_line(line.as_slice()) else {
            return Err(ReportFault::NoMemory);
        };
        lines = more;
    }
    Ok(lines)
}

// The marks of the chain, or of observations that are all old.
fn marks_for(
    alloc: Global,
    observations: &[Observation],
    chain: Option<&Chain>,
) -> Result<Marks, NoMemory>
    requires { IfSome chain (λ c. IsChainOver (length observations.now) c.now) }
    ensures over { IfOk result (AreOver (length observations.now)) }
    ensures tells { IfOk result (λ m. (place : ℕ) → place < length observations.now
        → Tells observations.now (option_map (chain_view (sights observations.now)) (option_map (λ c. c.now) chain.entry)) m place) }
{
    match chain {
        None => Ok(old_marks(alloc, observations.len())),
        Some(chain) => marks_of(alloc, chain, observations),
    }
}

/// The lines of the table: the number of observations, and a line for each. Without a chain all are old.
pub fn table(
    alloc: Global,
    triples: &Triples,
    clock: &Clock,
    observations: &[Observation],
    chain: Option<&Chain>,
) -> Result<Lines, ReportFault>
    requires triples { AreOf clock.now triples.now }
    requires chain { IfSome chain (λ c. IsChainOver (length observations.now) c.now) }
    ensures table { JudgesUnless ReportFault.NoMemory (table_checks triples.now observations.now)
        (λ lines. lines ≡ table_of clock.now triples.now observations.now (option_map (λ c. c.now) chain.entry)) result }
    // A block can have them as its text.
    ensures lines { IfOk result (All IsTextLine) }
{
    let Ok(marks) = marks_for(alloc, observations, chain) else {
        return Err(ReportFault::NoMemory);
    };
    let Ok(head) = head_line(alloc, observations.len()) else {
        return Err(ReportFault::NoMemory);
    };
    match with_rows(head, alloc, triples, clock, observations, &marks) {
        Ok(lines) => Ok(lines),
        Err(fault) => Err(fault),
    }
}
