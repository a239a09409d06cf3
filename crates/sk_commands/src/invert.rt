//! The tick of a time, and its own time.

ghost use Rattle.std.specs.Prelude.{◌≡◌, [], ◌∷◌, IfOk, decimal};
ghost use Rattle.sk_clock.specs.Clock.{clock_text};
ghost use Rattle.sk_publishing.specs.Row.{IsObservedTime};
ghost use Rattle.sk_decimal.specs.Fixed.{fixed_text};
ghost use Rattle.sk_words.specs.Asked.{options_in};
ghost use Rattle.sk_outcome.specs.Stage.{MayAnswer};
ghost use Rattle.sk_outcome.specs.Output.{line_of as line_of_fields};
ghost use Rattle.sk_outcome.specs.Outcome.{invert_of, said as said_stage, ticked as ticked_stage, told as told_stage};

use crate::inputs::Opened;
use crate::kernel::Kernel;
use crate::ticks::push_tick;
use crate::time_word::time_of_word;
use sk_checks::NoMemory;
use sk_clock::Clock;
use sk_decimal::Fixed;
use sk_inverse::{InverseFault, tick_at};
use sk_leap::LeapTable;
use sk_report::time_of;
use sk_status::{ObsStop, Status, TimeStop};
use sk_words::{OptionName, Request};
use std::alloc::Global;

/// The time of a time word.
fn said(word: &str, leap: &LeapTable) -> Result<Fixed<12>, Status>
    ensures stage { MayAnswer (λ time. time.units) (said_stage word.now leap.now) result }
    ensures small { IfOk result (λ time. IsObservedTime time.units) }
{
    match time_of_word(word.as_bytes(), leap) {
        Ok(time) => Ok(time),
        Err(stop) => Err(Status::TimeRefused(stop)),
    }
}

/// The tick of a time.
fn ticked(kernel: &Kernel, time: Fixed<12>) -> Result<u64, Status>
    requires { IsObservedTime time.units }
    ensures { MayAnswer (λ tick. tick) (ticked_stage kernel.now time.units) result }
{
    match tick_at(&kernel.triples, &kernel.clock, time) {
        Ok(tick) => Ok(tick),
        Err(InverseFault::BeforeFirst) => Err(Status::TimeRefused(TimeStop::BeforeFirst)),
        Err(InverseFault::PastEnd) => Err(Status::TimeRefused(TimeStop::PastEnd)),
    }
}

/// The line of a tick and its time.
fn line_of(alloc: Global, clock: &Clock, tick: u64, time: Fixed<12>) -> Result<Vec<u8>, NoMemory>
    ensures { IfOk result (λ line. line.items ≡ line_of_fields (clock_text clock.now tick ∷ decimal tick ∷ fixed_text 12 time.units ∷ [])) }
{
    let Ok(text) = clock.text_of(alloc, tick) else {
        return Err(NoMemory);
    };
    let mut line = Vec::new(alloc);
    push_tick(&mut line, text.as_str(), tick, time)?;
    line.push(b'\n')?;
    Ok(line)
}

/// The line of a tick, where it has a time.
fn told(alloc: Global, kernel: &Kernel, tick: u64) -> Result<Vec<u8>, Status>
    ensures { MayAnswer (λ v. v.items) (told_stage kernel.now tick) result }
{
    let time = match time_of(&kernel.triples, &kernel.clock, tick) {
        Ok(timed) => timed.time,
        Err(fault) => return Err(Status::ObservationRefused(ObsStop::Range(0, fault))),
    };
    let Ok(line) = line_of(alloc, &kernel.clock, tick, time) else {
        return Err(Status::NoMemory);
    };
    Ok(line)
}

/// What `invert` writes.
pub fn invert(alloc: Global, request: &Request, opened: Opened) -> Result<Vec<u8>, Status>
    ensures { MayAnswer (λ v. v.items) (invert_of (options_in request.now) opened) result }
{
    let word = request.text_or_empty(OptionName::Time);
    let time = said(word, &opened.leap)?;
    let tick = ticked(&opened.kernel, time)?;
    told(alloc, &opened.kernel, tick)
}
