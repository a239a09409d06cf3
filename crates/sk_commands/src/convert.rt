//! The tick, the time and the UTC of a clock word.
ghost use Rattle.std.specs.Prelude.{◌≡◌, [], ◌∷◌, IfOk, decimal, string_bytes};
ghost use Rattle.sk_decimal.specs.Fixed.{fixed_text};
ghost use Rattle.sk_clock.specs.Clock.{clock_text};
ghost use Rattle.sk_words.specs.Asked.{options_in};
ghost use Rattle.sk_outcome.specs.Stage.{MayAnswer};
ghost use Rattle.sk_outcome.specs.Output.{line_of as line_of_fields};
ghost use Rattle.sk_outcome.specs.Time.{IsDated, IsUtcWord};
ghost use Rattle.sk_outcome.specs.Outcome.{convert_of, clock_tick as tick_stage, converted as converted_stage};

use crate::inputs::Opened;
use crate::kernel::Kernel;
use crate::ticks::push_tick;
use sk_checks::NoMemory;
use sk_clock::Clock;
use sk_decimal::Fixed;
use sk_leap::{LeapTable, print_utc};
use sk_obs::{ClockWordStop, read_clock_word};
use sk_report::time_of;
use sk_status::{ObsStop, Status};
use sk_words::{OptionName, Request};
use std::alloc::Global;

/// The tick of a clock word.
fn clock_tick(alloc: Global, word: &str, clock: &Clock) -> Result<u64, Status>
    ensures { MayAnswer (λ tick. tick) (tick_stage word.now clock.now) result }
{
    match read_clock_word(alloc, word.as_bytes(), clock) {
        Ok(tick) => Ok(tick),
        Err(ClockWordStop::NoMemory) => Err(Status::NoMemory),
        Err(ClockWordStop::Refused(fault)) => {
            Err(Status::ObservationRefused(ObsStop::Clock(fault)))
        }
    }
}

/// The UTC of a time in code A; `-` where the leap table has none.
fn utc_word(alloc: Global, leap: &LeapTable, time: Fixed<12>) -> Result<String, NoMemory>
    requires { IsDated leap.now }
    ensures { IfOk result (λ word. IsUtcWord leap.now time.units (string_bytes word)) }
{
    match leap.to_utc(time) {
        Ok(utc) => print_utc(alloc, utc),
        Err(_) => String::from_str(alloc, "-"),
    }
}

/// The line of a tick, its time and a UTC.
fn line_of(
    alloc: Global,
    clock: &Clock,
    tick: u64,
    time: Fixed<12>,
    utc: &str,
) -> Result<Vec<u8>, NoMemory>
    ensures { IfOk result (λ line. line.items ≡ line_of_fields (clock_text clock.now tick ∷ decimal tick ∷ fixed_text 12 time.units ∷ utc.now ∷ [])) }
{
    let Ok(text) = clock.text_of(alloc, tick) else {
        return Err(NoMemory);
    };
    let mut line = Vec::new(alloc);
    push_tick(&mut line, text.as_str(), tick, time)?;
    line.push(b';')?;
    line.extend_from_slice(utc.as_bytes())?;
    line.push(b'\n')?;
    Ok(line)
}

/// The line of a tick, where it has a time.
fn converted(alloc: Global, kernel: &Kernel, leap: &LeapTable, tick: u64) -> Result<Vec<u8>, Status>
    requires { IsDated leap.now }
    ensures { MayAnswer (λ v. v.items) (converted_stage leap.now kernel.now tick) result }
{
    let time = match time_of(&kernel.triples, &kernel.clock, tick) {
        Ok(timed) => timed.time,
        Err(fault) => return Err(Status::ObservationRefused(ObsStop::Range(0, fault))),
    };
    let Ok(utc) = utc_word(alloc, leap, time) else {
        return Err(Status::NoMemory);
    };
    let Ok(line) = line_of(alloc, &kernel.clock, tick, time, utc.as_str()) else {
        return Err(Status::NoMemory);
    };
    Ok(line)
}

/// What `convert` writes.
pub fn convert(alloc: Global, request: &Request, opened: Opened) -> Result<Vec<u8>, Status>
    ensures { MayAnswer (λ v. v.items) (convert_of (options_in request.now) opened) result }
{
    let kernel = &opened.kernel;
    let word = request.text_or_empty(OptionName::Clock);
    let tick = clock_tick(alloc, word, &kernel.clock)?;
    converted(alloc, kernel, &opened.leap, tick)
}
