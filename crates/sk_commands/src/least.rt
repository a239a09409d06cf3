//! How few lines can meet the observations.
ghost use Rattle.std.specs.Prelude.{◌≡◌, ◌≤◌, ◌<◌, ◌*◌, ◌^◌, ◌∷◌, [], ◌++◌, All, IfOk, OnOk, codes, decimal, length, pos, ◌≤ℤ◌};
ghost use Rattle.sk_clock.specs.Clock.{total};
ghost use Rattle.sk_publishing.specs.Row.{AreRows};
ghost use Rattle.sk_least.specs.Answer.{IsStopWithin, IsWithin};
ghost use Rattle.sk_words.specs.Asked.{options_in};
ghost use Rattle.sk_outcome.specs.Stage.{MayAnswer};
ghost use Rattle.sk_outcome.specs.Output.{least_text, line_of, number_at, settings_of, stop_text, stretch_line};
ghost use Rattle.sk_outcome.specs.Outcome.{least_of};

use crate::inputs::Inputs;
use sk_checks::NoMemory;
use sk_decimal::{Fixed, Line};
use sk_least::{Stop, Stretch, least as shortest_cover};
use sk_obs::Observation;
use sk_status::Status;
use sk_words::Request;
use std::alloc::Global;

/// The tolerance of the request.
fn tolerance_of(request: &Request) -> Fixed<12>
    ensures value { result ≡ (settings_of (options_in request.now)).tolerance }
    ensures from { pos 1000 ≤ℤ result.units }
    ensures to { result.units ≤ℤ pos (60 * 10 ^ 12) }
{
    Fixed {
        units: i128::from(request.tolerance()) * 1000,
    }
}

/// Appends the record numbers of two observations, with `:` between.
fn push_pair(
    out: &mut Vec<u8>,
    observations: &[Observation],
    from: usize,
    to: usize,
) -> Result<(), NoMemory>
    requires from { from < length observations.now }
    requires to { to < length observations.now }
    ensures { OnOk result (out.new.items ≡ out.old.items
        ++ (number_at observations.now from ++ 58 ∷ number_at observations.now to)) }
{
    let (first, second) = (&observations[from], &observations[to]);
    let mut text = Line::new();
    text.push_number(u128::from(first.number));
    text.push(b":");
    text.push_number(u128::from(second.number));
    out.extend_from_slice(text.as_slice())?;
    Ok(())
}

/// Appends why a run ends.
fn push_stop(out: &mut Vec<u8>, observations: &[Observation], stop: Stop) -> Result<(), NoMemory>
    requires { IsStopWithin (length observations.now) stop }
    ensures { OnOk result (out.new.items ≡ out.old.items ++ stop_text observations.now stop) }
{
    match stop {
        Stop::Last => out.extend_from_slice(b"last")?,
        Stop::Partition => out.extend_from_slice(b"partition")?,
        Stop::Bent {
            need_from,
            need_to,
            room_from,
            room_to,
        } => {
            out.extend_from_slice(b"bent:")?;
            push_pair(out, observations, need_from, need_to)?;
            out.push(b':')?;
            push_pair(out, observations, room_from, room_to)?;
        }
    }
    Ok(())
}

/// Appends the line of a run.
fn push_stretch(
    out: &mut Vec<u8>,
    observations: &[Observation],
    stretch: &Stretch,
) -> Result<(), NoMemory>
    requires { IsWithin (length observations.now) stretch.now }
    ensures { OnOk result (out.new.items ≡ out.old.items ++ stretch_line observations.now stretch.now) }
{
    let (first, last) = (
        &observations[stretch.first],
        &observations[stretch.past - 1],
    );
    out.extend_from_slice(first.id.as_slice())?;
    out.push(b';')?;
    out.extend_from_slice(last.id.as_slice())?;
    out.push(b';')?;
    push_stop(out, observations, stretch.stop)?;
    out.push(b'\n')?;
    Ok(())
}

/// The line that tells how many runs follow.
fn head(count: usize) -> Line
    ensures { result ≡ line_of (codes "least" ∷ decimal count ∷ []) }
{
    let mut line = Line::new();
    line.push(b"least;");
    line.push_number(count as u128);
    line.push(b"\n");
    line
}

/// The lines of the runs.
fn told(
    alloc: Global,
    observations: &[Observation],
    stretches: &[Stretch],
) -> Result<Vec<u8>, NoMemory>
    requires { All (IsWithin (length observations.now)) stretches.now }
    ensures { IfOk result (λ text. text.items ≡ least_text observations.now stretches.now) }
{
    let mut text = Vec::new(alloc);
    text.extend_from_slice(head(stretches.len()).as_slice())?;
    for stretch in stretches {
        push_stretch(&mut text, observations, stretch)?;
    }
    Ok(text)
}

/// What `least` writes.
pub fn least(alloc: Global, request: &Request, inputs: Inputs) -> Result<Vec<u8>, Status>
    ensures { MayAnswer (λ v. v.items) (least_of (options_in request.now) inputs) result }
{
    let observations = inputs.observations.as_slice();
    let tolerance = tolerance_of(request);
    let clock = &inputs.kernel.clock;
    let Ok(stretches) = shortest_cover(alloc, clock, observations, tolerance) else {
        return Err(Status::NoMemory);
    };
    let Ok(text) = told(alloc, observations, stretches.as_slice()) else {
        return Err(Status::NoMemory);
    };
    Ok(text)
}
