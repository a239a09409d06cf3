//! What is built of a publication so far, and what an observation more does to it.

ghost use Rattle.std.specs.Prelude.{◌≡◌, ◌+◌, ◌++◌, ◌∷◌, ◌^◌, IfOk, ◌<◌, OnOk, OnErr, IfErr, true, false, Ok, ◌≢◌, [], length, slice_get, Some};
ghost use Rattle.sk_publishing.specs.Row.{RowView};
ghost use Rattle.sk_publishing.specs.Kept.{is_new};
ghost use Rattle.sk_fit.specs.Given.{sight_at};
ghost use Rattle.sk_fit.specs.Barriers.{IsEndWithin};
ghost use Rattle.sk_fit.specs.State.{fresh, dropped_at};
ghost use Rattle.sk_fit.specs.Fitted.{IsFitted, StopsAt};
ghost use Rattle.sk_fit.specs.Context.{terms, IsNext, IsBuiltTo, Grows, IsHere, LacksRate, LetsTimeFall, StopsFit};

use crate::chain::{Chain, End, Segment};
use crate::context::Fit;
use crate::fault::FitFault;
use crate::settings::Line;
use crate::start::Start;
use sk_checks::NoMemory;
use sk_grammar::List;
use sk_obs::Observation;
use std::alloc::Global;
use std::marker::Model;

/// What is built of a publication so far: closed segments, the open one, and the places that are dropped.
#[derive(Drop)]
pub struct Fitting {
    pub(crate) closed: Vec<Segment>,
    pub(crate) open_one: Segment,
    /// Where the line of the open segment is left.
    pub(crate) leave_tick: u64,
    /// The running interval of the open segment, and the places that set it.
    pub(crate) least: i128,
    pub(crate) greatest: i128,
    pub(crate) least_place: usize,
    pub(crate) greatest_place: usize,
    dropped: Vec<usize>,
}

impl Model for Fitting {
    ghost use Rattle.sk_fit.specs.State.{FittingView};

    ghost Value = { FittingView };

    ghost view = { λ f. record {
      closed = f.closed.items;
      open_one = f.open_one;
      leave_tick = f.leave_tick;
      least = f.least;
      greatest = f.greatest;
      least_place = f.least_place;
      greatest_place = f.greatest_place;
      dropped = f.dropped.items;
    } };
}

impl Fitting {
    /// Nothing is built yet: the line of the old last triple goes on to the seam, and observations come from a place on.
    pub fn new(alloc: Global, start: Start, place: usize) -> Fitting
        ensures { result ≡ fresh start.old start.seam place }
    {
        let old = start.old;
        Fitting {
            closed: Vec::new(alloc),
            open_one: Segment {
                anchor: Line {
                    ticks: old.ticks,
                    time: old.time,
                },
                rate: old.rate,
                first: place,
                past: place,
                ended: End::Last,
            },
            leave_tick: start.seam,
            least: 0,
            greatest: 0,
            least_place: place,
            greatest_place: place,
            dropped: Vec::new(alloc),
        }
    }

    /// The chain of what is built.
    pub fn into_chain(self, first_new: usize) -> Result<Chain, NoMemory>
        ensures { IfOk result (λ c. c ≡ record { first_new = first_new; dropped = self.dropped; segments = self.closed ++ self.open_one ∷ [] }) }
    {
        let mut segments = self.closed;
        segments.push(self.open_one)?;
        Ok(Chain {
            first_new,
            dropped: List::from_vec(self.dropped),
            segments: List::from_vec(segments),
        })
    }

    /// One observation more: it is covered or dropped, or it stops the fit.
    pub fn take(&mut self, fit: &Fit, place: usize) -> Result<(), FitFault>
        requires within { place < length fit.now.rows }
        requires new { (row : RowView) → slice_get fit.now.rows place ≡ Some row → is_new (terms fit.now) (sight_at place row) ≡ true }
        requires fitted { IsFitted (terms fit.now) fit.now.rows place self.old }
        ensures ok { OnOk result (IsFitted (terms fit.now) fit.now.rows (place + 1) self.new) }
        ensures fault { IfErr result (StopsAt (terms fit.now) fit.now.rows) }
    {
        let obs = fit.at(place);
        self.take_next(fit, place, obs)?;
        Ok(())
    }

    /// The next observation is covered or dropped, or it stops the fit.
    fn take_next(&mut self, fit: &Fit, place: usize, obs: &Observation) -> Result<(), FitFault>
        requires built { IsBuiltTo fit.now place self.old }
        requires next { IsNext fit.now place obs.now }
        ensures moved { OnOk result (Grows fit.now place obs.now self.old self.new) }
        ensures stopped { IfErr result (StopsFit fit.now place obs.now self.old) }
    {
        if fit.are_together(obs, self.open_one.anchor.ticks) {
            return self.take_here(fit, place, obs);
        }
        self.take_apart(fit, place, obs)
    }

    /// The next observation, in the open segment's partition: it is covered or dropped.
    fn take_here(&mut self, fit: &Fit, place: usize, obs: &Observation) -> Result<(), FitFault>
        requires built { IsBuiltTo fit.now place self.old }
        requires next { IsNext fit.now place obs.now }
        requires here { IsHere fit.now place obs.now self.old }
        ensures moved { OnOk result (Grows fit.now place obs.now self.old self.new) }
        ensures stopped { IfErr result (StopsFit fit.now place obs.now self.old) }
    {
        let Some(ended) = self.goes_on(fit, place, obs) else {
            return Ok(());
        };
        let Ok(went) = self.leave_here(fit, place, obs, ended) else {
            return Err(FitFault::NoMemory);
        };
        if went {
            return Ok(());
        }
        self.drop_or_stop(fit, place, obs, ended)
    }

    /// The next observation, in another partition: it is covered.
    fn take_apart(&mut self, fit: &Fit, place: usize, obs: &Observation) -> Result<(), FitFault>
        requires built { IsBuiltTo fit.now place self.old }
        requires next { IsNext fit.now place obs.now }
        requires away { ¬ IsHere fit.now place obs.now self.old }
        ensures moved { OnOk result (Grows fit.now place obs.now self.old self.new) }
        ensures stopped { IfErr result (StopsFit fit.now place obs.now self.old) }
    {
        let Ok(went) = self.cover_apart(fit, place, obs) else {
            return Err(FitFault::NoMemory);
        };
        if went {
            return Ok(());
        }
        Err(FitFault::TimeFalls(obs.number))
    }

    /// A segment of another partition covers the observation; `false` where time would fall.
    fn cover_apart(&mut self, fit: &Fit, place: usize, obs: &Observation) -> Result<bool, NoMemory>
        requires built { IsBuiltTo fit.now place self.old }
        requires next { IsNext fit.now place obs.now }
        requires away { ¬ IsHere fit.now place obs.now self.old }
        ensures began { result ≡ Ok true → Grows fit.now place obs.now self.old self.new }
        ensures stays { result ≢ Ok true → self.new ≡ self.old }
        ensures falls { result ≡ Ok false → LetsTimeFall fit.now place obs.now self.old }
    {
        if fit.is_late(self.open_one, obs) {
            return Ok(false);
        }
        match self.leave_apart(fit, place, obs) {
            Ok(()) => Ok(true),
            Err(fault) => Err(fault),
        }
    }

    /// The observation is dropped, where one more may be; the open segment, which ends so, could not go on to it.
    fn drop_or_stop(
        &mut self,
        fit: &Fit,
        place: usize,
        obs: &Observation,
        ended: End,
    ) -> Result<(), FitFault>
        requires built { IsBuiltTo fit.now place self.old }
        requires next { IsNext fit.now place obs.now }
        requires none { LacksRate fit.now place obs.now ended self.old }
        requires within { IsEndWithin (length fit.now.rows) ended }
        ensures moved { OnOk result (Grows fit.now place obs.now self.old self.new) }
        ensures stopped { IfErr result (StopsFit fit.now place obs.now self.old) }
    {
        if fit.is_full(self.dropped.len()) {
            let mut left = self.open_one;
            left.ended = ended;
            return Err(FitFault::NoRate(obs.number, fit.barrier(left, obs)));
        }
        match self.drop_place(place) {
            Ok(()) => Ok(()),
            Err(_) => Err(FitFault::NoMemory),
        }
    }

    /// A place is dropped.
    fn drop_place(&mut self, place: usize) -> Result<(), NoMemory>
        ensures ok { OnOk result (self.new ≡ dropped_at self.old place) }
        ensures err { OnErr result (self.new ≡ self.old) }
    {
        self.dropped.push(place)?;
        Ok(())
    }
}
