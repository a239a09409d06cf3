//! What a command reads before it judges.

use crate::kernel::Kernel;
use sk_grammar::{Doc, List};
use sk_leap::LeapTable;
use sk_obs::Observation;
use std::marker::Model;

/// The leap table and the clock kernel.
#[derive(Drop)]
pub struct Opened {
    pub leap: LeapTable,
    pub kernel: Kernel,
}

impl Model for Opened {
    ghost use Rattle.sk_outcome.specs.Files.{OpenedRead};
    ghost use Rattle.sk_outcome.specs.Time.{IsDated};

    ghost Value = { OpenedRead };

    ghost view = { λ o. record { leap = o.leap; kernel = o.kernel } };

    ghost invariant = { λ o. IsDated o.leap };
}

/// The clock kernel and the observations.
#[derive(Drop)]
pub struct Inputs {
    pub kernel: Kernel,
    pub observations: List<Observation>,
}

impl Model for Inputs {
    ghost use Rattle.sk_clock.specs.Clock.{total};
    ghost use Rattle.sk_publishing.specs.Row.{AreRows};
    ghost use Rattle.sk_outcome.specs.Files.{InputsRead};

    ghost Value = { InputsRead };

    ghost view = { λ i. record { kernel = i.kernel; observations = i.observations } };

    ghost invariant = { λ i. AreRows (total i.kernel.clock) i.observations };
}

/// The clock kernel and the observations, and the document of the kernel that is to be judged by them.
#[derive(Drop)]
pub struct AuditInputs {
    pub inputs: Inputs,
    pub candidate: Doc,
}

impl Model for AuditInputs {
    ghost use Rattle.std.specs.Prelude.{◌≤◌, length};
    ghost use Rattle.sk_outcome.specs.Files.{AuditRead};

    ghost Value = { AuditRead };

    ghost view = { λ a. record { inputs = a.inputs; candidate = a.candidate } };

    ghost invariant = { λ a. length a.inputs.observations ≤ 100_000 };
}

/// The clock kernel and the observations, and the second kernel where there is one.
#[derive(Drop)]
pub struct PlotInputs {
    pub inputs: Inputs,
    pub second: Option<Kernel>,
}

impl Model for PlotInputs {
    ghost use Rattle.sk_outcome.specs.Drawn.{PlotRead};

    ghost Value = { PlotRead };

    ghost view = { λ p. record { inputs = p.inputs; second = p.second } };
}
