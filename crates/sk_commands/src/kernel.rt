use sk_clock::Clock;
use sk_grammar::Doc;
use sk_triples::Triples;
use std::marker::Model;

/// A clock kernel: its document, and what the document means.
#[derive(Drop)]
pub struct Kernel {
    pub doc: Doc,
    pub clock: Clock,
    pub triples: Triples,
}

impl Model for Kernel {
    ghost use Rattle.sk_triples.specs.Kernel.{AreOf};
    ghost use Rattle.sk_outcome.specs.Files.{KernelRead};

    ghost Value = { KernelRead };

    ghost view = { λ k. record { doc = k.doc; clock = k.clock; triples = k.triples } };

    ghost invariant = { λ k. AreOf k.clock k.triples };
}
