//! The published kernel.
ghost use Rattle.std.specs.Prelude.{◌≡◌, ◌++◌, All, List as Sequence, IfOk, Some, length};
ghost use Rattle.sk_grammar.specs.Canonical.{canonical_text};
ghost use Rattle.sk_grammar.specs.Document.{IsTextLine};
ghost use Rattle.sk_clock.specs.Clock.{total};
ghost use Rattle.sk_publishing.specs.Row.{AreRows};
ghost use Rattle.sk_line.specs.Triple.{TripleView};
ghost use Rattle.sk_triples.specs.Kernel.{AreOf, AreTriples};
ghost use Rattle.sk_publishing.specs.Published.{appended, published_block};
ghost use Rattle.sk_fit.specs.Given.{AreSettings, new_triples_of};
ghost use Rattle.sk_fit.specs.Over.{IsChainOver};
ghost use Rattle.sk_report.specs.Report.{table_of};
ghost use Rattle.sk_publication.specs.Publication.{HasNumbers};
ghost use Rattle.sk_words.specs.Asked.{options_in, NeedsNumber};
ghost use Rattle.sk_outcome.specs.Stage.{MayAnswer};
ghost use Rattle.sk_outcome.specs.Files.{sc_of};
ghost use Rattle.sk_outcome.specs.Output.{settings_of as settings_by, dated, new_kernel};
ghost use Rattle.sk_outcome.specs.Outcome.{publish_of, chain_of as chain_stage, all_covered};
ghost use Rattle.sk_outcome.specs.Publishing.{after_chain};

use crate::inputs::Inputs;
use crate::kernel::Kernel;
use sk_checks::NoMemory;
use sk_clock::Clock;
use sk_decimal::Fixed;
use sk_fit::{Chain, FitFault, Settings, fit};
use sk_grammar::{Doc, Lines, List};
use sk_obs::Observation;
use sk_publication::published_doc;
use sk_report::{ReportFault, table};
use sk_status::{ObsStop, Status};
use sk_triples::{Triple, Triples};
use sk_words::{OptionName, Request};
use sk_writer::write_doc;
use std::alloc::Global;

/// What a publication is to meet, by the options.
fn settings_of(request: &Request) -> Settings
    ensures settings { result ≡ settings_by (options_in request.now) }
    ensures ranges { AreSettings result }
{
    Settings {
        tolerance: Fixed {
            units: i128::from(request.tolerance()) * 1000,
        },
        rate_decimals: request.rate_decimals(),
        band: request.band(),
        slip: Fixed {
            units: i128::from(request.slip()),
        },
        hold: request.hold(),
        reject: request.reject(),
    }
}

/// The publication of the observations.
pub fn chain_of(
    alloc: Global,
    request: &Request,
    kernel: &Kernel,
    observations: &[Observation],
) -> Result<Chain, Status>
    requires { AreRows (total kernel.now.clock) observations.now }
    ensures stage { MayAnswer (λ c. c) (chain_stage (options_in request.now) kernel.now observations.now) result }
    ensures over { IfOk result (IsChainOver (length observations.now)) }
    ensures triples { IfOk result (λ c. AreTriples kernel.now.triples.total (kernel.now.triples.triples ++ new_triples_of c)) }
{
    let settings = settings_of(request);
    match fit(
        alloc,
        &kernel.triples,
        &kernel.clock,
        observations,
        &settings,
    ) {
        Ok(chain) => Ok(chain),
        Err(FitFault::NoMemory) => Err(Status::NoMemory),
        Err(fault) => Err(Status::NotPublished(fault)),
    }
}

/// The lines of the table by the new triples.
fn new_table(
    alloc: Global,
    triples: &Triples,
    clock: &Clock,
    observations: &[Observation],
    chain: &Chain,
) -> Result<Lines, Status>
    requires triples { AreOf clock.now triples.now }
    requires chain { IsChainOver (length observations.now) chain.now }
    ensures covered { MayAnswer (λ _. tt) (all_covered triples.now observations.now) result }
    ensures table { IfOk result (λ lines. lines ≡ table_of clock.now triples.now observations.now (Some chain.now)) }
    ensures lines { IfOk result (λ lines. All IsTextLine lines) }
{
    match table(alloc, triples, clock, observations, Some(chain)) {
        Ok(lines) => Ok(lines),
        Err(ReportFault::NoMemory) => Err(Status::NoMemory),
        Err(ReportFault::Range(number, fault)) => {
            Err(Status::ObservationRefused(ObsStop::Range(number, fault)))
        }
    }
}

/// The triples of the new kernel behind those of the old one.
pub fn behind<'a>(triples: &'a Triples, old: &Triples) -> &'a [Triple]
    requires { (more : Sequence TripleView) × (triples.now.triples ≡ old.now.triples ++ more) }
    ensures added { triples.now.triples ≡ old.now.triples ++ result.now }
    ensures numbers { All HasNumbers result.now }
{
    let (_, added) = triples.list().split_at(old.list().len());
    added
}

/// The canonical text of the document with the block of a publication behind it.
fn text_with(
    alloc: Global,
    request: &Request,
    doc: Doc,
    new_triples: &[Triple],
    table: Lines,
) -> Result<Vec<u8>, NoMemory>
    requires number { NeedsNumber request.now.command }
    requires triples { All HasNumbers new_triples.now }
    requires table { All IsTextLine table }
    ensures { IfOk result (λ text. text.items ≡ canonical_text (appended doc (published_block (dated (options_in request.now)) (sc_of (options_in request.now)) new_triples.now table))) }
{
    let id = request.text(OptionName::Id);
    let sc = request.spacecraft();
    let published = published_doc(alloc, doc, id, sc, new_triples, table)?;
    write_doc(alloc, &published)
}

/// The text of the kernel with the publication's block.
fn published_text(
    alloc: Global,
    request: &Request,
    kernel: Kernel,
    observations: List<Observation>,
    chain: &Chain,
) -> Result<Vec<u8>, Status>
    requires number { NeedsNumber request.now.command }
    requires over { IsChainOver (length observations) chain.now }
    requires triples { AreTriples kernel.triples.total (kernel.triples.triples ++ new_triples_of chain.now) }
    ensures { MayAnswer (λ v. v.items) (after_chain (options_in request.now) kernel observations chain.now) result }
{
    let Ok(triples) = chain.triples(alloc, &kernel.triples) else {
        return Err(Status::NoMemory);
    };
    let rows = observations.as_slice();
    let table = new_table(alloc, &triples, &kernel.clock, rows, chain)?;
    // The table tells all that is left to tell of them, and the text will take as much memory.
    drop(observations);
    let added = behind(&triples, &kernel.triples);
    let Ok(text) = text_with(alloc, request, kernel.doc, added, table) else {
        return Err(Status::NoMemory);
    };
    Ok(text)
}

/// What `publish` writes.
pub fn publish(alloc: Global, request: &Request, inputs: Inputs) -> Result<Vec<u8>, Status>
    requires { NeedsNumber request.now.command }
    ensures { MayAnswer (λ v. v.items) (publish_of (options_in request.now) inputs) result }
{
    let rows = inputs.observations.as_slice();
    let chain = chain_of(alloc, request, &inputs.kernel, rows)?;
    published_text(alloc, request, inputs.kernel, inputs.observations, &chain)
}
