//! The top call.

ghost use Rattle.std.specs.Prelude.{◌≡◌, ◌⊎◌, List, ℕ, Option, Some, Result, Ok, Err, map, string_bytes, IfErr, IsSome, All, codes, false, ◌∷◌};
ghost use Rattle.std.specs.Io.KnownBytes.{Appends};
ghost use Rattle.sk_edge.specs.Asked.{AsksAmong};
ghost use Rattle.sk_edge.specs.Causes.{Rose};
ghost use Rattle.sk_words.specs.Words.{is_taken};
ghost use Rattle.sk_words.specs.Help.{page_of};
ghost use Rattle.sk_words.specs.Asked.{options_in, Request as Asked};
ghost use Rattle.sk_words.specs.Request.{files_of};
ghost use Rattle.station.specs.Asking.{names_read, AsksBy};
ghost use Rattle.sk_outcome.specs.Stage.{MayAnswer, gives};
ghost use Rattle.sk_outcome.specs.Seen.{seen_by, Stays};
ghost use Rattle.sk_outcome.specs.Outcome.{commanded, outcome, outcome_of, requested as requested_by};
ghost use Rattle.sk_outcome.specs.Ending.{Ends, HasEnded};
ghost use Rattle.sk_outcome.specs.Output.{yes_line};
ghost use Rattle.sk_headline.specs.Accepted.{AreHeldToJudge, SpellsPublished};
ghost use Rattle.sk_headline.specs.Headline.{AreHeld, IsPublished};
ghost use Rattle.sk_status.specs.Written.{written_by};
ghost use Rattle.sk_advice.specs.Told.{IsTold};
ghost use Rattle.sk_status.specs.Notes.{CarriesNoMemory};
ghost use Rattle.sk_status.specs.declared.status.Status.{Status as Ended};

use crate::files::kernel_document;
use crate::inputs::{read_audit, read_inputs, read_opened};
use crate::made::made_inputs;
use crate::over::joined_kernel;
use crate::pictured::read_plot;
use sk_advice::write_told;
use sk_checks::NoMemory;
use sk_commands::audit::audit;
use sk_commands::convert::convert;
use sk_commands::excerpt::excerpt;
use sk_commands::invert::invert;
use sk_commands::least::least;
use sk_commands::normal::normal;
use sk_commands::plot::plot;
use sk_commands::publish::publish;
use sk_commands::residuals::residuals;
use sk_commands::sample::sample;
use sk_edge::{Depot, Failed, Sink, write_all};
use sk_status::Status;
use sk_words::{
    Command, Request, Topic, WordsFault, WordsStop, page, requested, station_words, topic_of,
};
use std::alloc::Global;

/// What the command writes.
fn command_text<D: Depot>(
    alloc: Global,
    depot: &mut D,
    request: &Request,
) -> Result<Vec<u8>, Status>
    ensures stays { Stays D.holds D.faults depot.old depot.new }
    ensures asks { AsksAmong (D.asked depot.old) (D.asked depot.new) (names_read request.now.command (options_in request.now)) }
    ensures stage { MayAnswer (λ v. v.items) (outcome_of request.now.command (seen_by D.holds D.given D.faults depot.old depot.new) (options_in request.now)) result }
{
    match request.command() {
        Command::Publish => publish(alloc, request, read_inputs(alloc, depot, request)?),
        Command::Residuals => residuals(alloc, read_inputs(alloc, depot, request)?),
        Command::Normal => normal(alloc, kernel_document(alloc, depot, request)?),
        Command::Convert => convert(alloc, request, read_opened(alloc, depot, request)?),
        Command::Sample => sample(alloc, request, made_inputs(alloc, request)?),
        Command::Invert => invert(alloc, request, read_opened(alloc, depot, request)?),
        Command::Audit => audit(alloc, request, read_audit(alloc, depot, request)?),
        Command::Excerpt => excerpt(alloc, request, joined_kernel(alloc, depot, request)?),
        Command::Least => least(alloc, request, read_inputs(alloc, depot, request)?),
        Command::Plot => plot(alloc, request, read_plot(alloc, depot, request)?),
    }
}

/// What the words come to where they ask for a command, the first of which stands for the program's name.
fn asked_text<D: Depot>(alloc: Global, words: &[&str], depot: &mut D) -> Result<Vec<u8>, Status>
    ensures stays { Stays D.holds D.faults depot.old depot.new }
    ensures asks { AsksBy (D.asked depot.old) (D.asked depot.new) (map (λ w. w.now) words.now) }
    ensures stage { MayAnswer (λ v. v.items) (commanded (map (λ w. w.now) words.now) (seen_by D.holds D.given D.faults depot.old depot.new)) result }
    ensures not_taken { result ≡ Err (Status.WordsRefused WordsFault.NotTaken) → is_taken (map (λ w. w.now) words.now) ≡ false }
{
    match requested(alloc, words) {
        Ok(request) => command_text(alloc, depot, &request),
        Err(WordsStop::Refused(fault)) => Err(Status::WordsRefused(fault)),
        Err(WordsStop::NoMemory) => Err(Status::NoMemory),
    }
}

/// The page of a topic.
fn page_text(alloc: Global, topic: Topic) -> Result<Vec<u8>, Status>
    ensures stage { MayAnswer (λ v. v.items) (gives (page_of topic)) result }
    ensures memory { IfErr result (λ status. status ≡ Status.NoMemory) }
{
    match page(alloc, topic) {
        Ok(text) => Ok(text),
        Err(_) => Err(Status::NoMemory),
    }
}

/// What the words and the files come to.
fn whole_text<D: Depot>(alloc: Global, words: &[String], depot: &mut D) -> Result<Vec<u8>, Status>
    ensures stays { Stays D.holds D.faults depot.old depot.new }
    ensures asks { AsksBy (D.asked depot.old) (D.asked depot.new) (codes "station" ∷ map string_bytes words.now) }
    ensures stage { MayAnswer (λ v. v.items) (outcome (map string_bytes words.now) (seen_by D.holds D.given D.faults depot.old depot.new)) result }
    ensures not_taken { result ≡ Err (Status.WordsRefused WordsFault.NotTaken) → is_taken (codes "station" ∷ map string_bytes words.now) ≡ false }
{
    let Ok(all) = station_words(alloc, words) else {
        return Err(Status::NoMemory);
    };
    match topic_of(all.as_slice()) {
        Some(topic) => page_text(alloc, topic),
        None => asked_text(alloc, all.as_slice(), depot),
    }
}

/// Writes the whole text.
fn write_text<S: Sink>(out: &mut S, text: &[u8]) -> Status
    ensures ends { Ends (gives text.now) (written_by S.written S.faults out.old out.new) result }
    ensures apart { CarriesNoMemory result }
{
    match write_all(out, text) {
        Ok(()) => Status::Done,
        Err(Failed) => Status::WriteFault,
    }
}

/// Writes what the words and the files come to; nothing where they are refused.
fn ended<D: Depot, S: Sink>(alloc: Global, words: &[String], depot: &mut D, out: &mut S) -> Status
    ensures stays { Stays D.holds D.faults depot.old depot.new }
    ensures asks { AsksBy (D.asked depot.old) (D.asked depot.new) (codes "station" ∷ map string_bytes words.now) }
    ensures ends { Ends (outcome (map string_bytes words.now) (seen_by D.holds D.given D.faults depot.old depot.new)) (written_by S.written S.faults out.old out.new) result }
    ensures not_taken { result ≡ Status.WordsRefused WordsFault.NotTaken → is_taken (codes "station" ∷ map string_bytes words.now) ≡ false }
    ensures apart { CarriesNoMemory result }
{
    match whole_text(alloc, words, depot) {
        Ok(text) => write_text(out, text.as_slice()),
        Err(status) => status,
    }
}

/// Does all that the program does: reads the files that the words name, and writes what the command asks for.
pub fn run<D: Depot, S: Sink, N: Sink>(
    alloc: Global,
    words: &[String],
    depot: &mut D,
    out: &mut S,
    notes: &mut N,
) -> Status
    // What is written is the text that the words and the files come to, whole or a prefix where the output failed;
    // each other status is the first refusal, or a fault of reading, and then nothing is written.
    ensures ends { Ends (outcome (map string_bytes words.now) (seen_by D.holds D.given D.faults depot.old depot.new)) (written_by S.written S.faults out.old out.new) result }

    // Where no count rose and the files are known, the run ends with the bytes or the refusal that they say, unless memory runs out.
    ensures complete { (request : Asked) (ended : Result (List ℕ) Ended)
        → requested_by (codes "station" ∷ map string_bytes words.now) (Ok request)
        → ((name : List ℕ) → ¬ Rose (D.faults depot.old name) (D.faults depot.new name))
        → (¬ Rose (S.faults out.old) (S.faults out.new))
        → All (λ name. IsSome (D.holds depot.old name)) (files_of request.options)
        → outcome (map string_bytes words.now) (record { holds = D.holds depot.old; given = D.given depot.new; rose = λ name. ⊥ }) ended
        → HasEnded ended (written_by S.written S.faults out.old out.new) result ⊎ (result ≡ Status.NoMemory) }

    // A publication that ends with status 0 writes a kernel in which every old triple stands, each kept new observation
    // lies within the tolerance, time falls only at joins where the old kernel fell, and a new triple begins only where
    // the partition changes or no rate allowed from the ended anchor meets its observations and the next.
    ensures headline { (request : Asked) (leap_bytes : Option (List ℕ)) (kernel_bytes observation_bytes : List ℕ)
        → requested_by (codes "station" ∷ map string_bytes words.now) (Ok request)
        → request.command ≡ Command.Publish → result ≡ Status.Done
        → AreHeld (D.holds depot.old) request.options leap_bytes kernel_bytes observation_bytes
        → (written : List ℕ) × Appends (S.written out.old) (S.written out.new) written
        × IsPublished request.options leap_bytes kernel_bytes observation_bytes written }

    // Where no count rose, these bytes are appended and the run ends with status 0 wherever the bytes are what the options
    // and the files publish, unless memory runs out: what is published is never refused.
    ensures exactly { (request : Asked) (leap_bytes : Option (List ℕ)) (kernel_bytes observation_bytes bytes : List ℕ)
        → requested_by (codes "station" ∷ map string_bytes words.now) (Ok request)
        → request.command ≡ Command.Publish
        → ((name : List ℕ) → ¬ Rose (D.faults depot.old name) (D.faults depot.new name))
        → (¬ Rose (S.faults out.old) (S.faults out.new))
        → AreHeld (D.holds depot.old) request.options leap_bytes kernel_bytes observation_bytes
        → IsPublished request.options leap_bytes kernel_bytes observation_bytes bytes
        → ((result ≡ Status.Done) × Appends (S.written out.old) (S.written out.new) bytes) ⊎ (result ≡ Status.NoMemory) }

    // An audit that ends with status 0 writes the line yes, and the new file is a text, in any layout, of the kernel that its
    // options, with some kernel ID or none, publish of its files.
    ensures accepted { (request : Asked) (leap_bytes : Option (List ℕ)) (kernel_bytes observation_bytes bytes : List ℕ)
        → requested_by (codes "station" ∷ map string_bytes words.now) (Ok request)
        → request.command ≡ Command.Audit → result ≡ Status.Done
        → AreHeldToJudge (D.holds depot.old) request.options leap_bytes kernel_bytes observation_bytes bytes
        → Appends (S.written out.old) (S.written out.new) yes_line
        × SpellsPublished request.options leap_bytes kernel_bytes observation_bytes bytes }

    // Where no count rose, it ends so for each such text, unless memory runs out: what is published is never refused.
    ensures accepts { (request : Asked) (leap_bytes : Option (List ℕ)) (kernel_bytes observation_bytes bytes : List ℕ)
        → requested_by (codes "station" ∷ map string_bytes words.now) (Ok request)
        → request.command ≡ Command.Audit
        → ((name : List ℕ) → ¬ Rose (D.faults depot.old name) (D.faults depot.new name))
        → (¬ Rose (S.faults out.old) (S.faults out.new))
        → AreHeldToJudge (D.holds depot.old) request.options leap_bytes kernel_bytes observation_bytes bytes
        → SpellsPublished request.options leap_bytes kernel_bytes observation_bytes bytes
        → ((result ≡ Status.Done) × Appends (S.written out.old) (S.written out.new) yes_line) ⊎ (result ≡ Status.NoMemory) }

    // Files hold what they held, and no count falls: a run may follow another over the same depot.
    ensures stays { Stays D.holds D.faults depot.old depot.new }

    // No file is asked for but those of the command that the words ask for, each at most once, in the order of the options.
    ensures asks { AsksBy (D.asked depot.old) (D.asked depot.new) (codes "station" ∷ map string_bytes words.now) }

    // Want of memory is status 9, and no other status carries it.
    ensures apart { CarriesNoMemory result }

    // Clap takes no words that are refused as not taken.
    ensures not_taken { result ≡ Status.WordsRefused WordsFault.NotTaken → is_taken (codes "station" ∷ map string_bytes words.now) ≡ false }

    // Status 0 notes nothing, and each other status its line; behind it follow sentences for people, each of which begins
    // with two blanks.
    ensures noted { IsTold (codes "station" ∷ map string_bytes words.now) (written_by N.written N.faults notes.old notes.new) result }
{
    let status = ended(alloc, words, depot, out);
    write_told(alloc, notes, words, status);
    status
}
