//! What a refusal is about.

ghost use Rattle.std.specs.Prelude.{◌≡◌};
ghost use Rattle.sk_advice.specs.Subjects.{place_of_grammar, place_of_kernel, place_of_leap, place_of_pair, place_of_pool, place_of_record, place_of_text, place_of_triple, subject_of as subject_of_status, subject_of_audit, subject_of_document, subject_of_file, subject_of_fit, subject_of_observation, subject_of_record, subject_of_words};

use sk_audit::AuditFault;
use sk_fit::FitFault;
use sk_grammar::GrammarFault;
use sk_leap::LeapFault;
use sk_obs::ObsFault;
use sk_pool::PoolFault;
use sk_status::{DocumentKind, FileKind, KernelStop, LeapStop, ObsStop, Status, TextStop};
use sk_triples::TriplesFault;
use sk_words::{OptionName, WordsFault};

/// A place in a file. Each number counts from 1.
#[derive(Clone, Copy, Debug)]
pub enum Place {
    Whole,
    Line(u32),
    Item(u32),
    Pair(u32),
    Triple(u32),
    /// A record of an observation file, of which the first is the header.
    Record(u32),
    /// A line of a residual table.
    TableLine(u32),
    /// The variables of the spacecraft's clock.
    Spacecraft,
}

/// What a refusal is about.
#[derive(Clone, Copy, Debug)]
pub enum Subject {
    Nothing,
    Command,
    /// An option, as it was given.
    Given(OptionName),
    /// A place in the file of an option.
    File(OptionName, Place),
    /// A place in a file of `--over`, by the file's number from 1.
    Over(u32, Place),
}

fn place_in_grammar(fault: GrammarFault) -> Place
    ensures { result ≡ place_of_grammar fault }
{
    match fault {
        GrammarFault::At { line, .. } => Place::Line(line),
        GrammarFault::NoMemory => Place::Whole,
    }
}

fn place_in_pool(fault: PoolFault) -> Place
    ensures { result ≡ place_of_pool fault }
{
    match fault {
        PoolFault::AppendMixed(item) => Place::Item(item),
        PoolFault::NoMemory => Place::Whole,
    }
}

fn place_in_text(stop: TextStop) -> Place
    ensures { result ≡ place_of_text stop }
{
    match stop {
        TextStop::TooLong => Place::Whole,
        TextStop::Grammar(fault) => place_in_grammar(fault),
    }
}

fn place_in_pairs(fault: LeapFault) -> Place
    ensures { result ≡ place_of_pair fault }
{
    match fault {
        LeapFault::DateForm(pair) => Place::Pair(pair),
        LeapFault::DateOrder(pair) => Place::Pair(pair),
        LeapFault::LeapStep(pair) => Place::Pair(pair),
        LeapFault::Missing(_) => Place::Whole,
        LeapFault::BadDeltaT => Place::Whole,
        LeapFault::BadPairs => Place::Whole,
        LeapFault::NoMemory => Place::Whole,
    }
}

fn place_in_leap(stop: LeapStop) -> Place
    ensures { result ≡ place_of_leap stop }
{
    match stop {
        LeapStop::TooLong => Place::Whole,
        LeapStop::Grammar(fault) => place_in_grammar(fault),
        LeapStop::Pool(fault) => place_in_pool(fault),
        LeapStop::Leap(fault) => place_in_pairs(fault),
    }
}

fn place_in_triples(fault: TriplesFault) -> Place
    ensures { result ≡ place_of_triple fault }
{
    match fault {
        TriplesFault::TickRange(triple) => Place::Triple(triple),
        TriplesFault::TimeForm(triple) => Place::Triple(triple),
        TriplesFault::TimeRange(triple) => Place::Triple(triple),
        TriplesFault::RateRange(triple) => Place::Triple(triple),
        TriplesFault::OutOfOrder(triple) => Place::Triple(triple),
        TriplesFault::Missing => Place::Spacecraft,
        TriplesFault::NotTriples => Place::Spacecraft,
        TriplesFault::TooMany => Place::Spacecraft,
        TriplesFault::NoMemory => Place::Whole,
    }
}

fn place_in_kernel(stop: KernelStop) -> Place
    ensures { result ≡ place_of_kernel stop }
{
    match stop {
        KernelStop::TooLong => Place::Whole,
        KernelStop::Grammar(fault) => place_in_grammar(fault),
        KernelStop::Pool(fault) => place_in_pool(fault),
        KernelStop::Clock(_) => Place::Spacecraft,
        KernelStop::Triples(fault) => place_in_triples(fault),
    }
}

fn place_in_records(fault: ObsFault) -> Place
    ensures { result ≡ place_of_record fault }
{
    match fault {
        ObsFault::FieldCount(number) => Place::Record(number),
        ObsFault::BadId(number) => Place::Record(number),
        ObsFault::ClockRefused(number, _) => Place::Record(number),
        ObsFault::TimeForm(number) => Place::Record(number),
        ObsFault::CodeRefused(number, _) => Place::Record(number),
        ObsFault::UtcRefused(number, _) => Place::Record(number),
        ObsFault::BadDelay(number) => Place::Record(number),
        ObsFault::TimeRange(number) => Place::Record(number),
        ObsFault::OutOfOrder(number) => Place::Record(number),
        ObsFault::Header(_) => Place::Whole,
        ObsFault::TooMany => Place::Whole,
        ObsFault::NoMemory => Place::Whole,
    }
}

/// A record of the observations. A reading of `--clock` has the number 0.
fn subject_at(number: u32) -> Subject
    ensures { result ≡ subject_of_record number }
{
    if number == 0 {
        Subject::Given(OptionName::Clock)
    } else {
        Subject::File(OptionName::Obs, Place::Record(number))
    }
}

fn observation_subject(stop: ObsStop) -> Subject
    ensures { result ≡ subject_of_observation stop }
{
    match stop {
        ObsStop::TooLong => Subject::File(OptionName::Obs, Place::Whole),
        ObsStop::Record(fault) => Subject::File(OptionName::Obs, place_in_records(fault)),
        ObsStop::Range(number, _) => subject_at(number),
        ObsStop::Clock(_) => Subject::Given(OptionName::Clock),
    }
}

fn words_subject(fault: WordsFault) -> Subject
    ensures { result ≡ subject_of_words fault }
{
    match fault {
        WordsFault::NotTaken => Subject::Nothing,
        WordsFault::UnknownCommand => Subject::Command,
        WordsFault::NeedOption(_) => Subject::Command,
        WordsFault::OutOfRange(name) => Subject::Given(name),
    }
}

fn fit_subject(fault: FitFault) -> Subject
    ensures { result ≡ subject_of_fit fault }
{
    match fault {
        FitFault::BadHold => Subject::Given(OptionName::Hold),
        FitFault::OldFalls(fall) => Subject::File(OptionName::Kernel, Place::Triple(fall.join)),
        FitFault::BandEmpty => Subject::Nothing,
        FitFault::NoRate(number, _) => Subject::File(OptionName::Obs, Place::Record(number)),
        FitFault::TimeFalls(number) => Subject::File(OptionName::Obs, Place::Record(number)),
        FitFault::TooMany => Subject::File(OptionName::Kernel, Place::Whole),
        FitFault::NoMemory => Subject::Nothing,
    }
}

fn document_subject(kind: DocumentKind) -> Subject
    ensures { result ≡ subject_of_document kind }
{
    match kind {
        DocumentKind::Leap => Subject::File(OptionName::Leap, Place::Whole),
        DocumentKind::Kernel => Subject::File(OptionName::Kernel, Place::Whole),
        DocumentKind::New => Subject::File(OptionName::New, Place::Whole),
        DocumentKind::Over(number) => Subject::Over(number, Place::Whole),
    }
}

fn file_subject(kind: FileKind) -> Subject
    ensures { result ≡ subject_of_file kind }
{
    match kind {
        FileKind::Document(kind) => document_subject(kind),
        FileKind::Observations => Subject::File(OptionName::Obs, Place::Whole),
    }
}

fn audit_subject(fault: AuditFault) -> Subject
    ensures { result ≡ subject_of_audit fault }
{
    match fault {
        AuditFault::Settings => Subject::Nothing,
        AuditFault::Standing => Subject::File(OptionName::New, Place::Whole),
        AuditFault::Items => Subject::File(OptionName::New, Place::Whole),
        AuditFault::Chain => Subject::File(OptionName::New, Place::Whole),
        AuditFault::Table(line) => Subject::File(OptionName::New, Place::TableLine(line)),
    }
}

/// What a status is about.
pub fn subject_of(status: Status) -> Subject
    ensures { result ≡ subject_of_status status }
{
    match status {
        Status::Done => Subject::Nothing,
        Status::WordsRefused(fault) => words_subject(fault),
        Status::LeapRefused(stop) => Subject::File(OptionName::Leap, place_in_leap(stop)),
        Status::KernelRefused(stop) => Subject::File(OptionName::Kernel, place_in_kernel(stop)),
        Status::ObservationRefused(stop) => observation_subject(stop),
        Status::NotPublished(fault) => fit_subject(fault),
        Status::ReadFault(kind) => file_subject(kind),
        Status::WriteFault => Subject::Nothing,
        Status::NoMemory => Subject::Nothing,
        Status::TimeRefused(_) => Subject::Given(OptionName::Time),
        Status::AuditNo(fault) => audit_subject(fault),
        Status::NewRefused(stop) => Subject::File(OptionName::New, place_in_kernel(stop)),
        Status::ExcerptRefused(_) => Subject::Given(OptionName::From),
        Status::OverRefused(number, stop) => Subject::Over(number, place_in_text(stop)),
    }
}
