//! Files, and the documents in them.
ghost use Rattle.std.specs.Prelude.{◌≡◌, ◌≤◌, length, List, [], ◌∷◌, ℕ, Some, Ok, Err, IfOk, IfErr};
ghost use Rattle.sk_edge.specs.Asked.{Asks};
ghost use Rattle.sk_grammar.specs.HasRead.{HasRead};
ghost use Rattle.sk_outcome.specs.Stage.{MayAnswer};
ghost use Rattle.sk_outcome.specs.Seen.{seen_by, Stays};
ghost use Rattle.sk_outcome.specs.Files.{reads, document_too_long as document_when_long, too_long as status_when_long, refused_by, document as document_stage, judged, DocOf, HasFew};

use sk_edge::{Depot, PieceStop, ReadStop, read_all, read_piece};
use sk_grammar::{Doc, GrammarFault, Reader};
use sk_status::{DocumentKind, FileKind, KernelStop, LeapStop, ObsStop, Status, TextStop};
use std::alloc::Global;

const FILE_LIMIT: usize = 16_777_216;

const PIECE: usize = 4096;

/// The status of a kernel text that is too long.
fn document_too_long(kind: DocumentKind) -> Status
    ensures { result ≡ document_when_long kind }
{
    match kind {
        DocumentKind::Leap => Status::LeapRefused(LeapStop::TooLong),
        DocumentKind::Kernel => Status::KernelRefused(KernelStop::TooLong),
        DocumentKind::New => Status::NewRefused(KernelStop::TooLong),
        DocumentKind::Over(place) => Status::OverRefused(place, TextStop::TooLong),
    }
}

/// The status of a file that is too long.
fn too_long(kind: FileKind) -> Status
    ensures { result ≡ status_when_long kind }
{
    match kind {
        FileKind::Document(kind) => document_too_long(kind),
        FileKind::Observations => Status::ObservationRefused(ObsStop::TooLong),
    }
}

/// The status of a file that is no kernel text.
fn refused(kind: DocumentKind, fault: GrammarFault) -> Status
    ensures { result ≡ refused_by kind fault }
{
    match kind {
        DocumentKind::Leap => Status::LeapRefused(LeapStop::Grammar(fault)),
        DocumentKind::Kernel => Status::KernelRefused(KernelStop::Grammar(fault)),
        DocumentKind::New => Status::NewRefused(KernelStop::Grammar(fault)),
        DocumentKind::Over(place) => Status::OverRefused(place, TextStop::Grammar(fault)),
    }
}

/// The bytes of a file.
pub fn read_file<D: Depot>(
    alloc: Global,
    depot: &mut D,
    kind: FileKind,
    name: &str,
) -> Result<Vec<u8>, Status>
    ensures stays { Stays D.holds D.faults depot.old depot.new }
    ensures asks { Asks (D.asked depot.old) (D.asked depot.new) (name.now ∷ []) }
    ensures reads { MayAnswer (λ v. v.items) (reads (seen_by D.holds D.given D.faults depot.old depot.new) kind name.now) result }
{
    match read_all(alloc, depot, name, FILE_LIMIT) {
        Ok(bytes) => Ok(bytes),
        Err(ReadStop::Fault) => Err(Status::ReadFault(kind)),
        Err(ReadStop::TooLong) => Err(too_long(kind)),
        Err(ReadStop::NoMemory) => Err(Status::NoMemory),
    }
}

/// Feeds a file to a reader, piece by piece to its end. A fault of the grammar stays with the reader while the rest of
/// the file is read: a fault of reading behind it ends the run before it.
fn fed<D: Depot>(alloc: Global, depot: &mut D, kind: FileKind, name: &str) -> Result<Reader, Status>
    ensures stays { Stays D.holds D.faults depot.old depot.new }
    ensures asks { Asks (D.asked depot.old) (D.asked depot.new) (name.now ∷ []) }
    ensures read { IfOk result (λ reader. (bytes : List ℕ) × reads (seen_by D.holds D.given D.faults depot.old depot.new) kind name.now (Ok bytes) × HasRead reader bytes) }
    ensures refused { IfErr result (λ status. reads (seen_by D.holds D.given D.faults depot.old depot.new) kind name.now (Err status)) }
{
    let Ok(()) = depot.choose(name) else {
        return Err(Status::ReadFault(kind));
    };
    let mut reader = Reader::new(alloc);
    let mut piece = [0u8; PIECE];
    let mut taken = 0;
    loop {
        let count = match read_piece(depot, name, &mut piece, taken, FILE_LIMIT) {
            Ok(count) => count,
            Err(PieceStop::Fault) => return Err(Status::ReadFault(kind)),
            Err(PieceStop::TooLong) => return Err(too_long(kind)),
        };
        if count == 0 {
            return Ok(reader);
        }
        let _ = reader.feed(&piece[..count]);
        taken += count;
    }
}

/// The document of what a reader has read.
fn doc_of(kind: DocumentKind, reader: Reader) -> Result<Doc, Status>
    ensures stage { (bytes : List ℕ) → HasRead reader bytes → MayAnswer (λ d. d) (judged (DocOf bytes) (refused_by kind)) result }
    ensures few { (bytes : List ℕ) → HasRead reader bytes → length bytes ≤ 16777216 → IfOk result HasFew }
{
    match reader.finish() {
        Ok(doc) => Ok(doc),
        Err(GrammarFault::NoMemory) => Err(Status::NoMemory),
        Err(fault) => Err(refused(kind, fault)),
    }
}

/// The document of a text.
pub fn document_of(alloc: Global, kind: DocumentKind, text: &[u8]) -> Result<Doc, Status>
    requires { length text.now ≤ 16777216 }
    ensures stage { MayAnswer (λ d. d) (judged (DocOf text.now) (refused_by kind)) result }
    ensures few { IfOk result HasFew }
{
    let mut reader = Reader::new(alloc);
    let _ = reader.feed(text);
    doc_of(kind, reader)
}

/// The document of a file.
pub fn document<D: Depot>(
    alloc: Global,
    depot: &mut D,
    kind: DocumentKind,
    name: &str,
) -> Result<Doc, Status>
    ensures stays { Stays D.holds D.faults depot.old depot.new }
    ensures asks { Asks (D.asked depot.old) (D.asked depot.new) (name.now ∷ []) }
    ensures stage { MayAnswer (λ d. d) (document_stage (seen_by D.holds D.given D.faults depot.old depot.new) kind name.now) result }
    ensures few { IfOk result HasFew }
{
    let reader = fed(alloc, depot, FileKind::Document(kind), name)?;
    doc_of(kind, reader)
}
