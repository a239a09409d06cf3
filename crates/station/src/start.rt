//! From the words of the process to its exit code.
ghost use Rattle.std.specs.Prelude.{◌≡◌, Ok};
ghost use Rattle.std.specs.Process.{exit_status};
ghost use Rattle.sk_status.specs.Status.{code_of};
ghost use Rattle.sk_status.specs.Written.{written_by, IsNoted};
ghost use Rattle.station.specs.Start.{wordless, GivesWords};

use sk_edge::Sink;
use sk_status::{Status, write_note};
use sk_words::WordsFault;
use std::alloc::Global;
use std::env::Args;
use std::io;
use std::io::ErrorKind;
use std::process::ExitCode;

/// The status of a run that has no words: memory ran out, or one of them is not UTF-8.
fn status_without_words(kind: ErrorKind) -> Status
    ensures { result ≡ wordless kind }
{
    match kind {
        ErrorKind::OutOfMemory => Status::NoMemory,
        _ => Status::WordsRefused(WordsFault::NotTaken),
    }
}

/// The words behind the program's own name.
fn words_behind(alloc: Global, args: Args) -> Result<Vec<String>, Status>
    ensures { GivesWords (Ok args) result }
{
    let mut behind = args;
    let _name = behind.next();
    let mut words = Vec::new(alloc);
    for word in behind {
        if words.push(word).is_err() {
            return Err(Status::NoMemory);
        }
    }
    Ok(words)
}

/// The words of a run, where the process has them as texts.
pub fn given_words(alloc: Global, args: io::Result<Args>) -> Result<Vec<String>, Status>
    ensures { GivesWords args result }
{
    match args {
        Ok(args) => words_behind(alloc, args),
        Err(error) => Err(status_without_words(error.kind())),
    }
}

/// The end of a run that has no words: its status is noted.
pub fn refuse<N: Sink>(notes: &mut N, status: Status) -> Status
    ensures noted { IsNoted (written_by N.written N.faults notes.old notes.new) status }
    ensures same { result ≡ status }
{
    write_note(notes, status);
    status
}

/// The exit code of the process: the number of the status.
pub fn exit_code(status: Status) -> ExitCode
    ensures { exit_status result ≡ code_of status }
{
    ExitCode::from(status.code())
}
