//! What is noted of a run.

ghost use Rattle.std.specs.Prelude.{◌≡◌, ◌++◌, ◌∷◌, ℕ, List, IfOk, codes, map, string_bytes};
ghost use Rattle.sk_status.specs.Notes.{note_line};
ghost use Rattle.sk_status.specs.Written.{written_by};
ghost use Rattle.sk_advice.specs.Told.{IsAdvice, IsRefusal, IsTold, IsWritten};

use crate::advice::advice;
use sk_checks::NoMemory;
use sk_edge::{Failed, Sink, write_all};
use sk_status::{Status, line_for};
use sk_words::{WordsFault, station_words};
use std::alloc::Global;

/// The line of a status, and its advice.
fn refusal_text(alloc: Global, words: &[String], status: Status) -> Result<Vec<u8>, NoMemory>
    ensures { IfOk result (λ text. (advice : List ℕ) × IsAdvice (codes "station" ∷ map string_bytes words.now) status advice × (text.items ≡ note_line status ++ advice)) }
{
    let all = station_words(alloc, words)?;
    let behind = advice(alloc, all.as_slice(), status)?;
    let mut text = Vec::new(alloc);
    text.extend_from_slice(line_for(status).as_slice())?;
    text.extend_from_slice(behind.as_slice())?;
    Ok(text)
}

/// Writes a text, or what is taken of it.
fn write_text<N: Sink>(notes: &mut N, text: &[u8])
    ensures { IsWritten (written_by N.written N.faults notes.old notes.new) text.now }
{
    match write_all(notes, text) {
        Ok(()) => {}
        Err(Failed) => {}
    }
}

/// Writes the line of a status and its advice; the line alone where memory runs out.
fn write_refusal<N: Sink>(alloc: Global, notes: &mut N, words: &[String], status: Status)
    ensures { IsRefusal (codes "station" ∷ map string_bytes words.now) (written_by N.written N.faults notes.old notes.new) status }
{
    match refusal_text(alloc, words, status) {
        Ok(text) => write_text(notes, text.as_slice()),
        Err(_) => write_text(notes, line_for(status).as_slice()),
    }
}

/// Writes what is noted of a run with these words: nothing of one that is done, and else the line of its status and
/// sentences for people behind it.
pub fn write_told<N: Sink>(alloc: Global, notes: &mut N, words: &[String], status: Status)
    ensures { IsTold (codes "station" ∷ map string_bytes words.now) (written_by N.written N.faults notes.old notes.new) status }
{
    match status {
        Status::Done => {}
        _ => write_refusal(alloc, notes, words, status),
    }
}
