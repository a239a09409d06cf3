//! The line that a status writes to the notes. It takes no memory.

ghost use Rattle.std.specs.Prelude.{◌≡◌, ◌≤◌, ◌+◌, ◌*◌, ◌^◌, [], ◌++◌, ◌∷◌, length, codes, decimal, nat_abs, pos, ◌<ℤ◌};
ghost use Rattle.sk_decimal.specs.Fixed.{fixed_text};
ghost use Rattle.sk_decimal.specs.Quotient.{ceiling_quotient};
ghost use Rattle.sk_status.specs.Written.{written_by, IsNoted};
ghost use Rattle.sk_status.specs.Notes.{behind, note_line, status_words, fit_words};
ghost use Rattle.sk_status.specs.Status.{code_of};

use crate::pieces::{push_number, push_numbered, push_word};
use crate::status::{Status, TextStop};
use crate::words::{
    push_audit, push_excerpt, push_file, push_kernel_stop, push_leap_stop, push_obs_stop,
    push_text_stop, push_time, push_words_fault,
};
use sk_decimal::{Line, ceil_div};
use sk_edge::{Failed, Sink, write_all};
use sk_fit::FitFault;
use sk_triples::Fall;

/// The amount num / den of a fall, in 10^-18 s, as nanoseconds, rounded up.
fn nanoseconds_up(num: i128, den: i128) -> i128
    requires { pos 0 <ℤ den }
    ensures { result ≡ ceiling_quotient num (nat_abs den * 10 ^ 9) }
{
    ceil_div(ceil_div(num, den), 1_000_000_000)
}

/// Appends a whole number.
fn push_whole(line: &mut Line, number: i128)
    requires { length line.old ≤ 87 }
    ensures text { line.new ≡ line.old ++ fixed_text 0 number }
    ensures length { length line.new ≤ length line.old + 41 }
{
    if number < 0 {
        line.push(b"-");
    }
    line.push_number(number.unsigned_abs());
}

/// Appends a fall's join, and its amount in nanoseconds, rounded up.
fn push_fall(line: &mut Line, fall: Fall)
    requires { length line.old ≤ 12 }
    ensures words { line.new ≡ line.old ++ behind (fit_words (FitFault.OldFalls fall)) }
    ensures length { length line.new ≤ length line.old + 100 }
{
    push_numbered(line, "OldFalls", fall.join);
    line.push(b";");
    push_whole(line, nanoseconds_up(fall.amount.num, fall.amount.den));
}

fn push_fit(line: &mut Line, fault: FitFault)
    requires { length line.old ≤ 12 }
    ensures words { line.new ≡ line.old ++ behind (fit_words fault) }
    ensures length { length line.new ≤ length line.old + 100 }
{
    match fault {
        FitFault::BadHold => push_word(line, "BadHold"),
        FitFault::OldFalls(fall) => push_fall(line, fall),
        FitFault::BandEmpty => push_word(line, "BandEmpty"),
        FitFault::NoRate(number, _) => push_numbered(line, "NoRate", number),
        FitFault::TimeFalls(number) => push_numbered(line, "TimeFalls", number),
        FitFault::TooMany => push_word(line, "TooMany"),
        FitFault::NoMemory => {}
    }
}

fn push_over(line: &mut Line, place: u32, stop: TextStop)
    requires { length line.old ≤ 12 }
    ensures words { line.new ≡ line.old ++ behind (status_words (Status.OverRefused place stop)) }
    ensures length { length line.new ≤ length line.old + 110 }
{
    push_number(line, place);
    push_text_stop(line, stop);
}

fn push_status(line: &mut Line, status: Status)
    requires { length line.old ≤ 12 }
    ensures words { line.new ≡ line.old ++ behind (status_words status) }
    ensures length { length line.new ≤ length line.old + 110 }
{
    match status {
        Status::Done => {}
        Status::WordsRefused(fault) => push_words_fault(line, fault),
        Status::LeapRefused(stop) => push_leap_stop(line, stop),
        Status::KernelRefused(stop) => push_kernel_stop(line, stop),
        Status::ObservationRefused(stop) => push_obs_stop(line, stop),
        Status::NotPublished(fault) => push_fit(line, fault),
        Status::ReadFault(kind) => push_file(line, kind),
        Status::WriteFault => push_word(line, "Write"),
        Status::NoMemory => push_word(line, "Memory"),
        Status::TimeRefused(stop) => push_time(line, stop),
        Status::AuditNo(fault) => push_audit(line, fault),
        Status::NewRefused(stop) => push_kernel_stop(line, stop),
        Status::ExcerptRefused(fault) => push_excerpt(line, fault),
        Status::OverRefused(place, stop) => push_over(line, place, stop),
    }
}

/// The status's number.
fn number_text(status: &Status) -> &'static str
    ensures text { result.now ≡ decimal (code_of status.now) }
    ensures short { length result.now ≤ 2 }
{
    match status {
        Status::Done => "0",
        Status::WordsRefused(_) => "2",
        Status::LeapRefused(_) => "3",
        Status::KernelRefused(_) => "4",
        Status::ObservationRefused(_) => "5",
        Status::NotPublished(_) => "6",
        Status::ReadFault(_) => "7",
        Status::WriteFault => "8",
        Status::NoMemory => "9",
        Status::TimeRefused(_) => "10",
        Status::AuditNo(_) => "11",
        Status::NewRefused(_) => "12",
        Status::ExcerptRefused(_) => "13",
        Status::OverRefused(_, _) => "14",
    }
}

/// The word that begins each line, and the status's number.
fn begun(status: &Status) -> Line
    ensures words { result ≡ codes "refused" ++ behind (decimal (code_of status.now) ∷ []) }
    ensures length { length result ≤ 12 }
{
    let mut line = Line::new();
    line.push(b"refused");
    push_word(&mut line, number_text(status));
    line
}

/// The line of a status.
pub fn line_for(status: Status) -> Line
    ensures { result ≡ note_line status }
{
    let mut line = begun(&status);
    push_status(&mut line, status);
    line.push(b"\n");
    line
}

/// Writes the line of a status to the notes; nothing of a run that is done.
pub fn write_note<N: Sink>(notes: &mut N, status: Status)
    ensures { IsNoted (written_by N.written N.faults notes.old notes.new) status }
{
    match status {
        Status::Done => {}
        _ => match write_all(notes, line_for(status).as_slice()) {
            Ok(()) => {}
            Err(Failed) => {}
        },
    }
}
