ghost use Rattle.std.specs.Prelude.{pos, ◌<ℤ◌};

use super::*;
use sk_decimal::Fixed;
use sk_edge::{MemorySink, Sink};
use sk_fit::{Barrier, FitFault};
use sk_grammar::{GrammarFault, Reason};
use sk_obs::{ClockWord, CodeFault, ObsFault};
use sk_ratio::Ratio;
use sk_triples::Fall;
use sk_words::{OptionName, WordsFault};
use std::alloc::AllocError;
use std::test::Fail;

// The third join falls by num / den, in 10^-18 s.
fn fall(num: i128, den: i128) -> Status
    requires { pos 0 <ℤ den }
{
    let amount = Ratio { num, den };
    Status::NotPublished(FitFault::OldFalls(Fall { join: 3, amount }))
}

#[test]
fn each_end_has_a_line_and_a_number(rt: HostRuntime) {
    let grammar = GrammarFault::At {
        line: 12,
        reason: Reason::BadComma,
    };
    let code = ObsFault::CodeRefused(4, CodeFault::CucAgencyEpoch);
    let table: [(Status, u8, &str); 12] = [
        (
            Status::WordsRefused(WordsFault::OutOfRange(OptionName::BandPpm)),
            2,
            "refused;2;OutOfRange;band-ppm\n",
        ),
        (
            Status::LeapRefused(LeapStop::TooLong),
            3,
            "refused;3;TooLong\n",
        ),
        (
            Status::KernelRefused(KernelStop::Grammar(grammar)),
            4,
            "refused;4;Grammar;12;BadComma\n",
        ),
        (
            Status::ObservationRefused(ObsStop::Record(code)),
            5,
            "refused;5;Record;4;CodeRefused;CucAgencyEpoch\n",
        ),
        (
            Status::NotPublished(FitFault::NoRate(7, Barrier::OldLine(Fixed { units: -5 }))),
            6,
            "refused;6;NoRate;7\n",
        ),
        // 3.5000000005 ns, rounded up.
        (fall(7_000_000_001, 2), 6, "refused;6;OldFalls;3;4\n"),
        (fall(-7_000_000_001, 2), 6, "refused;6;OldFalls;3;-3\n"),
        (
            fall(i128::MAX, 1),
            6,
            "refused;6;OldFalls;3;170141183460469231731687303716\n",
        ),
        (
            Status::ReadFault(FileKind::Document(DocumentKind::Over(3))),
            7,
            "refused;7;Over;3\n",
        ),
        (Status::WriteFault, 8, "refused;8;Write\n"),
        (Status::NoMemory, 9, "refused;9;Memory\n"),
        (
            Status::OverRefused(2, TextStop::Grammar(grammar)),
            14,
            "refused;14;2;Grammar;12;BadComma\n",
        ),
    ];
    for (status, code, line) in table {
        assert_eq!(rt; status.code(), code, "{line}");
        assert_eq!(rt; line_for(status).as_slice(), line.as_bytes());
    }
}

#[test]
fn notes_hold_the_line_or_what_was_taken_of_it(rt: HostRuntime) -> Result<(), Fail> {
    let alloc = rt.alloc();
    for (failing, text) in [(0, "refused;9;Memory\n"), (1, ""), (2, "refused;")] {
        let room = vec![in alloc; 0; 100]?;
        let mut notes = MemorySink::new(vec![in alloc; 8]?, vec![in alloc; failing]?, room);
        write_note(&mut notes, Status::NoMemory);
        assert_eq!(rt; notes.written(), text.as_bytes());
    }
    let mut notes = MemorySink::new(Vec::new(alloc), Vec::new(alloc), vec![in alloc; 0; 100]?);
    write_note(&mut notes, Status::Done);
    assert!(rt; notes.written().is_empty());
    Ok(())
}
