use super::*;
use sk_audit::AuditFault;
use sk_decimal::Fixed;
use sk_edge::MemorySink;
use sk_fit::{Barrier, FitFault, Miss};
use sk_obs::{ClockWord, HeaderCause, ObsFault};
use sk_status::{DocumentKind, FileKind, ObsStop, Status};
use sk_words::{OptionName, WordsFault};
use std::alloc::{AllocError, Global};
use std::test::Fail;

const UNREAD: Status = Status::ReadFault(FileKind::Document(DocumentKind::Kernel));

/// What is noted of a status, where writes take so many bytes and these calls fail.
fn told(
    alloc: Global,
    word: &str,
    status: Status,
    failing: Vec<u64>,
) -> Result<MemorySink, AllocError> {
    let mut words = Vec::new(alloc);
    words.push(String::from_str(alloc, "normal")?)?;
    words.push(String::from_str(alloc, word)?)?;
    let mut notes = MemorySink::new(vec![in alloc; 8]?, failing, vec![in alloc; 0; 500]?);
    write_told(alloc, &mut notes, &words, status);
    Ok(notes)
}

/// A pair of records at these distances from the line.
fn pair(low: i128, high: i128) -> Barrier {
    Barrier::Pair {
        low: Miss {
            number: 9,
            distance: Fixed { units: low },
        },
        high: Miss {
            number: 7,
            distance: Fixed { units: high },
        },
    }
}

#[test]
fn bytes_that_are_not_printable_are_shown_as_digits(rt: HostRuntime) -> Result<(), Fail> {
    let alloc = rt.alloc();
    let table: [(&str, &str); 4] = [
        (
            "--kernel=a\u{1b}[31mb",
            "refused;7;Kernel\n  a\\x1b[31mb (--kernel):\n  the file cannot",
        ),
        (
            "--kernel=a\nrefused;0",
            "refused;7;Kernel\n  a\\x0arefused;0 (--kernel):\n  the file cannot",
        ),
        (
            "--kernel=\u{e9}",
            "refused;7;Kernel\n  \\xc3\\xa9 (--kernel):\n  the file cannot",
        ),
        (
            "--kernel=a b~",
            "refused;7;Kernel\n  a b~ (--kernel):\n  the file cannot",
        ),
    ];
    for (word, begins) in table {
        let notes = told(alloc, word, UNREAD, Vec::new(alloc))?;
        assert!(rt; notes.written().starts_with(begins.as_bytes()), "{word}");
    }
    Ok(())
}

#[test]
fn each_part_is_told_in_its_order(rt: HostRuntime) -> Result<(), Fail> {
    let alloc = rt.alloc();
    let table: [(Status, &str); 7] = [
        (Status::Done, ""),
        (
            Status::WordsRefused(WordsFault::OutOfRange(OptionName::TolNs)),
            "refused;2;OutOfRange;tol-ns\n  --tol-ns:\n  this is not in the range of the option:\n  a whole number from 1 to 60000000000, in digits alone, as 1000000: no point, exponent, _ or blank.\n",
        ),
        (
            Status::AuditNo(AuditFault::Table(3)),
            "refused;11;Table;3\n   (--new), table line 3:\n  this line of the table is not the publication's, or it is missing there or here.\n  Give the options and the observations with which it was published.\n",
        ),
        (
            Status::ObservationRefused(ObsStop::Record(ObsFault::ClockRefused(12, ClockWord::Hex))),
            "refused;5;Record;12;ClockRefused;Hex\n   (--obs), record 12:\n  what follows cuc: in the clock word is not hex digits of whole bytes.\n  Write two hex digits a byte, without blanks and without 0x.\n  Record 1 is the header: grep -n . FILE | sed -n 12p prints the record and its line number.\n",
        ),
        (
            Status::ObservationRefused(ObsStop::Record(ObsFault::Header(HeaderCause::ZeroByte))),
            "refused;5;Header\n   (--obs):\n  the first field holds a zero byte, as text in UTF-16 does.\n  Save the file as UTF-8.\n",
        ),
        (
            Status::NotPublished(FitFault::NoRate(9, pair(2_500_000_001, -400_000))),
            "refused;6;NoRate;9\n   (--obs), record 9:\n  no allowed rate meets this record from where the line before it was left.\n  Is its time or its delay wrong, or another record's? If all are right, widen --tol-ns or --band-ppm.\n  Each allowed rate is too small at record 9 (2500.000001 us after the line) or too large at record 7 (0.400000 us before it).\n  Record 1 is the header: grep -n . FILE | sed -n 9p prints the record and its line number.\n",
        ),
        (
            Status::NotPublished(FitFault::NoRate(9, Barrier::OldLine(Fixed { units: i128::MIN }))),
            "refused;6;NoRate;9\n   (--obs), record 9:\n  no allowed rate meets this record from where the line before it was left.\n  Is its time or its delay wrong, or another record's? If all are right, widen --tol-ns or --band-ppm.\n  The line of the kernel's last triple misses it too: the record lies 170141183460469231731687303715884.105728 us before that line.\n  Record 1 is the header: grep -n . FILE | sed -n 9p prints the record and its line number.\n",
        ),
    ];
    for (status, text) in table {
        let notes = told(alloc, "--kernel=k", status, Vec::new(alloc))?;
        assert_eq!(rt; notes.written(), text.as_bytes());
    }
    Ok(())
}

#[test]
fn words_that_clap_refuses_are_told_in_its_words(rt: HostRuntime) -> Result<(), Fail> {
    let alloc = rt.alloc();
    let status = Status::WordsRefused(WordsFault::NotTaken);
    let begins =
        "refused;2;NotTaken\n  error: unexpected argument '--kernal' found\n    tip: a similar argument exists: '--kernel'\n";
    let notes = told(alloc, "--kernal=k", status, Vec::new(alloc))?;
    assert!(rt; notes.written().starts_with(begins.as_bytes()));
    Ok(())
}

#[test]
fn notes_that_fail_hold_what_was_taken(rt: HostRuntime) -> Result<(), Fail> {
    let alloc = rt.alloc();
    for (failing, text) in [(1, ""), (2, "refused;"), (4, "refused;7;Kernel\n  k (--")] {
        let notes = told(alloc, "--kernel=k", UNREAD, vec![in alloc; failing]?)?;
        assert_eq!(rt; notes.written(), text.as_bytes());
    }
    Ok(())
}
