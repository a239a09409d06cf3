//! The nearest cure of what is wrong.

ghost use Rattle.std.specs.Prelude.{◌≡◌};
ghost use Rattle.sk_advice.specs.Cures.{cure_of_reason, cure_of_grammar, cure_of_pool, cure_of_text, cure_of_leap_name, cure_of_leap_fault, cure_of_leap, cure_of_clock_name, cure_of_clock_kernel, cure_of_triples, cure_of_kernel, cure_of_count, cure_of_cuc, cure_of_cds, cure_of_clock_word, cure_of_code, cure_of_utc, cure_of_record, cure_of_range, cure_of_observation, cure_of_fit, cure_of_new, cure_of_audit, cure_of_excerpt, cure_of_time, cure_of_words, cure_of};

use crate::headers::header_cure;
use sk_audit::AuditFault;
use sk_cds::CdsFault;
use sk_clock::{ClockFault, ClockKernelFault, ClockName};
use sk_cuc::CucFault;
use sk_excerpt::ExcerptFault;
use sk_fit::FitFault;
use sk_grammar::{GrammarFault, Reason};
use sk_leap::{LeapFault, LeapName, UtcFault};
use sk_obs::{ClockWord, CodeFault, ObsFault};
use sk_pool::PoolFault;
use sk_status::{KernelStop, LeapStop, ObsStop, Status, TextStop, TimeStop};
use sk_triples::{RangeFault, TriplesFault};
use sk_words::WordsFault;

fn reason_cure(reason: Reason) -> &'static str
    ensures { result.now ≡ cure_of_reason reason }
{
    match reason {
        Reason::DataLineTooLong => "Break it between two values.",
        Reason::TextLineTooLong => "Break it.",
        Reason::BadByte => {
            "Look for an accented letter, a long dash or a curved quote that an editor put in."
        }
        Reason::BadName => "Mend the name. Has a value before it lost its brackets?",
        Reason::NoAssign => "Write the name, the sign and the value on one line.",
        Reason::BadNumber => {
            "A date begins with @, a text is in single quotes, and a number has no blank inside."
        }
        Reason::NumberTooWide => "Write it with fewer digits: nothing is rounded.",
        Reason::TextOpen => "Close it. A quote inside a text is written twice.",
        Reason::TextTooLong => "Split it into several.",
        Reason::BadDate => "Mend the date.",
        Reason::MixedKinds => "Make two variables of it.",
        Reason::BadComma => "Remove it, or put in the missing value.",
        Reason::EmptyVector => "Put a value in: a variable has at least one.",
        Reason::AfterValue => {
            "Put several values in brackets, and each variable on a line of its own."
        }
        Reason::Unfinished => "Look for a missing ). A file that was cut off ends like this.",
    }
}

fn grammar_cure(fault: GrammarFault) -> &'static str
    ensures { result.now ≡ cure_of_grammar fault }
{
    match fault {
        GrammarFault::At { reason, .. } => reason_cure(reason),
        GrammarFault::NoMemory => "Free memory and run again.",
    }
}

fn pool_cure(fault: PoolFault) -> &'static str
    ensures { result.now ≡ cure_of_pool fault }
{
    match fault {
        PoolFault::AppendMixed(_) => {
            "Mend the item, or set the variable again with =. Items are counted over all blocks."
        }
        PoolFault::NoMemory => "Free memory and run again.",
    }
}

fn text_cure(stop: TextStop) -> &'static str
    ensures { result.now ≡ cure_of_text stop }
{
    match stop {
        TextStop::TooLong => "Is it a kernel? docs/DAILY.md tells how to trim the comments of one.",
        TextStop::Grammar(fault) => grammar_cure(fault),
    }
}

fn leap_name_cure(name: LeapName) -> &'static str
    ensures { result.now ≡ cure_of_leap_name name }
{
    match name {
        LeapName::DeltaTA => {
            "Is it a leap seconds kernel? Are the files of --leap and --kernel swapped?"
        }
        LeapName::DeltaAT => {
            "Is it a leap seconds kernel? Are the files of --leap and --kernel swapped?"
        }
    }
}

fn leap_fault_cure(fault: LeapFault) -> &'static str
    ensures { result.now ≡ cure_of_leap_fault fault }
{
    match fault {
        LeapFault::Missing(name) => leap_name_cure(name),
        LeapFault::BadDeltaT => "Take the kernel from its producer again.",
        LeapFault::BadPairs => "Look for a missing number, or for a date without its @.",
        LeapFault::DateForm(_) => "Write it as @2017-JAN-1.",
        LeapFault::DateOrder(_) => "Put the pairs in the order of their dates.",
        LeapFault::LeapStep(_) => "Each pair adds one second: is a pair missing?",
        LeapFault::NoMemory => "Free memory and run again.",
    }
}

fn leap_cure(stop: LeapStop) -> &'static str
    ensures { result.now ≡ cure_of_leap stop }
{
    match stop {
        LeapStop::TooLong => "Is it a leap seconds kernel? One has a few kilobytes.",
        LeapStop::Grammar(fault) => grammar_cure(fault),
        LeapStop::Pool(fault) => pool_cure(fault),
        LeapStop::Leap(fault) => leap_fault_cure(fault),
    }
}

fn clock_name_cure(name: ClockName) -> &'static str
    ensures { result.now ≡ cure_of_clock_name name }
{
    match name {
        ClockName::DataType => {
            "Is --sc the number at the end of SCLK01_MODULI_n in the file? Are two files swapped, or is it empty?"
        }
        ClockName::Fields => {
            "Is --sc the number at the end of SCLK01_MODULI_n in the file? Are two files swapped, or is it empty?"
        }
        ClockName::Moduli => {
            "Is --sc the number at the end of SCLK01_MODULI_n in the file? Are two files swapped, or is it empty?"
        }
        ClockName::Offsets => {
            "Is --sc the number at the end of SCLK01_MODULI_n in the file? Are two files swapped, or is it empty?"
        }
        ClockName::Delim => {
            "Is --sc the number at the end of SCLK01_MODULI_n in the file? Are two files swapped, or is it empty?"
        }
        ClockName::Start => {
            "Is --sc the number at the end of SCLK01_MODULI_n in the file? Are two files swapped, or is it empty?"
        }
        ClockName::End => {
            "Is --sc the number at the end of SCLK01_MODULI_n in the file? Are two files swapped, or is it empty?"
        }
    }
}

fn clock_kernel_cure(fault: ClockKernelFault) -> &'static str
    ensures { result.now ≡ cure_of_clock_kernel fault }
{
    match fault {
        ClockKernelFault::Missing(name) => clock_name_cure(name),
        ClockKernelFault::NotType1 => "Only clocks of type 1 are read.",
        ClockKernelFault::Barycentric => {
            "Ask for a kernel in terrestrial time, SCLK01_TIME_SYSTEM_n = 2; do not change the number by hand."
        }
        ClockKernelFault::BadTimeSystem => "Take the kernel from its producer again.",
        ClockKernelFault::BadFields => "Take the kernel from its producer again.",
        ClockKernelFault::BadModuli => {
            "Compare their count with SCLK01_N_FIELDS_n. All but the first have a product of at most 2^32."
        }
        ClockKernelFault::BadOffsets => "Compare their count with SCLK01_N_FIELDS_n.",
        ClockKernelFault::BadDelim => "1 is a period, 2 a colon, 3 a dash, 4 a comma, 5 a blank.",
        ClockKernelFault::BadPartitions => {
            "Compare SCLK_PARTITION_START_n with SCLK_PARTITION_END_n: equally many, no end below its start."
        }
        ClockKernelFault::NoMemory => "Free memory and run again.",
    }
}

fn triples_cure(fault: TriplesFault) -> &'static str
    ensures { result.now ≡ cure_of_triples fault }
{
    match fault {
        TriplesFault::Missing => "Start from a kernel with at least one triple.",
        TriplesFault::NotTriples => {
            "Count the values: one may have been lost at the end of a line."
        }
        TriplesFault::TickRange(_) => {
            "The first number is an encoded tick, counted over all partitions, and no reading of the clock."
        }
        TriplesFault::TimeForm(_) => {
            "Years are 1600 to 2399, a month by number has two digits, and nothing follows, not even a Z."
        }
        TriplesFault::TimeRange(_) => {
            "The second value is in seconds past J2000, or a calendar time after @."
        }
        TriplesFault::RateRange(_) => "The third number is in seconds a most significant count.",
        TriplesFault::OutOfOrder(_) => {
            "Put the triples in order; of two with the same tick leave one out."
        }
        TriplesFault::TooMany => "Use a kernel with fewer triples, or split it by time.",
        TriplesFault::NoMemory => "Free memory and run again.",
    }
}

fn kernel_cure(stop: KernelStop) -> &'static str
    ensures { result.now ≡ cure_of_kernel stop }
{
    match stop {
        KernelStop::TooLong => {
            "Residual tables may fill it. They are comments: docs/DAILY.md tells how to trim them."
        }
        KernelStop::Grammar(fault) => grammar_cure(fault),
        KernelStop::Pool(fault) => pool_cure(fault),
        KernelStop::Clock(fault) => clock_kernel_cure(fault),
        KernelStop::Triples(fault) => triples_cure(fault),
    }
}

fn count_cure(fault: ClockFault) -> &'static str
    ensures { result.now ≡ cure_of_count fault }
{
    match fault {
        ClockFault::BadText => {
            "Is there a blank before the word, as after a comma? Write it as 1/0001742400.32768 or tick:NUMBER."
        }
        ClockFault::TooManyFields => "Is it a reading of another spacecraft?",
        ClockFault::BelowOffset => "The field counts from its number in SCLK01_OFFSETS_n.",
        ClockFault::NoSuchPartition => {
            "Partitions count from 1. Was the clock reset? docs/FILES.md tells how to declare it."
        }
        ClockFault::OutsidePartition => {
            "Is it an encoded tick? Write tick:NUMBER: a bare number counts the first field, mostly seconds."
        }
        ClockFault::WrongShape => {
            "SCLK01_OFFSETS_n must be 0; SCLK01_MODULI_n has one number, or with fraction octets a second: 256 to their count."
        }
    }
}

fn cuc_cure(fault: CucFault) -> &'static str
    ensures { result.now ≡ cure_of_cuc fault }
{
    match fault {
        CucFault::Empty => "Write the code after its mark, P-field first.",
        CucFault::NotCuc => {
            "Is it a CDS code, or was it sent without its P-field? Put the P-field before it."
        }
        CucFault::ThirdOctet => "A P-field has at most two bytes.",
        CucFault::FractionWidth => "Up to six are taken.",
        CucFault::Length => "Count the bytes: one may have been cut off.",
    }
}

fn cds_cure(fault: CdsFault) -> &'static str
    ensures { result.now ≡ cure_of_cds fault }
{
    match fault {
        CdsFault::Empty => "Write the code after its mark, P-field first.",
        CdsFault::NotCds => {
            "Is it a CUC code, or was it sent without its P-field? Put the P-field before it."
        }
        CdsFault::Extension => "A CDS code has a P-field of one byte.",
        CdsFault::AgencyEpoch => "Give the time as UTC, as a number, or as a CUC code from 1958.",
        CdsFault::Reserved => "The width is none, 16 bits or 32 bits.",
        CdsFault::Length => "Count the bytes: one may have been cut off.",
        CdsFault::SubRange => {
            "They count within a millisecond: below 1000 microseconds, or below 10^9 picoseconds."
        }
    }
}

fn clock_word_cure(fault: ClockWord) -> &'static str
    ensures { result.now ≡ cure_of_clock_word fault }
{
    match fault {
        ClockWord::Text(fault) => count_cure(fault),
        ClockWord::Hex => "Write two hex digits a byte, without blanks and without 0x.",
        ClockWord::Cuc(fault) => cuc_cure(fault),
    }
}

fn code_cure(fault: CodeFault) -> &'static str
    ensures { result.now ≡ cure_of_code fault }
{
    match fault {
        CodeFault::Hex => "Write two hex digits a byte, without blanks and without 0x.",
        CodeFault::Cuc(fault) => cuc_cure(fault),
        CodeFault::Cds(fault) => cds_cure(fault),
        CodeFault::CucAgencyEpoch => {
            "Give the time as UTC, as a number, or as a CUC code from 1958."
        }
    }
}

fn utc_cure(fault: UtcFault) -> &'static str
    ensures { result.now ≡ cure_of_utc fault }
{
    match fault {
        UtcFault::BeforeTable => {
            "Is the year right? Times before that date are given as tdt:SECONDS."
        }
        UtcFault::NotInDay => {
            "Second 60 ends only a day before a leap second: is the leap seconds kernel too old?"
        }
        UtcFault::PastRange => "Is the year right?",
    }
}

fn record_cure(fault: ObsFault) -> &'static str
    ensures { result.now ≡ cure_of_record fault }
{
    match fault {
        ObsFault::Header(cause) => header_cure(cause),
        ObsFault::FieldCount(_) => {
            "Count the commas. Put a field that holds a comma in double quotes."
        }
        ObsFault::BadId(_) => {
            "It is 1 to 32 printable ASCII bytes, without blank, double quote, comma, semicolon and backslash."
        }
        ObsFault::ClockRefused(_, fault) => clock_word_cure(fault),
        ObsFault::TimeForm(_) => {
            "Begin with the mark, as utc:, and no blank before it. UTC has a T between date and time,"
        }
        ObsFault::CodeRefused(_, fault) => code_cure(fault),
        ObsFault::UtcRefused(_, fault) => utc_cure(fault),
        ObsFault::BadDelay(_) => {
            "It is in nanoseconds, without sign and point: 1250700000 for 1.2507 s."
        }
        ObsFault::TimeRange(_) => "Is the number after tdt: in seconds past J2000?",
        ObsFault::OutOfOrder(_) => {
            "Sort the records by tick, and of two with the same tick leave one out. After a reset write 2/.."
        }
        ObsFault::TooMany => "Split the file, and repeat the header.",
        ObsFault::NoMemory => "Free memory and run again.",
    }
}

fn range_cure(fault: RangeFault) -> &'static str
    ensures { result.now ≡ cure_of_range fault }
{
    match fault {
        RangeFault::BeforeFirst => "Use a kernel that begins earlier.",
        RangeFault::PastPartitions => "Use a kernel whose partitions reach further.",
    }
}

fn observation_cure(stop: ObsStop) -> &'static str
    ensures { result.now ≡ cure_of_observation stop }
{
    match stop {
        ObsStop::TooLong => "Split it between two records, and repeat the header.",
        ObsStop::Record(fault) => record_cure(fault),
        ObsStop::Range(_, fault) => range_cure(fault),
        ObsStop::Clock(fault) => clock_word_cure(fault),
    }
}

fn fit_cure(fault: FitFault) -> &'static str
    ensures { result.now ≡ cure_of_fit fault }
{
    match fault {
        FitFault::BadHold => {
            "Leave --hold out, or hold at or after the last triple. docs/DAILY.md tells how to redo earlier ones."
        }
        FitFault::OldFalls(_) => {
            "Is the kernel wrong there? To accept the fall, give a greater --slip-ns."
        }
        FitFault::BandEmpty => "Give more decimals, or a wider band.",
        FitFault::NoRate(..) => {
            "Is its time or its delay wrong, or another record's? If all are right, widen --tol-ns or --band-ppm."
        }
        FitFault::TimeFalls(_) => {
            "Does SCLK_PARTITION_END_n end the partition before later than its last reading? Put the end earlier."
        }
        FitFault::TooMany => "Widen --tol-ns, or start from a kernel without its oldest triples.",
        FitFault::NoMemory => "Free memory and run again.",
    }
}

// Comments of the new kernel alone cannot be taken out: it would not be the old one and a block.
fn new_cure(stop: KernelStop) -> &'static str
    ensures { result.now ≡ cure_of_new stop }
{
    match stop {
        KernelStop::TooLong => {
            "Trim the comments of the old kernel, as docs/DAILY.md tells, and publish over it again."
        }
        KernelStop::Grammar(fault) => grammar_cure(fault),
        KernelStop::Pool(fault) => pool_cure(fault),
        KernelStop::Clock(fault) => clock_kernel_cure(fault),
        KernelStop::Triples(fault) => triples_cure(fault),
    }
}

fn audit_cure(fault: AuditFault) -> &'static str
    ensures { result.now ≡ cure_of_audit fault }
{
    match fault {
        AuditFault::Settings =>
            "Give the options and the observations with which the new kernel was published.",
        AuditFault::Standing =>
            "Give as --kernel the one that it was published over. Was one of them changed by hand?",
        AuditFault::Items =>
            "A publication has a kernel ID at most, and then numbers of triples. Was it changed by hand?",
        AuditFault::Chain => "Give the options and the observations with which it was published.",
        AuditFault::Table(_) => {
            "Give the options and the observations with which it was published."
        }
    }
}

fn excerpt_cure(fault: ExcerptFault) -> &'static str
    ensures { result.now ≡ cure_of_excerpt fault }
{
    match fault {
        ExcerptFault::BadRange => {
            "--from is at most --to, and both are encoded ticks of the clock."
        }
        ExcerptFault::BeforeFirst => {
            "Begin at the first triple, or use a kernel that begins earlier."
        }
        ExcerptFault::NoMemory => "Free memory and run again.",
    }
}

fn time_cure(stop: TimeStop) -> &'static str
    ensures { result.now ≡ cure_of_time stop }
{
    match stop {
        TimeStop::Form => {
            "Begin with the mark, tdt: or utc:. UTC has T between date and time, no offset, at most 12 decimals."
        }
        TimeStop::Utc(fault) => utc_cure(fault),
        TimeStop::Range => "Is it in seconds past J2000?",
        TimeStop::BeforeFirst => "Use a kernel that begins earlier.",
        TimeStop::PastEnd => "Use a kernel whose partitions reach further.",
    }
}

fn words_cure(fault: WordsFault) -> &'static str
    ensures { result.now ≡ cure_of_words fault }
{
    match fault {
        WordsFault::NotTaken => "Write each option as one word, --NAME=VALUE.",
        WordsFault::UnknownCommand => "A command is written in small letters and in full:",
        WordsFault::NeedOption(_) => "",
        WordsFault::OutOfRange(_) => "",
    }
}

/// What to do where a run ends so.
pub fn status_cure(status: Status) -> &'static str
    ensures { result.now ≡ cure_of status }
{
    match status {
        Status::Done => "",
        Status::WordsRefused(fault) => words_cure(fault),
        Status::LeapRefused(stop) => leap_cure(stop),
        Status::KernelRefused(stop) => kernel_cure(stop),
        Status::ObservationRefused(stop) => observation_cure(stop),
        Status::NotPublished(fault) => fit_cure(fault),
        Status::ReadFault(_) => {
            "Does it exist, may you read it, and is it a file (no folder, and not -)?"
        }
        Status::WriteFault => {
            "What was written is only its beginning: do not use it. Make room and run again."
        }
        Status::NoMemory => "Free memory and run again.",
        Status::TimeRefused(stop) => time_cure(stop),
        Status::AuditNo(fault) => audit_cure(fault),
        Status::NewRefused(stop) => new_cure(stop),
        Status::ExcerptRefused(fault) => excerpt_cure(fault),
        Status::OverRefused(_, stop) => text_cure(stop),
    }
}
