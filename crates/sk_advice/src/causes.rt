//! What is wrong, in words.

ghost use Rattle.std.specs.Prelude.{◌≡◌};
ghost use Rattle.sk_advice.specs.Causes.{cause_of_reason, cause_of_grammar, cause_of_pool, cause_of_text, cause_of_leap_name, cause_of_leap_fault, cause_of_leap, cause_of_clock_name, cause_of_clock_kernel, cause_of_triples, cause_of_kernel, cause_of_count, cause_of_cuc, cause_of_cds, cause_of_clock_word, cause_of_code, cause_of_utc, cause_of_record, cause_of_range, cause_of_observation, cause_of_fit, cause_of_audit, cause_of_excerpt, cause_of_time, cause_of_words, cause_of};

use crate::headers::header_cause;
use sk_audit::AuditFault;
use sk_cds::CdsFault;
use sk_clock::{ClockFault, ClockKernelFault, ClockName};
use sk_cuc::CucFault;
use sk_excerpt::ExcerptFault;
use sk_fit::FitFault;
use sk_grammar::{GrammarFault, Reason};
use sk_leap::{LeapFault, LeapName, UtcFault};
use sk_obs::{ClockWord, CodeFault, ObsFault};
use sk_pool::PoolFault;
use sk_status::{KernelStop, LeapStop, ObsStop, Status, TextStop, TimeStop};
use sk_triples::{RangeFault, TriplesFault};
use sk_words::WordsFault;

fn reason_cause(reason: Reason) -> &'static str
    ensures { result.now ≡ cause_of_reason reason }
{
    match reason {
        Reason::DataLineTooLong => "a data line has more than 132 bytes.",
        Reason::TextLineTooLong => "a text line has more than 4,096 bytes.",
        Reason::BadByte => "a data line holds a byte that is neither a tab nor printable ASCII.",
        Reason::BadName => {
            "a variable's name is due here, and there is none, or one of more than 32 bytes."
        }
        Reason::NoAssign => "the name is not followed by = or += on the same line.",
        Reason::BadNumber => {
            "a value is due here, and this is neither a number nor a date nor a text."
        }
        Reason::NumberTooWide => "a number has more digits than 128 bits and 38 decimals hold.",
        Reason::TextOpen => "a text has no closing quote on its line.",
        Reason::TextTooLong => "a text has more than 80 bytes.",
        Reason::BadDate => "a date is @ alone, or has more than 80 bytes.",
        Reason::MixedKinds => "a vector holds texts together with numbers or dates.",
        Reason::BadComma => {
            "a comma stands before the first value, after the last one or after another comma."
        }
        Reason::EmptyVector => "there is nothing between ( and ).",
        Reason::AfterValue => "something else follows a value or ) on the same line.",
        Reason::Unfinished => "a marker or the end of the file comes where a value or ) is due.",
    }
}

fn grammar_cause(fault: GrammarFault) -> &'static str
    ensures { result.now ≡ cause_of_grammar fault }
{
    match fault {
        GrammarFault::At { reason, .. } => reason_cause(reason),
        GrammarFault::NoMemory => "memory ran out.",
    }
}

fn pool_cause(fault: PoolFault) -> &'static str
    ensures { result.now ≡ cause_of_pool fault }
{
    match fault {
        PoolFault::AppendMixed(_) => "+= adds texts to numbers or dates, or these to texts.",
        PoolFault::NoMemory => "memory ran out.",
    }
}

fn text_cause(stop: TextStop) -> &'static str
    ensures { result.now ≡ cause_of_text stop }
{
    match stop {
        TextStop::TooLong => "the file has more than 16,777,216 bytes.",
        TextStop::Grammar(fault) => grammar_cause(fault),
    }
}

fn leap_name_cause(name: LeapName) -> &'static str
    ensures { result.now ≡ cause_of_leap_name name }
{
    match name {
        LeapName::DeltaTA => "the variable DELTET/DELTA_T_A is missing.",
        LeapName::DeltaAT => "the variable DELTET/DELTA_AT is missing.",
    }
}

fn leap_fault_cause(fault: LeapFault) -> &'static str
    ensures { result.now ≡ cause_of_leap_fault fault }
{
    match fault {
        LeapFault::Missing(name) => leap_name_cause(name),
        LeapFault::BadDeltaT => "DELTET/DELTA_T_A is not 32.184.",
        LeapFault::BadPairs => {
            "DELTET/DELTA_AT is not pairs of a whole number from 0 to 1000 and a date."
        }
        LeapFault::DateForm(_) => {
            "the date is not of the form @YYYY-MON-DD, or is no day of 1958 to 2199."
        }
        LeapFault::DateOrder(_) => "the date is not after that of the pair before it.",
        LeapFault::LeapStep(_) => "the number is not one more than that of the pair before it.",
        LeapFault::NoMemory => "memory ran out.",
    }
}

fn leap_cause(stop: LeapStop) -> &'static str
    ensures { result.now ≡ cause_of_leap stop }
{
    match stop {
        LeapStop::TooLong => "the file has more than 16,777,216 bytes.",
        LeapStop::Grammar(fault) => grammar_cause(fault),
        LeapStop::Pool(fault) => pool_cause(fault),
        LeapStop::Leap(fault) => leap_fault_cause(fault),
    }
}

fn clock_name_cause(name: ClockName) -> &'static str
    ensures { result.now ≡ cause_of_clock_name name }
{
    match name {
        ClockName::DataType => "the file has no SCLK_DATA_TYPE_n, where n is the number of --sc.",
        ClockName::Fields => "the file has no SCLK01_N_FIELDS_n, where n is the number of --sc.",
        ClockName::Moduli => "the file has no SCLK01_MODULI_n, where n is the number of --sc.",
        ClockName::Offsets => "the file has no SCLK01_OFFSETS_n, where n is the number of --sc.",
        ClockName::Delim => "the file has no SCLK01_OUTPUT_DELIM_n, where n is the number of --sc.",
        ClockName::Start => {
            "the file has no SCLK_PARTITION_START_n, where n is the number of --sc."
        }
        ClockName::End => "the file has no SCLK_PARTITION_END_n, where n is the number of --sc.",
    }
}

fn clock_kernel_cause(fault: ClockKernelFault) -> &'static str
    ensures { result.now ≡ cause_of_clock_kernel fault }
{
    match fault {
        ClockKernelFault::Missing(name) => clock_name_cause(name),
        ClockKernelFault::NotType1 => "SCLK_DATA_TYPE_n is not 1.",
        ClockKernelFault::Barycentric => {
            "its coefficients are in barycentric time (time system 1, or none is given)."
        }
        ClockKernelFault::BadTimeSystem => {
            "SCLK01_TIME_SYSTEM_n is neither the number 1 nor the number 2."
        }
        ClockKernelFault::BadFields => "SCLK01_N_FIELDS_n is not one whole number from 1 to 10.",
        ClockKernelFault::BadModuli => {
            "SCLK01_MODULI_n is not a whole number for each field, or one is out of range."
        }
        ClockKernelFault::BadOffsets => {
            "SCLK01_OFFSETS_n is not a whole number of at most 2^32 for each field."
        }
        ClockKernelFault::BadDelim => "SCLK01_OUTPUT_DELIM_n is not one whole number from 1 to 5.",
        ClockKernelFault::BadPartitions => {
            "the starts and ends of the partitions do not match, or one is out of range."
        }
        ClockKernelFault::NoMemory => "memory ran out.",
    }
}

fn triples_cause(fault: TriplesFault) -> &'static str
    ensures { result.now ≡ cause_of_triples fault }
{
    match fault {
        TriplesFault::Missing => {
            "SCLK01_COEFFICIENTS_n is missing: the kernel gives the clock no times."
        }
        TriplesFault::NotTriples => {
            "the coefficients are not triples of a number, a number or a date, and a number."
        }
        TriplesFault::TickRange(_) => {
            "its tick is not a whole number, or is past the last partition."
        }
        TriplesFault::TimeForm(_) => "its time begins with @ and is no calendar time.",
        TriplesFault::TimeRange(_) => {
            "its time has more than 18 decimals, or is more than 10^10 s from J2000."
        }
        TriplesFault::RateRange(_) => {
            "its rate has more than 18 decimals, or is not above 0 and at most 1000."
        }
        TriplesFault::OutOfOrder(_) => {
            "its tick or its time is not above that of the triple before it."
        }
        TriplesFault::TooMany => "there are more than 50,000 triples.",
        TriplesFault::NoMemory => "memory ran out.",
    }
}

fn kernel_cause(stop: KernelStop) -> &'static str
    ensures { result.now ≡ cause_of_kernel stop }
{
    match stop {
        KernelStop::TooLong => "the file has more than 16,777,216 bytes.",
        KernelStop::Grammar(fault) => grammar_cause(fault),
        KernelStop::Pool(fault) => pool_cause(fault),
        KernelStop::Clock(fault) => clock_kernel_cause(fault),
        KernelStop::Triples(fault) => triples_cause(fault),
    }
}

fn count_cause(fault: ClockFault) -> &'static str
    ensures { result.now ≡ cause_of_count fault }
{
    match fault {
        ClockFault::BadText => {
            "the clock word is no clock string, or what follows tick: is not 1 to 16 digits."
        }
        ClockFault::TooManyFields => "the clock word has more fields than the clock.",
        ClockFault::BelowOffset => "a field of the clock word is below its offset.",
        ClockFault::NoSuchPartition => "the clock has no partition of this number.",
        ClockFault::OutsidePartition => "the reading is outside its partition, or in none.",
        ClockFault::WrongShape => "the code does not fit the fields of the clock.",
    }
}

fn cuc_cause(fault: CucFault) -> &'static str
    ensures { result.now ≡ cause_of_cuc fault }
{
    match fault {
        CucFault::Empty => "the code has no bytes.",
        CucFault::NotCuc => "the first byte is not the P-field of a CUC code.",
        CucFault::ThirdOctet => "the P-field announces a third byte.",
        CucFault::FractionWidth => "the P-field announces more than six fraction octets.",
        CucFault::Length => "the code is longer or shorter than its P-field says.",
    }
}

fn cds_cause(fault: CdsFault) -> &'static str
    ensures { result.now ≡ cause_of_cds fault }
{
    match fault {
        CdsFault::Empty => "the code has no bytes.",
        CdsFault::NotCds => "the first byte is not the P-field of a CDS code.",
        CdsFault::Extension => "the P-field is extended.",
        CdsFault::AgencyEpoch => {
            "the code counts from an epoch of the agency's own, which is not known here."
        }
        CdsFault::Reserved => "the width of the submilliseconds is the reserved one.",
        CdsFault::Length => "the code is longer or shorter than its P-field says.",
        CdsFault::SubRange => "the submilliseconds are a millisecond or more.",
    }
}

fn clock_word_cause(fault: ClockWord) -> &'static str
    ensures { result.now ≡ cause_of_clock_word fault }
{
    match fault {
        ClockWord::Text(fault) => count_cause(fault),
        ClockWord::Hex => "what follows cuc: in the clock word is not hex digits of whole bytes.",
        ClockWord::Cuc(fault) => cuc_cause(fault),
    }
}

fn code_cause(fault: CodeFault) -> &'static str
    ensures { result.now ≡ cause_of_code fault }
{
    match fault {
        CodeFault::Hex => {
            "what follows cuc: or cds: in the time word is not hex digits of whole bytes."
        }
        CodeFault::Cuc(fault) => cuc_cause(fault),
        CodeFault::Cds(fault) => cds_cause(fault),
        CodeFault::CucAgencyEpoch => {
            "the code counts from an epoch of the agency's own, which is not known here."
        }
    }
}

fn utc_cause(fault: UtcFault) -> &'static str
    ensures { result.now ≡ cause_of_utc fault }
{
    match fault {
        UtcFault::BeforeTable => {
            "the UTC is before the first date of the leap seconds kernel, which is 1972 in NAIF's."
        }
        UtcFault::NotInDay => "its day has no such second.",
        UtcFault::PastRange => "the time is past 9*10^9 s from J2000.",
    }
}

fn record_cause(fault: ObsFault) -> &'static str
    ensures { result.now ≡ cause_of_record fault }
{
    match fault {
        ObsFault::Header(cause) => header_cause(cause),
        ObsFault::FieldCount(_) => "the record has not four fields.",
        ObsFault::BadId(_) => {
            "the id is empty, has more than 32 bytes, or holds a byte that an id may not have."
        }
        ObsFault::ClockRefused(_, fault) => clock_word_cause(fault),
        ObsFault::TimeForm(_) => {
            "the time word is not tdt:SECONDS, utc:YYYY-MM-DDThh:mm:ss, cuc:HEX or cds:HEX."
        }
        ObsFault::CodeRefused(_, fault) => code_cause(fault),
        ObsFault::UtcRefused(_, fault) => utc_cause(fault),
        ObsFault::BadDelay(_) => "the delay is not a whole number from 0 to 10^14.",
        ObsFault::TimeRange(_) => {
            "the observed time, less the delay, is more than 9*10^9 s from J2000."
        }
        ObsFault::OutOfOrder(_) => "its tick is not above that of the record before it.",
        ObsFault::TooMany => "there are more than 100,000 observations.",
        ObsFault::NoMemory => "memory ran out.",
    }
}

fn range_cause(fault: RangeFault) -> &'static str
    ensures { result.now ≡ cause_of_range fault }
{
    match fault {
        RangeFault::BeforeFirst => {
            "the tick is before the first triple of the kernel, so it has no time."
        }
        RangeFault::PastPartitions => "the tick is past the last partition of the clock.",
    }
}

fn observation_cause(stop: ObsStop) -> &'static str
    ensures { result.now ≡ cause_of_observation stop }
{
    match stop {
        ObsStop::TooLong => "the file has more than 16,777,216 bytes.",
        ObsStop::Record(fault) => record_cause(fault),
        ObsStop::Range(_, fault) => range_cause(fault),
        ObsStop::Clock(fault) => clock_word_cause(fault),
    }
}

fn fit_cause(fault: FitFault) -> &'static str
    ensures { result.now ≡ cause_of_fit fault }
{
    match fault {
        FitFault::BadHold => {
            "the tick is before the last triple of the kernel, or not in its partition."
        }
        FitFault::OldFalls(_) => "where the next triple begins, time falls by more than --slip-ns.",
        FitFault::BandEmpty => {
            "no rate with so many --rate-decimals lies within --band-ppm of the kernel's last rate."
        }
        FitFault::NoRate(..) =>
            "no allowed rate meets this record from where the line before it was left.",
        FitFault::TimeFalls(_) => {
            "it begins a partition, more than --tol-ns before the time that the kernel gives there."
        }
        FitFault::TooMany => "old and new triples together are more than 50,000.",
        FitFault::NoMemory => "memory ran out.",
    }
}

fn audit_cause(fault: AuditFault) -> &'static str
    ensures { result.now ≡ cause_of_audit fault }
{
    match fault {
        AuditFault::Settings =>
            "the hold, the slip or the band allow no publication, or a record is before the first triple.",
        AuditFault::Standing => "the new kernel is not the old one with exactly one block more.",
        AuditFault::Items => "the new block has other items than a publication has.",
        AuditFault::Chain => "the new triples are not those of a publication.",
        AuditFault::Table(_) =>
            "this line of the table is not the publication's, or it is missing there or here.",
    }
}

fn excerpt_cause(fault: ExcerptFault) -> &'static str
    ensures { result.now ≡ cause_of_excerpt fault }
{
    match fault {
        ExcerptFault::BadRange => "--from and --to are no range of the clock's ticks.",
        ExcerptFault::BeforeFirst => "it is before the first triple of the kernel.",
        ExcerptFault::NoMemory => "memory ran out.",
    }
}

fn time_cause(stop: TimeStop) -> &'static str
    ensures { result.now ≡ cause_of_time stop }
{
    match stop {
        TimeStop::Form => "the time is neither tdt:SECONDS nor utc:YYYY-MM-DDThh:mm:ss.",
        TimeStop::Utc(fault) => utc_cause(fault),
        TimeStop::Range => "the time is more than 9*10^9 s from J2000.",
        TimeStop::BeforeFirst => "the time is before that of the kernel's first triple.",
        TimeStop::PastEnd => {
            "the time is later than that of the last tick of the clock's last partition."
        }
    }
}

fn words_cause(fault: WordsFault) -> &'static str
    ensures { result.now ≡ cause_of_words fault }
{
    match fault {
        WordsFault::NotTaken => "the words are not a command line.",
        WordsFault::UnknownCommand => "there is no such command.",
        WordsFault::NeedOption(_) => "the command needs this option:",
        WordsFault::OutOfRange(_) => "this is not in the range of the option:",
    }
}

/// What is wrong where a run ends so.
pub fn status_cause(status: Status) -> &'static str
    ensures { result.now ≡ cause_of status }
{
    match status {
        Status::Done => "",
        Status::WordsRefused(fault) => words_cause(fault),
        Status::LeapRefused(stop) => leap_cause(stop),
        Status::KernelRefused(stop) => kernel_cause(stop),
        Status::ObservationRefused(stop) => observation_cause(stop),
        Status::NotPublished(fault) => fit_cause(fault),
        Status::ReadFault(_) => "the file cannot be opened or read.",
        Status::WriteFault => {
            "standard output could not take all of the answer: the disk is full, or a pipe was closed."
        }
        Status::NoMemory => "memory ran out. This says nothing of the files.",
        Status::TimeRefused(stop) => time_cause(stop),
        Status::AuditNo(fault) => audit_cause(fault),
        Status::NewRefused(stop) => kernel_cause(stop),
        Status::ExcerptRefused(fault) => excerpt_cause(fault),
        Status::OverRefused(_, stop) => text_cause(stop),
    }
}
