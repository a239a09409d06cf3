//! Names of faults.
ghost use Rattle.std.specs.Prelude.{◌≡◌, ◌≤◌, length};
ghost use Rattle.sk_status.specs.Notes.{reason_text as reason_text_of, utc_text as utc_text_of, clock_name_text as clock_name_text_of, count_text as count_text_of, cuc_text as cuc_text_of, cds_text as cds_text_of, range_text as range_text_of, leap_name_text as leap_name_text_of};

use sk_cds::CdsFault;
use sk_clock::{ClockFault, ClockName};
use sk_cuc::CucFault;
use sk_grammar::Reason;
use sk_leap::{LeapName, UtcFault};
use sk_triples::RangeFault;

/// Why a line is refused.
pub fn reason_text(reason: Reason) -> &'static str
    ensures text { result.now ≡ reason_text_of reason }
    ensures short { length result.now ≤ 15 }
{
    match reason {
        Reason::DataLineTooLong => "DataLineTooLong",
        Reason::TextLineTooLong => "TextLineTooLong",
        Reason::BadByte => "BadByte",
        Reason::BadName => "BadName",
        Reason::NoAssign => "NoAssign",
        Reason::BadNumber => "BadNumber",
        Reason::NumberTooWide => "NumberTooWide",
        Reason::TextOpen => "TextOpen",
        Reason::TextTooLong => "TextTooLong",
        Reason::BadDate => "BadDate",
        Reason::MixedKinds => "MixedKinds",
        Reason::BadComma => "BadComma",
        Reason::EmptyVector => "EmptyVector",
        Reason::AfterValue => "AfterValue",
        Reason::Unfinished => "Unfinished",
    }
}

/// Why a UTC has no time, or a time no UTC.
pub fn utc_text(fault: UtcFault) -> &'static str
    ensures text { result.now ≡ utc_text_of fault }
    ensures short { length result.now ≤ 11 }
{
    match fault {
        UtcFault::BeforeTable => "BeforeTable",
        UtcFault::NotInDay => "NotInDay",
        UtcFault::PastRange => "PastRange",
    }
}

/// The variable of a clock.
pub fn clock_name_text(name: ClockName) -> &'static str
    ensures text { result.now ≡ clock_name_text_of name }
    ensures short { length result.now ≤ 8 }
{
    match name {
        ClockName::DataType => "DataType",
        ClockName::Fields => "Fields",
        ClockName::Moduli => "Moduli",
        ClockName::Offsets => "Offsets",
        ClockName::Delim => "Delim",
        ClockName::Start => "Start",
        ClockName::End => "End",
    }
}

/// Why a clock string stands for no tick.
pub fn count_text(fault: ClockFault) -> &'static str
    ensures text { result.now ≡ count_text_of fault }
    ensures short { length result.now ≤ 16 }
{
    match fault {
        ClockFault::BadText => "BadText",
        ClockFault::TooManyFields => "TooManyFields",
        ClockFault::BelowOffset => "BelowOffset",
        ClockFault::NoSuchPartition => "NoSuchPartition",
        ClockFault::OutsidePartition => "OutsidePartition",
        ClockFault::WrongShape => "WrongShape",
    }
}

/// Why bytes are no CUC code.
pub fn cuc_text(fault: CucFault) -> &'static str
    ensures text { result.now ≡ cuc_text_of fault }
    ensures short { length result.now ≤ 13 }
{
    match fault {
        CucFault::Empty => "Empty",
        CucFault::NotCuc => "NotCuc",
        CucFault::ThirdOctet => "ThirdOctet",
        CucFault::FractionWidth => "FractionWidth",
        CucFault::Length => "Length",
    }
}

/// Why bytes are no CDS code.
pub fn cds_text(fault: CdsFault) -> &'static str
    ensures text { result.now ≡ cds_text_of fault }
    ensures short { length result.now ≤ 11 }
{
    match fault {
        CdsFault::Empty => "Empty",
        CdsFault::NotCds => "NotCds",
        CdsFault::Extension => "Extension",
        CdsFault::AgencyEpoch => "AgencyEpoch",
        CdsFault::Reserved => "Reserved",
        CdsFault::Length => "Length",
        CdsFault::SubRange => "SubRange",
    }
}

/// Why a tick has no time.
pub fn range_text(fault: RangeFault) -> &'static str
    ensures text { result.now ≡ range_text_of fault }
    ensures short { length result.now ≤ 14 }
{
    match fault {
        RangeFault::BeforeFirst => "BeforeFirst",
        RangeFault::PastPartitions => "PastPartitions",
    }
}

/// The variable of a leap second kernel.
pub fn leap_name_text(name: LeapName) -> &'static str
    ensures text { result.now ≡ leap_name_text_of name }
    ensures short { length result.now ≤ 17 }
{
    match name {
        LeapName::DeltaTA => "DELTET/DELTA_T_A",
        LeapName::DeltaAT => "DELTET/DELTA_AT",
    }
}
