use sk_cds::CdsFault;
use sk_clock::ClockFault;
use sk_cuc::CucFault;
use sk_leap::UtcFault;
use thiserror::Error;

/// Why a clock word has no tick.
#[derive(Clone, Copy, Debug, PartialEq, Eq)]
pub enum ClockWord {
    Text(ClockFault),
    Hex,
    Cuc(CucFault),
}

/// Why a clock word could not be read.
#[derive(Clone, Copy, Debug, PartialEq, Eq)]
pub enum ClockWordStop {
    Refused(ClockWord),
    NoMemory,
}

/// Why a time code is refused.
#[derive(Clone, Copy, Debug, PartialEq, Eq, Error)]
pub enum CodeFault {
    #[error("the code is no hex text")]
    Hex,
    #[error("the CUC code is refused")]
    Cuc(CucFault),
    #[error("the CDS code is refused")]
    Cds(CdsFault),
    #[error("the CUC code counts from an agency's epoch")]
    CucAgencyEpoch,
}

/// Why a file does not begin with the header `id`, `clock`, `time`, `delay`: the first of these that holds.
#[derive(Clone, Copy, Debug, PartialEq, Eq, Error)]
pub enum HeaderCause {
    #[error("the file holds no record")]
    Empty,
    #[error("the second record is the header")]
    LineBefore,
    #[error("the first field holds a zero byte, as UTF-16 does")]
    ZeroByte,
    #[error("the first record begins with #")]
    Comment,
    #[error("the first record has no comma, but a semicolon or a tab")]
    OtherSeparator,
    #[error("the third field of the first record holds a colon, as a time word does")]
    NoHeader,
    #[error("there is white space beside the names")]
    Blanks,
    #[error("the names have capital letters")]
    Capitals,
    #[error("the columns stand in another order")]
    OtherOrder,
    #[error("the first record has fewer than four fields")]
    TooFew,
    #[error("the first record has more than four fields")]
    TooMany,
    #[error("the first record has other names")]
    OtherNames,
}

/// Why a file holds no observations. A record is named by its number; the header is record 1.
#[derive(Clone, Copy, Debug, PartialEq, Eq, Error)]
pub enum ObsFault {
    #[error("the header is missing or another one: {0}")]
    Header(HeaderCause),
    #[error("record {0} has another number of fields")]
    FieldCount(u32),
    #[error("the id of record {0} is none")]
    BadId(u32),
    #[error("the clock word of record {0} has no tick")]
    ClockRefused(u32, ClockWord),
    #[error("the time word of record {0} is none")]
    TimeForm(u32),
    #[error("the time code of record {0} is refused")]
    CodeRefused(u32, CodeFault),
    #[error("the UTC of record {0} has no time")]
    UtcRefused(u32, UtcFault),
    #[error("the delay of record {0} is none")]
    BadDelay(u32),
    #[error("the time of record {0} is past 9000000000 s")]
    TimeRange(u32),
    #[error("the tick of record {0} is not above the one before it")]
    OutOfOrder(u32),
    #[error("there are more than 100000 observations")]
    TooMany,
    #[error("memory ran out")]
    NoMemory,
}
