//! What the pages of the help tell of options and commands.

ghost use Rattle.std.specs.Prelude.{◌≡◌, map};
ghost use Rattle.sk_words.specs.Help.{about as about_by, form_of, remarks as remarks_by, writes as writes_by};

use crate::tables::{Command, OptionName};

impl OptionName {
    /// What stands for the value of the option.
    pub fn form(self) -> &'static str
        ensures { result.now ≡ form_of self }
    {
        match self {
            OptionName::Leap => "FILE",
            OptionName::Kernel => "FILE",
            OptionName::Obs => "FILE",
            OptionName::Sc => "N",
            OptionName::TolNs => "N",
            OptionName::RateDecimals => "N",
            OptionName::BandPpm => "N",
            OptionName::SlipNs => "N",
            OptionName::Hold => "TICK",
            OptionName::Id => "DATE",
            OptionName::Clock => "WORD",
            OptionName::Seed => "N",
            OptionName::Count => "N",
            OptionName::Reject => "N",
            OptionName::Time => "WORD",
            OptionName::New => "FILE",
            OptionName::Over => "FILES",
            OptionName::From => "TICK",
            OptionName::To => "TICK",
        }
    }

    /// What the option is.
    pub fn about(self) -> &'static str
        ensures { result.now ≡ about_by self }
    {
        match self {
            OptionName::Leap => "leap seconds kernel; times as utc: and cds: need it",
            OptionName::Kernel => "clock kernel",
            OptionName::Obs => "observations, csv with the header id,clock,time,delay",
            OptionName::Sc => "number of the spacecraft, with NAIF's minus sign or not",
            OptionName::TolNs => "how far an observation may lie from the line, ns",
            OptionName::RateDecimals => "decimals of a new rate",
            OptionName::BandPpm => "how far a rate may lie from the old last one, 1e-6",
            OptionName::SlipNs => "how far time may fall at a join of the old kernel, ns",
            OptionName::Hold => "observations up to this encoded tick are not fitted",
            OptionName::Id => "kernel ID: a date, as 23-JAN-2024 or 2024-01-23/02:00:00",
            OptionName::Clock => "1/0001742400.32768 or tick:TICK or cuc:HEX",
            OptionName::Seed => "number from which all else of the sample follows",
            OptionName::Count => "how many observations",
            OptionName::Reject => "how many observations may be dropped",
            OptionName::Time => "tdt:SECONDS or utc:YYYY-MM-DDThh:mm:ss",
            OptionName::New => "second clock kernel: to be judged, or drawn too",
            OptionName::Over => "further clock kernels, with commas between",
            OptionName::From => "first encoded tick",
            OptionName::To => "last encoded tick",
        }
    }
}

static PUBLISH_REMARKS: [&str; 2] = [
    "Writes the kernel with one block more. Write it to a new file: > empties a file",
    "before it is read. docs/DAILY.md tells how to choose the options.",
];

static RESIDUALS_REMARKS: [&str; 2] = [
    "Writes a line for each observation: id, clock reading, observed TDT, TDT by the",
    "kernel, difference in ps, triple and kind. TDT is in seconds past J2000.",
];

static NORMAL_REMARKS: [&str; 1] = ["Only the grammar of the file is checked."];

static CONVERT_REMARKS: [&str; 2] = [
    "Writes one line: clock reading, encoded tick, TDT in seconds past J2000, UTC.",
    "The UTC is - where --leap is not given.",
];

static SAMPLE_REMARKS: [&str; 3] = [
    "Writes one line: sample, seed, count, new triples, the greatest difference in ps",
    "and the ticks of the last triple. It reads no file: docs/SAMPLE.md tells what is",
    "made. The slip has its default; nothing is held or dropped.",
];

static INVERT_REMARKS: [&str; 1] = [
    "Writes one line: clock reading, encoded tick and its TDT in seconds past J2000.",
];

static AUDIT_REMARKS: [&str; 2] = [
    "Writes yes where the kernel of --new is that of --kernel and the one block that",
    "publish would add with these options and any --id. Its layout does not count.",
];

static EXCERPT_REMARKS: [&str; 2] = [
    "Writes one block with each variable's values, as the kernels give them in this",
    "order; of the coefficients what the ticks need. Comments of blocks are left out.",
];

static LEAST_REMARKS: [&str; 2] = [
    "Writes least;RUNS, and for each run of one line its first id, its last id, and",
    "last, partition or bent:A:B:C:D, which are records that no one line meets.",
];

static PLOT_REMARKS: [&str; 2] = [
    "Writes one SVG document: a mark for each difference in microseconds over days of",
    "TDT, with the band of --tol-ns; the same by the kernel of --new; and the rates.",
];

impl Command {
    /// What the command writes.
    pub fn writes(self) -> &'static str
        ensures { result.now ≡ writes_by self }
    {
        match self {
            Command::Publish => "new triples, with the residual table as comments",
            Command::Residuals => "how far each observation lies from the kernel",
            Command::Normal => "the kernel in canonical layout",
            Command::Convert => "the tick, TDT and UTC of one clock reading",
            Command::Sample => "what publishing observations made from a seed comes to",
            Command::Invert => "the last clock reading that is not after one time",
            Command::Audit => "whether a kernel is what the options and files publish",
            Command::Excerpt => "the part of a kernel that a range of ticks needs",
            Command::Least => "how few lines can meet the observations, and why no fewer",
            Command::Plot => "a picture of how far each observation lies from the kernel",
        }
    }

    /// Further lines of the command's page.
    pub fn remarks(self) -> &'static [&'static str]
        ensures { map (λ l. l.now) result.now ≡ remarks_by self }
    {
        match self {
            Command::Publish => PUBLISH_REMARKS.as_slice(),
            Command::Residuals => RESIDUALS_REMARKS.as_slice(),
            Command::Normal => NORMAL_REMARKS.as_slice(),
            Command::Convert => CONVERT_REMARKS.as_slice(),
            Command::Sample => SAMPLE_REMARKS.as_slice(),
            Command::Invert => INVERT_REMARKS.as_slice(),
            Command::Audit => AUDIT_REMARKS.as_slice(),
            Command::Excerpt => EXCERPT_REMARKS.as_slice(),
            Command::Least => LEAST_REMARKS.as_slice(),
            Command::Plot => PLOT_REMARKS.as_slice(),
        }
    }
}
