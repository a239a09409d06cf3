use sk_audit::AuditFault;
use sk_clock::ClockKernelFault;
use sk_excerpt::ExcerptFault;
use sk_fit::FitFault;
use sk_grammar::GrammarFault;
use sk_leap::{LeapFault, UtcFault};
use sk_obs::{ClockWord, ObsFault};
use sk_pool::PoolFault;
use sk_triples::{RangeFault, TriplesFault};
use sk_words::WordsFault;

#[derive(Clone, Copy, Debug)]
pub enum LeapStop {
    TooLong,
    Grammar(GrammarFault),
    Pool(PoolFault),
    Leap(LeapFault),
}

#[derive(Clone, Copy, Debug)]
pub enum KernelStop {
    TooLong,
    Grammar(GrammarFault),
    Pool(PoolFault),
    Clock(ClockKernelFault),
    Triples(TriplesFault),
}

#[derive(Clone, Copy, Debug)]
pub enum ObsStop {
    TooLong,
    Record(ObsFault),
    Range(u32, RangeFault),
    Clock(ClockWord),
}

#[derive(Clone, Copy, Debug)]
pub enum TimeStop {
    Form,
    Utc(UtcFault),
    Range,
    BeforeFirst,
    PastEnd,
}

#[derive(Clone, Copy, Debug)]
pub enum TextStop {
    TooLong,
    Grammar(GrammarFault),
}

/// A kernel text that a run reads: the leap second kernel, the clock kernel, the kernel that is to be audited, or the
/// kernel at a place of `--over`, from 1.
#[derive(Clone, Copy, Debug)]
pub enum DocumentKind {
    Leap,
    Kernel,
    New,
    Over(u32),
}

/// A file that a run reads.
#[derive(Clone, Copy, Debug)]
pub enum FileKind {
    Document(DocumentKind),
    Observations,
}

/// How a run ends.
#[derive(Clone, Copy, Debug)]
pub enum Status {
    Done,
    WordsRefused(WordsFault),
    LeapRefused(LeapStop),
    KernelRefused(KernelStop),
    ObservationRefused(ObsStop),
    NotPublished(FitFault),
    ReadFault(FileKind),
    WriteFault,
    NoMemory,
    TimeRefused(TimeStop),
    AuditNo(AuditFault),
    NewRefused(KernelStop),
    ExcerptRefused(ExcerptFault),
    OverRefused(u32, TextStop),
}

impl Status {
    ghost use Rattle.sk_status.specs.Status.{code_of};
    ghost use Rattle.std.specs.Prelude.{◌≡◌};

    /// The exit status of the program.
    pub fn code(&self) -> u8
        ensures { result ≡ code_of self.now }
    {
        match self {
            Status::Done => 0,
            Status::WordsRefused(_) => 2,
            Status::LeapRefused(_) => 3,
            Status::KernelRefused(_) => 4,
            Status::ObservationRefused(_) => 5,
            Status::NotPublished(_) => 6,
            Status::ReadFault(_) => 7,
            Status::WriteFault => 8,
            Status::NoMemory => 9,
            Status::TimeRefused(_) => 10,
            Status::AuditNo(_) => 11,
            Status::NewRefused(_) => 12,
            Status::ExcerptRefused(_) => 13,
            Status::OverRefused(_, _) => 14,
        }
    }
}
