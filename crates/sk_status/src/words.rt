//! The words that follow a status's number in the notes.
ghost use Rattle.std.specs.Prelude.{◌≡◌, ◌≤◌, ◌+◌, [], ◌++◌, ◌∷◌, length, codes};
ghost use Rattle.sk_words.specs.Request.{name_of};
ghost use Rattle.sk_status.specs.Notes.{behind, grammar_words, pool_words, text_words, leap_fault_words, leap_words, clock_kernel_words, triples_words, kernel_words, clock_word_words, code_words, record_words, observation_words, audit_words, excerpt_words, time_words, document_words, file_words, words_words};

use crate::names::{
    cds_text, clock_name_text, count_text, cuc_text, leap_name_text, range_text, reason_text,
    utc_text,
};
use crate::pieces::{
    push_numbered, push_numbered_word, push_three, push_two, push_word, push_word_numbered,
};
use crate::status::{DocumentKind, FileKind, KernelStop, LeapStop, ObsStop, TextStop, TimeStop};
use sk_audit::AuditFault;
use sk_clock::ClockKernelFault;
use sk_decimal::Line;
use sk_excerpt::ExcerptFault;
use sk_grammar::GrammarFault;
use sk_leap::{LeapFault, UtcFault};
use sk_obs::{ClockWord, CodeFault, ObsFault};
use sk_pool::PoolFault;
use sk_triples::TriplesFault;
use sk_words::{OptionName, WordsFault};

fn push_grammar(line: &mut Line, fault: GrammarFault)
    requires { length line.old ≤ 62 }
    ensures words { line.new ≡ line.old ++ behind (grammar_words fault) }
    ensures length { length line.new ≤ length line.old + 65 }
{
    match fault {
        GrammarFault::At {
            line: number,
            reason,
        } => push_numbered_word(line, "Grammar", number, reason_text(reason)),
        GrammarFault::NoMemory => {},
    }
}

fn push_pool(line: &mut Line, fault: PoolFault)
    requires { length line.old ≤ 62 }
    ensures words { line.new ≡ line.old ++ behind (pool_words fault) }
    ensures length { length line.new ≤ length line.old + 65 }
{
    match fault {
        PoolFault::AppendMixed(item) => push_word_numbered(line, "Pool", "AppendMixed", item),
        PoolFault::NoMemory => {},
    }
}

pub fn push_text_stop(line: &mut Line, stop: TextStop)
    requires { length line.old ≤ 62 }
    ensures words { line.new ≡ line.old ++ behind (text_words stop) }
    ensures length { length line.new ≤ length line.old + 65 }
{
    match stop {
        TextStop::TooLong => push_word(line, "TooLong"),
        TextStop::Grammar(fault) => push_grammar(line, fault),
    }
}

fn push_leap_fault(line: &mut Line, fault: LeapFault)
    requires { length line.old ≤ 50 }
    ensures words { line.new ≡ line.old ++ behind (codes "Leap" ∷ leap_fault_words fault) }
    ensures length { length line.new ≤ length line.old + 70 }
{
    match fault {
        LeapFault::Missing(name) => push_three(line, "Leap", "Missing", leap_name_text(name)),
        LeapFault::BadDeltaT => push_two(line, "Leap", "BadDeltaT"),
        LeapFault::BadPairs => push_two(line, "Leap", "BadPairs"),
        LeapFault::DateForm(pair) => push_word_numbered(line, "Leap", "DateForm", pair),
        LeapFault::DateOrder(pair) => push_word_numbered(line, "Leap", "DateOrder", pair),
        LeapFault::LeapStep(pair) => push_word_numbered(line, "Leap", "LeapStep", pair),
        LeapFault::NoMemory => push_word(line, "Leap"),
    }
}

pub fn push_leap_stop(line: &mut Line, stop: LeapStop)
    requires { length line.old ≤ 50 }
    ensures words { line.new ≡ line.old ++ behind (leap_words stop) }
    ensures length { length line.new ≤ length line.old + 70 }
{
    match stop {
        LeapStop::TooLong => push_word(line, "TooLong"),
        LeapStop::Grammar(fault) => push_grammar(line, fault),
        LeapStop::Pool(fault) => push_pool(line, fault),
        LeapStop::Leap(fault) => push_leap_fault(line, fault),
    }
}

fn push_clock_kernel(line: &mut Line, fault: ClockKernelFault)
    requires { length line.old ≤ 50 }
    ensures words { line.new ≡ line.old ++ behind (codes "Clock" ∷ clock_kernel_words fault) }
    ensures length { length line.new ≤ length line.old + 70 }
{
    match fault {
        ClockKernelFault::Missing(name) => push_three(
            line,
            "Clock",
            "Missing",
            clock_name_text(name),
        ),
        ClockKernelFault::NotType1 => push_two(line, "Clock", "NotType1"),
        ClockKernelFault::Barycentric => push_two(line, "Clock", "Barycentric"),
        ClockKernelFault::BadTimeSystem => push_two(line, "Clock", "BadTimeSystem"),
        ClockKernelFault::BadFields => push_two(line, "Clock", "BadFields"),
        ClockKernelFault::BadModuli => push_two(line, "Clock", "BadModuli"),
        ClockKernelFault::BadOffsets => push_two(line, "Clock", "BadOffsets"),
        ClockKernelFault::BadDelim => push_two(line, "Clock", "BadDelim"),
        ClockKernelFault::BadPartitions => push_two(line, "Clock", "BadPartitions"),
        ClockKernelFault::NoMemory => push_word(line, "Clock"),
    }
}

fn push_triples(line: &mut Line, fault: TriplesFault)
    requires { length line.old ≤ 50 }
    ensures words { line.new ≡ line.old ++ behind (codes "Triples" ∷ triples_words fault) }
    ensures length { length line.new ≤ length line.old + 70 }
{
    match fault {
        TriplesFault::Missing => push_two(line, "Triples", "Missing"),
        TriplesFault::NotTriples => push_two(line, "Triples", "NotTriples"),
        TriplesFault::TickRange(triple) => push_word_numbered(line, "Triples", "TickRange", triple),
        TriplesFault::TimeForm(triple) => push_word_numbered(line, "Triples", "TimeForm", triple),
        TriplesFault::TimeRange(triple) => push_word_numbered(line, "Triples", "TimeRange", triple),
        TriplesFault::RateRange(triple) => push_word_numbered(line, "Triples", "RateRange", triple),
        TriplesFault::OutOfOrder(triple) => push_word_numbered(
            line,
            "Triples",
            "OutOfOrder",
            triple,
        ),
        TriplesFault::TooMany => push_two(line, "Triples", "TooMany"),
        TriplesFault::NoMemory => push_word(line, "Triples"),
    }
}

pub fn push_kernel_stop(line: &mut Line, stop: KernelStop)
    requires { length line.old ≤ 50 }
    ensures words { line.new ≡ line.old ++ behind (kernel_words stop) }
    ensures length { length line.new ≤ length line.old + 70 }
{
    match stop {
        KernelStop::TooLong => push_word(line, "TooLong"),
        KernelStop::Grammar(fault) => push_grammar(line, fault),
        KernelStop::Pool(fault) => push_pool(line, fault),
        KernelStop::Clock(fault) => push_clock_kernel(line, fault),
        KernelStop::Triples(fault) => push_triples(line, fault),
    }
}

fn push_clock_word(line: &mut Line, fault: ClockWord)
    requires { length line.old ≤ 90 }
    ensures words { line.new ≡ line.old ++ behind (clock_word_words fault) }
    ensures length { length line.new ≤ length line.old + 22 }
{
    match fault {
        ClockWord::Text(fault) => push_two(line, "Text", count_text(fault)),
        ClockWord::Hex => push_word(line, "Hex"),
        ClockWord::Cuc(fault) => push_two(line, "Cuc", cuc_text(fault)),
    }
}

fn push_code(line: &mut Line, fault: CodeFault)
    requires { length line.old ≤ 90 }
    ensures words { line.new ≡ line.old ++ behind (code_words fault) }
    ensures length { length line.new ≤ length line.old + 22 }
{
    match fault {
        CodeFault::Hex => push_word(line, "Hex"),
        CodeFault::Cuc(fault) => push_two(line, "Cuc", cuc_text(fault)),
        CodeFault::Cds(fault) => push_two(line, "Cds", cds_text(fault)),
        CodeFault::CucAgencyEpoch => push_word(line, "CucAgencyEpoch"),
    }
}

fn push_clock_refused(line: &mut Line, number: u32, fault: ClockWord)
    requires { length line.old ≤ 20 }
    ensures words { line.new ≡ line.old ++ behind (record_words (ObsFault.ClockRefused number fault)) }
    ensures length { length line.new ≤ length line.old + 85 }
{
    push_numbered_word(line, "Record", number, "ClockRefused");
    push_clock_word(line, fault);
}

fn push_code_refused(line: &mut Line, number: u32, fault: CodeFault)
    requires { length line.old ≤ 20 }
    ensures words { line.new ≡ line.old ++ behind (record_words (ObsFault.CodeRefused number fault)) }
    ensures length { length line.new ≤ length line.old + 85 }
{
    push_numbered_word(line, "Record", number, "CodeRefused");
    push_code(line, fault);
}

fn push_utc_refused(line: &mut Line, number: u32, fault: UtcFault)
    requires { length line.old ≤ 20 }
    ensures words { line.new ≡ line.old ++ behind (record_words (ObsFault.UtcRefused number fault)) }
    ensures length { length line.new ≤ length line.old + 85 }
{
    push_numbered_word(line, "Record", number, "UtcRefused");
    push_word(line, utc_text(fault));
}

fn push_obs_fault(line: &mut Line, fault: ObsFault)
    requires { length line.old ≤ 20 }
    ensures words { line.new ≡ line.old ++ behind (record_words fault) }
    ensures length { length line.new ≤ length line.old + 85 }
{
    match fault {
        ObsFault::Header(_) => push_word(line, "Header"),
        ObsFault::FieldCount(number) => push_numbered_word(line, "Record", number, "FieldCount"),
        ObsFault::BadId(number) => push_numbered_word(line, "Record", number, "BadId"),
        ObsFault::TimeForm(number) => push_numbered_word(line, "Record", number, "TimeForm"),
        ObsFault::BadDelay(number) => push_numbered_word(line, "Record", number, "BadDelay"),
        ObsFault::TimeRange(number) => push_numbered_word(line, "Record", number, "TimeRange"),
        ObsFault::OutOfOrder(number) => push_numbered_word(line, "Record", number, "OutOfOrder"),
        ObsFault::ClockRefused(number, fault) => push_clock_refused(line, number, fault),
        ObsFault::CodeRefused(number, fault) => push_code_refused(line, number, fault),
        ObsFault::UtcRefused(number, fault) => push_utc_refused(line, number, fault),
        ObsFault::TooMany => push_word(line, "TooMany"),
        ObsFault::NoMemory => {},
    }
}

fn push_clock_stop(line: &mut Line, fault: ClockWord)
    requires { length line.old ≤ 20 }
    ensures words { line.new ≡ line.old ++ behind (observation_words (ObsStop.Clock fault)) }
    ensures length { length line.new ≤ length line.old + 85 }
{
    push_word(line, "Clock");
    push_clock_word(line, fault);
}

pub fn push_obs_stop(line: &mut Line, stop: ObsStop)
    requires { length line.old ≤ 20 }
    ensures words { line.new ≡ line.old ++ behind (observation_words stop) }
    ensures length { length line.new ≤ length line.old + 85 }
{
    match stop {
        ObsStop::TooLong => push_word(line, "TooLong"),
        ObsStop::Record(fault) => push_obs_fault(line, fault),
        ObsStop::Range(number, fault) => push_numbered_word(
            line,
            "Range",
            number,
            range_text(fault),
        ),
        ObsStop::Clock(fault) => push_clock_stop(line, fault),
    }
}

pub fn push_audit(line: &mut Line, fault: AuditFault)
    requires { length line.old ≤ 50 }
    ensures words { line.new ≡ line.old ++ behind (audit_words fault) }
    ensures length { length line.new ≤ length line.old + 50 }
{
    match fault {
        AuditFault::Settings => push_word(line, "Settings"),
        AuditFault::Standing => push_word(line, "Standing"),
        AuditFault::Items => push_word(line, "Items"),
        AuditFault::Chain => push_word(line, "Chain"),
        AuditFault::Table(number) => push_numbered(line, "Table", number),
    }
}

pub fn push_excerpt(line: &mut Line, fault: ExcerptFault)
    requires { length line.old ≤ 50 }
    ensures words { line.new ≡ line.old ++ behind (excerpt_words fault) }
    ensures length { length line.new ≤ length line.old + 50 }
{
    match fault {
        ExcerptFault::BadRange => push_word(line, "BadRange"),
        ExcerptFault::BeforeFirst => push_word(line, "BeforeFirst"),
        ExcerptFault::NoMemory => {},
    }
}

pub fn push_time(line: &mut Line, stop: TimeStop)
    requires { length line.old ≤ 50 }
    ensures words { line.new ≡ line.old ++ behind (time_words stop) }
    ensures length { length line.new ≤ length line.old + 50 }
{
    match stop {
        TimeStop::Form => push_word(line, "Form"),
        TimeStop::Utc(fault) => push_two(line, "Utc", utc_text(fault)),
        TimeStop::Range => push_word(line, "Range"),
        TimeStop::BeforeFirst => push_word(line, "BeforeFirst"),
        TimeStop::PastEnd => push_word(line, "PastEnd"),
    }
}

fn push_document(line: &mut Line, kind: DocumentKind)
    requires { length line.old ≤ 50 }
    ensures words { line.new ≡ line.old ++ behind (document_words kind) }
    ensures length { length line.new ≤ length line.old + 50 }
{
    match kind {
        DocumentKind::Leap => push_word(line, "Leap"),
        DocumentKind::Kernel => push_word(line, "Kernel"),
        DocumentKind::New => push_word(line, "New"),
        DocumentKind::Over(place) => push_numbered(line, "Over", place),
    }
}

pub fn push_file(line: &mut Line, kind: FileKind)
    requires { length line.old ≤ 50 }
    ensures words { line.new ≡ line.old ++ behind (file_words kind) }
    ensures length { length line.new ≤ length line.old + 50 }
{
    match kind {
        FileKind::Document(kind) => push_document(line, kind),
        FileKind::Observations => push_word(line, "Observations"),
    }
}

fn push_named(line: &mut Line, word: &str, name: OptionName)
    requires { length line.old + length word.now ≤ 100 }
    ensures words { line.new ≡ line.old ++ behind (word.now ∷ name_of name ∷ []) }
    ensures length { length line.new ≤ length line.old + length word.now + 15 }
{
    push_two(line, word, name.word());
}

pub fn push_words_fault(line: &mut Line, fault: WordsFault)
    requires { length line.old ≤ 50 }
    ensures words { line.new ≡ line.old ++ behind (words_words fault) }
    ensures length { length line.new ≤ length line.old + 50 }
{
    match fault {
        WordsFault::NotTaken => push_word(line, "NotTaken"),
        WordsFault::UnknownCommand => push_word(line, "UnknownCommand"),
        WordsFault::NeedOption(name) => push_named(line, "NeedOption", name),
        WordsFault::OutOfRange(name) => push_named(line, "OutOfRange", name),
    }
}
