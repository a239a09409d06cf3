//! What is wrong with the header of an observation file, and the nearest cure.

ghost use Rattle.std.specs.Prelude.{◌≡◌};
ghost use Rattle.sk_advice.specs.Headers.{cause_of_header, cure_of_header};

use sk_obs::HeaderCause;

/// What is wrong with the header.
pub fn header_cause(cause: HeaderCause) -> &'static str
    ensures { result.now ≡ cause_of_header cause }
{
    match cause {
        HeaderCause::Empty => "the file holds no record, and so no header.",
        HeaderCause::LineBefore => "a line stands before the header id,clock,time,delay.",
        HeaderCause::ZeroByte => "the first field holds a zero byte, as text in UTF-16 does.",
        HeaderCause::Comment => "the first record begins with #, and such a file has no comments.",
        HeaderCause::OtherSeparator => "the first record has a semicolon or a tab, and no comma.",
        HeaderCause::NoHeader =>
            "there is no header: the third field of the first record has a colon, as a time has.",
        HeaderCause::Blanks => "there is white space beside the header's names.",
        HeaderCause::Capitals => "the header's names have capital letters.",
        HeaderCause::OtherOrder => "the header's columns stand in another order.",
        HeaderCause::TooFew => "the first record has fewer than four fields.",
        HeaderCause::TooMany => "the first record has more than four fields.",
        HeaderCause::OtherNames => "the first record has other names than id,clock,time,delay.",
    }
}

/// The nearest cure.
pub fn header_cure(cause: HeaderCause) -> &'static str
    ensures { result.now ≡ cure_of_header cause }
{
    match cause {
        HeaderCause::Empty =>
            "Did the step before write anything? The first line is id,clock,time,delay.",
        HeaderCause::LineBefore => "Remove that line: the header comes first.",
        HeaderCause::ZeroByte => "Save the file as UTF-8.",
        HeaderCause::Comment =>
            "Remove each line that begins with #. The first line is id,clock,time,delay.",
        HeaderCause::OtherSeparator =>
            "Write commas in place of semicolons or tabs, in every record: id,clock,time,delay.",
        HeaderCause::NoHeader => "Write a first line before it: id,clock,time,delay.",
        HeaderCause::Blanks =>
            "Remove it: id,clock,time,delay. No field of a record has a blank beside it, too.",
        HeaderCause::Capitals => "Write it in small letters, with no blank: id,clock,time,delay.",
        HeaderCause::OtherOrder =>
            "Put the fields of every record in this order: id,clock,time,delay.",
        HeaderCause::TooFew =>
            "The header has four names: id,clock,time,delay. Is a column or a comma missing?",
        HeaderCause::TooMany =>
            "The header has four names alone: id,clock,time,delay. Leave the other columns out, in every record.",
        HeaderCause::OtherNames => "Write the header just so: id,clock,time,delay.",
    }
}
