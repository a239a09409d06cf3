//! Laws of runs, of publications and of lines: functions with empty bodies, whose contracts are proved.

ghost use Rattle.sk_headline.specs.Accepted.{AcceptedArePublished, PublishedAreAccepted, WrittenIsAccepted, CanonicalIsPublished};
ghost use Rattle.sk_headline.specs.Fewest.{NoFewerTriples, NoFewerThanTold};
ghost use Rattle.sk_headline.specs.Headline.{OneText};
ghost use Rattle.sk_headline.specs.Uses.{OneOutcome, NamedFilesAlone, ReadAgain, AddsNothing, AddsOneBlock, NoneAddsNone, SameDocument, CanonicalIsRead, TextIsRead, UtcIsRead};

/// Where no reading fails and the named files are known, words and files come to one end at most.
pub fn one_outcome()
    ensures { OneOutcome }
{}

/// What words come to depends on the bytes of the files that they name, and on nothing else that a depot has.
pub fn named_files_alone()
    ensures { NamedFilesAlone }
{}

/// The options and the bytes of the files determine what is published, to the byte.
pub fn one_text()
    ensures { OneText }
{}

/// A published kernel, where it is not longer than a file may be, is read again: the old clock, and the old triples and then the new ones.
pub fn read_again()
    ensures { ReadAgain }
{}

/// The same observations, published again over the published kernel, add no triple, where none was dropped and no hold is given.
pub fn adds_nothing()
    ensures { AddsNothing }
{}

/// What is published is the canonical text of the old document and then one block.
pub fn adds_one_block()
    ensures { AddsOneBlock }
{}

/// A publication of no observations adds no triple.
pub fn none_adds_none()
    ensures { NoneAddsNone }
{}

/// Two texts of one document, as a kernel and its canonical text, have the same publication.
pub fn same_document()
    ensures { SameDocument }
{}

/// The canonical text of a document is read as that document, so that its own canonical text is the same text.
pub fn canonical_is_read()
    ensures { CanonicalIsRead }
{}

/// The clock text that `convert` printed is converted to the same line.
pub fn text_is_read()
    ensures { TextIsRead }
{}

/// The UTC that `convert` printed is read as the time that it printed.
pub fn utc_is_read()
    ensures { UtcIsRead }
{}

/// The old last triple and the new ones are no fewer than the lines that the kept new observations need; and no fewer than
/// `least` tells, where each observation is new and none is dropped.
pub fn no_fewer_triples()
    ensures kept { NoFewerTriples }
    ensures told { NoFewerThanTold }
{}

/// An audit accepts exactly the texts of what its options publish of its files, with any kernel ID: what `publish` writes
/// is accepted, and what is accepted is, in canonical text, what `publish` writes.
pub fn accepted_are_published()
    ensures published { AcceptedArePublished }
    ensures accepted { PublishedAreAccepted }
    ensures written { WrittenIsAccepted }
    ensures canonical { CanonicalIsPublished }
{}
