//! What no kernel can do with less, and that there is one answer.

ghost use Rattle.sk_least.specs.Answer.{OneAnswer};
ghost use Rattle.sk_least.specs.Lines.{LineLaw, SegmentLaw};

/// Lines that meet all observations, each from its anchor on and in one partition, are no fewer than the runs that
/// [`least`](crate::least) answers, whatever their anchors and rates.
pub fn no_fewer_lines()
    ensures { LineLaw }
{}

/// The segments of a publication that cover an observation, whatever its settings, are no fewer than the runs of its kept
/// new observations.
pub fn no_fewer_segments()
    ensures { SegmentLaw }
{}

/// The runs, their places and the pairs that [`least`](crate::least) answers are the only ones that it may answer.
pub fn one_answer()
    ensures { OneAnswer }
{}
