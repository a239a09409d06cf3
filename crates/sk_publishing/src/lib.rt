//! What publishing means, over plain lists and numbers, and its laws: functions with empty bodies, whose contracts are proved.
#![tactic(auto)]

ghost use Rattle.sk_publishing.specs.Again.{AgainLaw, NoneLaw};
ghost use Rattle.sk_publishing.specs.Told.{MarksLaw, ResidualLaw};
ghost use Rattle.sk_publishing.specs.Promises.{OrderLaw, StepLaw, BarredLaw};
ghost use Rattle.sk_publishing.specs.Laws.{IntervalLaw, PairLaw, RoundingLaw, ToleranceLaw, NoFallLaw, OneChain, OnePublication, OneStop};

/// A rate of the band meets every observation of a run exactly where it lies between the greatest of their
/// least rates and the least of their greatest rates.
pub fn interval_law()
    ensures law { IntervalLaw }
    ensures pair { PairLaw }
{}

/// A rounded-up anchor breaks neither the order of times nor the tolerance.
pub fn rounding_law()
    ensures law { RoundingLaw }
{}

/// By the new kernel each kept observation is within the tolerance, and time does not fall where a new triple begins.
pub fn new_kernel_law()
    ensures tolerance { ToleranceLaw }
    ensures order { NoFallLaw }
{}

/// For any list of kept observations there is at most one chain so far at each, and one chain of all.
pub fn one_chain()
    ensures law { OneChain }
{}

/// The dropped observations and the segments are those of the observations and the settings.
pub fn one_publication()
    ensures law { OnePublication }
{}

/// What stops a publication is one observation, for one reason, and then there is no publication.
pub fn one_stop()
    ensures law { OneStop }
{}

/// Of two ticks with no falling join above the first and up to the second, the later one has the later time; and where a
/// new triple begins within a partition, time rises by less than the time unit.
pub fn time_law()
    ensures order { OrderLaw }
    ensures step { StepLaw }
{}

/// A segment ends within its partition only where observations exclude every allowed rate, and its end tells which.
pub fn barred_law()
    ensures law { BarredLaw }
{}

/// The table marks an observation `new` where it is kept, `dropped` where it is dropped and `old` otherwise, and the residual
/// of one that is within the tolerance is at most the tolerance in size.
pub fn table_law()
    ensures marks { MarksLaw }
    ensures residuals { ResidualLaw }
{}

/// The same observations, published again over the published kernel, add no triple, where none was dropped and no hold is given;
/// and no observations add none.
pub fn again_law()
    ensures again { AgainLaw }
    ensures none { NoneLaw }
{}
