ghost use Rattle.std.specs.Prelude.{◌≡◌};
ghost use Rattle.sk_excerpt.specs.declared.fault.ExcerptFault.TheVariants.{NoMemory as Memory};

use sk_checks::NoMemory;
use thiserror::Error;

/// Why there is no excerpt.
#[derive(Clone, Copy, Debug, PartialEq, Eq, Error)]
pub enum ExcerptFault {
    /// The range ends before it begins, or past the greatest tick.
    #[error("no range of ticks")]
    BadRange,
    /// It begins before the first triple.
    #[error("before the first triple")]
    BeforeFirst,
    #[error("out of memory")]
    NoMemory,
}

impl From<NoMemory> for ExcerptFault {
    ghost from_gives = { λ _ fault. fault ≡ Memory };

    fn from(_: NoMemory) -> ExcerptFault {
        ExcerptFault::NoMemory
    }
}
