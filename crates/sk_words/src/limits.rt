//! The numbers that options take.

ghost use Rattle.std.specs.Prelude.{◌≡◌, Some};
ghost use Rattle.sk_words.specs.Request.{default_of, numbers_of};

use crate::tables::OptionName;

/// The numbers that an option takes, from `least` to `greatest`, and the one that holds where it is not given.
#[derive(Clone, Copy, Debug)]
pub struct Numbers {
    pub least: u64,
    pub greatest: u64,
    pub default: Option<u64>,
}

const MOST_TICK: u64 = 9_007_199_254_740_991;

const MOST_NANOSECONDS: u64 = 60_000_000_000;

fn between(least: u64, greatest: u64, default: Option<u64>) -> Option<Numbers>
    ensures { result ≡ Some (record { least = least; greatest = greatest; default = default }) }
{
    Some(Numbers {
        least,
        greatest,
        default,
    })
}

impl OptionName {
    /// The numbers that the option takes, if it takes numbers.
    pub fn numbers(self) -> Option<Numbers>
        ensures { result ≡ numbers_of self }
    {
        match self {
            OptionName::Sc => between(1, 999_999_999, None),
            OptionName::TolNs => between(1, MOST_NANOSECONDS, Some(1_000_000)),
            OptionName::RateDecimals => between(1, 15, Some(12)),
            OptionName::BandPpm => between(1, 100_000, Some(1000)),
            OptionName::SlipNs => between(0, MOST_NANOSECONDS, Some(1_000_000)),
            OptionName::Hold => between(0, MOST_TICK, None),
            OptionName::Seed => between(0, 4_294_967_295, None),
            OptionName::Count => between(1, 100_000, None),
            OptionName::Reject => between(0, 100_000, Some(0)),
            OptionName::From => between(0, MOST_TICK, None),
            OptionName::To => between(0, MOST_TICK, None),
            OptionName::Leap => None,
            OptionName::Kernel => None,
            OptionName::Obs => None,
            OptionName::Id => None,
            OptionName::Clock => None,
            OptionName::Time => None,
            OptionName::New => None,
            OptionName::Over => None,
        }
    }

    /// The number that holds where the option is not given; 0 where none does.
    pub fn default_number(self) -> u64
        ensures { result ≡ default_of self }
    {
        match self.numbers() {
            Some(numbers) => numbers.default.unwrap_or(0),
            None => 0,
        }
    }
}
