ghost use Rattle.std.specs.Prelude.{◌≡◌, []};
ghost use Rattle.sk_leap.specs.Leap.{IsLeapTable};

use crate::pair::LeapPair;
use std::alloc::Global;
use std::marker::Model;
use thiserror::Error;

/// The leap values by their dates.
#[derive(Debug, Drop)]
pub struct LeapTable {
    pairs: Option<Vec<LeapPair>>,
}

impl Model for LeapTable {
    ghost use Rattle.std.specs.Prelude.{List, []};
    ghost use Rattle.std.specs.Option.{option_map_or};
    ghost use Rattle.sk_leap.specs.declared.pair.LeapPair.{LeapPair};
    ghost use Rattle.sk_leap.specs.Leap.{IsLeapTable};

    ghost Value = { List LeapPair };

    ghost view = { λ t. option_map_or (λ pairs. pairs.items) t.pairs [] };

    ghost invariant = { λ t. IsLeapTable (option_map_or (λ pairs. pairs.items) t.pairs []) };
}

impl LeapTable {
    /// A table without pairs.
    pub fn none() -> LeapTable
        ensures { result ≡ [] }
    {
        LeapTable { pairs: None }
    }

    /// The pairs, in the order of their dates.
    pub(crate) fn pairs(&self) -> &[LeapPair]
        ensures value { result.now ≡ self.now }
        ensures table { IsLeapTable result.now }
    {
        match &self.pairs {
            Some(pairs) => pairs.as_slice(),
            None => &[],
        }
    }

    /// The table of these pairs.
    pub(crate) fn from_pairs(pairs: Vec<LeapPair>) -> LeapTable
        requires { IsLeapTable pairs.items }
        ensures { result ≡ pairs.items }
    {
        LeapTable { pairs: Some(pairs) }
    }
}

/// The variables of a leap second kernel that are read.
#[derive(Clone, Copy, Debug, PartialEq, Eq)]
pub enum LeapName {
    DeltaTA,
    DeltaAT,
}

/// Why a pool gives no leap table. Pairs are numbered from 1.
#[derive(Clone, Copy, Debug, PartialEq, Eq, Error)]
pub enum LeapFault {
    #[error("a variable of the leap seconds is missing")]
    Missing(LeapName),
    #[error("TDT less TAI is not 32.184 s")]
    BadDeltaT,
    #[error("the leap seconds are no pairs of a number and a date")]
    BadPairs,
    #[error("pair {0}: the date is not of the form @YYYY-MON-DD")]
    DateForm(u32),
    #[error("pair {0}: the date is not after the one before")]
    DateOrder(u32),
    #[error("pair {0}: the number is not one more than the one before")]
    LeapStep(u32),
    #[error("out of memory")]
    NoMemory,
}
