//! The leap table of a leap second kernel.

ghost use Rattle.std.specs.Prelude.{◌≡◌, ◌↔◌, [], ◌∷◌, pos, IsTrue};
ghost use Rattle.sk_checks.specs.Checks.{JudgesUnless};
ghost use Rattle.sk_grammar.specs.Variables.{IsCounted};
ghost use Rattle.sk_grammar.specs.declared.value.Value.TheVariants.{Number};
ghost use Rattle.sk_leap.specs.Kernel.{leap_checks, IsTableOf};

use crate::entries::{are_entries, read_pairs};
use crate::table::{LeapFault, LeapName, LeapTable};
use sk_grammar::Value;
use sk_pool::{Pool, only_number};
use std::alloc::Global;

/// Whether this is the one number 32.184.
fn is_delta_t(values: &[Value]) -> bool
    ensures { IsTrue result ↔ (values.now ≡ Number (record { coefficient = pos 32184; scale = 3 }) ∷ []) }
{
    let Some(number) = only_number(values) else {
        return false;
    };
    match number.to_fixed::<3>() {
        Some(seconds) => seconds.units == 32184,
        None => false,
    }
}

impl LeapTable {
    /// The table of a leap second kernel, of its variables `DELTET/DELTA_T_A` and `DELTET/DELTA_AT` (NAIF Time
    /// Required Reading, "Leapseconds Kernels"). The second has pairs of a leap value from 0 to 1000 and a date from
    /// 1958 to 2199, each later than the one before it and its value one more. The first cause of refusal in the
    /// order of `LeapFault` is answered, of the pairs' faults that of the first bad pair.
    pub fn of(alloc: Global, pool: &Pool) -> Result<LeapTable, LeapFault>
        requires { IsCounted pool.now }
        ensures { JudgesUnless LeapFault.NoMemory (leap_checks pool.now) (IsTableOf pool.now) result }
    {
        let Some(delta_t) = pool.values(b"DELTET/DELTA_T_A") else {
            return Err(LeapFault::Missing(LeapName::DeltaTA));
        };
        let Some(delta_at) = pool.values(b"DELTET/DELTA_AT") else {
            return Err(LeapFault::Missing(LeapName::DeltaAT));
        };
        if !is_delta_t(delta_t) {
            return Err(LeapFault::BadDeltaT);
        }
        if !are_entries(delta_at) {
            return Err(LeapFault::BadPairs);
        }
        match read_pairs(alloc, delta_at) {
            Ok(pairs) => Ok(LeapTable::from_pairs(pairs)),
            Err(fault) => Err(fault),
        }
    }
}
