//! Fractions of 10^-18 s in whole units.

ghost use Rattle.std.specs.Prelude.{◌≤◌, ◌<ℤ◌, pos, SomeIff, IfSome, MatchOption};
ghost use Rattle.sk_decimal.specs.Fixed.{FitsWide, IsFloor, IsCeiling};
ghost use Rattle.sk_ratio.specs.Ratio.{unit_divisor};

use crate::ratio::{Ratio, positive_product};
use sk_decimal::{Fixed, ceil_div, floor_div};

impl Ratio {
    /// What the numerator is divided by to count units of so many decimals.
    fn divisor(self, places: u32) -> Option<i128>
        requires { places ≤ 18 }
        ensures value { SomeIff result (FitsWide (unit_divisor places self)) (unit_divisor places self) }
        ensures positive { IfSome result (λ divisor. pos 0 <ℤ divisor) }
    {
        positive_product(self.den, 10i128.pow(18 - places))
    }

    /// The greatest number with `S` decimals that is not above; `None` exactly where the divisor passes i128.
    pub fn floor_units<const S: u32>(self) -> Option<Fixed<S>>
        requires { S ≤ 18 }
        ensures { MatchOption result (¬ FitsWide (unit_divisor S self)) (λ fixed. FitsWide (unit_divisor S self) × IsFloor self.num (unit_divisor S self) fixed.units) }
    {
        match self.divisor(S) {
            Some(divisor) => Some(Fixed {
                units: floor_div(self.num, divisor),
            }),
            None => None,
        }
    }

    /// The least number with `S` decimals that is not below; `None` exactly where the divisor passes i128.
    pub fn ceil_units<const S: u32>(self) -> Option<Fixed<S>>
        requires { S ≤ 18 }
        ensures { MatchOption result (¬ FitsWide (unit_divisor S self)) (λ fixed. FitsWide (unit_divisor S self) × IsCeiling self.num (unit_divisor S self) fixed.units) }
    {
        match self.divisor(S) {
            Some(divisor) => Some(Fixed {
                units: ceil_div(self.num, divisor),
            }),
            None => None,
        }
    }
}
