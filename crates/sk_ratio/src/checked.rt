ghost use Rattle.std.specs.Prelude.{◌≡◌, ◌≢◌, ◌+ℤ◌, ◌*ℤ◌, SomeIff, Some};
ghost use Rattle.std.specs.Ordering.{int_cmp};
ghost use Rattle.sk_decimal.specs.Fixed.{FitsWide};
ghost use Rattle.sk_ratio.specs.Ratio.{RatioIff, CrossesFit};

use crate::ratio::{Ratio, positive_product};
use std::cmp::Ordering;

impl Ratio {
    /// The sum: of the numerators over the denominator that both share, else of the cross products over the
    /// product of the denominators. `None` exactly where one of these passes i128.
    pub fn add(self, other: Ratio) -> Option<Ratio>
        ensures shared { self.den ≡ other.den → RatioIff result (FitsWide (self.num +ℤ other.num)) (self.num +ℤ other.num) self.den }
        ensures crossed { self.den ≢ other.den → RatioIff result (CrossesFit self other) ((self.num *ℤ other.den) +ℤ (other.num *ℤ self.den)) (self.den *ℤ other.den) }
    {
        if self.den == other.den {
            match self.num.checked_add(other.num) {
                Some(num) => Some(Ratio { num, den: self.den }),
                None => None,
            }
        } else {
            self.add_crossed(other)
        }
    }

    /// The sum of the cross products over the product of the denominators.
    fn add_crossed(self, other: Ratio) -> Option<Ratio>
        ensures { RatioIff result (CrossesFit self other) ((self.num *ℤ other.den) +ℤ (other.num *ℤ self.den)) (self.den *ℤ other.den) }
    {
        let Some(first) = self.num.checked_mul(other.den) else {
            return None;
        };
        let Some(second) = other.num.checked_mul(self.den) else {
            return None;
        };
        let Some(num) = first.checked_add(second) else {
            return None;
        };
        match positive_product(self.den, other.den) {
            Some(den) => Some(Ratio { num, den }),
            None => None,
        }
    }

    /// The product with a whole number, over the same denominator; `None` exactly where it passes i128.
    pub fn mul_whole(self, k: i128) -> Option<Ratio>
        ensures { RatioIff result (FitsWide (self.num *ℤ k)) (self.num *ℤ k) self.den }
    {
        match self.num.checked_mul(k) {
            Some(num) => Some(Ratio { num, den: self.den }),
            None => None,
        }
    }

    /// The order of the two: of the numerators where they share the denominator, else of the cross products.
    /// `None` exactly where a cross product passes i128.
    pub fn compare(self, other: Ratio) -> Option<Ordering>
        ensures shared { self.den ≡ other.den → result ≡ Some (int_cmp self.num other.num) }
        ensures crossed { self.den ≢ other.den → SomeIff result (FitsWide (self.num *ℤ other.den) × FitsWide (other.num *ℤ self.den)) (int_cmp (self.num *ℤ other.den) (other.num *ℤ self.den)) }
    {
        if self.den == other.den {
            return Some(self.num.cmp(&other.num));
        }
        let first = self.num.checked_mul(other.den)?;
        let second = other.num.checked_mul(self.den)?;
        Some(first.cmp(&second))
    }
}
