ghost use Rattle.std.specs.Prelude.{◌≡◌, ◌≤◌, ◌^◌, ◌++◌, pos, neg_ℤ, ◌*ℤ◌, ◌≤ℤ◌, SomeIff, OnOk, OnErr};
ghost use Rattle.sk_decimal.specs.Number.{plain_spelling};
ghost use Rattle.sk_decimal.specs.Fixed.{FitsWide, units_of};

use crate::fixed::Fixed;
use crate::printing::print;
use sk_checks::NoMemory;
use std::marker::Model;
use thiserror::Error;

/// A decimal number, coefficient / 10 ^ scale, reduced.
#[derive(Clone, Copy, Debug, PartialEq, Eq)]
pub struct Decimal {
    coefficient: i128,
    scale: u32,
}

impl Model for Decimal {
    ghost use Rattle.sk_decimal.specs.Number.{DecimalView, IsDecimal};

    ghost Value = { DecimalView };

    ghost view = { λ d. record { coefficient = d.coefficient; scale = d.scale } };

    ghost invariant = { λ d. IsDecimal (record { coefficient = d.coefficient; scale = d.scale }) };

    ghost inverse = { λ d. record { coefficient = d.coefficient; scale = d.scale } };
}

/// Why bytes are no decimal.
#[derive(Clone, Copy, Debug, PartialEq, Eq, Error)]
pub enum NumberFault {
    #[error("the bytes spell no number")]
    NotNumber,
    /// They spell a number, and no decimal has its value.
    #[error("no decimal of 128 bits has the number's value")]
    TooWide,
}

/// Sizes up to this one have products with 10^18 that stay in i128.
const SHORT: i128 = 10_000_000_000_000_000_000;

/// A short size times a number.
fn short_product(size: i128, number: u64) -> i128
    requires from { neg_ℤ (pos (10 ^ 19)) ≤ℤ size }
    requires to { size ≤ℤ pos (10 ^ 19) }
    requires number { number ≤ 10 ^ 18 }
    ensures value { result ≡ size *ℤ pos number }
    ensures from { neg_ℤ (pos (10 ^ 37)) ≤ℤ result }
    ensures to { result ≤ℤ pos (10 ^ 37) }
{
    size * number as i128
}

/// The size times a power of ten; `None` exactly where the product passes i128.
fn times_power(size: i128, places: u32) -> Option<i128>
    requires { places ≤ 18 }
    ensures { SomeIff result (FitsWide (size *ℤ pos (10 ^ places))) (size *ℤ pos (10 ^ places)) }
{
    let power = 10u64.pow(places);
    // Most numbers are short, and a checked product of 128 bits costs ten plain ones.
    if -SHORT <= size && size <= SHORT {
        return Some(short_product(size, power));
    }
    size.checked_mul(i128::from(power))
}

impl Decimal {
    ghost use Rattle.std.specs.Prelude.{◌≡◌};
    ghost use Rattle.sk_decimal.specs.Number.{DecimalView, IsDecimal};

    /// The decimal of these parts.
    pub(crate) fn new(coefficient: i128, scale: u32) -> Decimal
        requires { IsDecimal (record { coefficient = coefficient; scale = scale }) }
        ensures coefficient { result.coefficient ≡ coefficient }
        ensures scale { result.scale ≡ scale }
    {
        Decimal { coefficient, scale }
    }

    /// How many digits stand after the point.
    pub fn scale(&self) -> u32
        ensures { result ≡ self.now.scale }
    {
        self.scale
    }

    /// Appends the plain spelling: `-` where it is negative, the whole part, and where there are digits after the
    /// point a point and these.
    pub fn print(&self, out: &mut Vec<u8>) -> Result<(), NoMemory>
        ensures ok { OnOk result (out.new.items ≡ out.old.items ++ plain_spelling self.now) }
        ensures err { OnErr result (out.new.items ≡ out.old.items) }
    {
        print(out, self.coefficient, self.scale)
    }

    /// The same value with exactly `S` decimals; `None` exactly where it has more, or its units pass i128.
    pub fn to_fixed<const S: u32>(&self) -> Option<Fixed<S>>
        requires { S ≤ 18 }
        ensures { SomeIff result ((self.now.scale ≤ S) × FitsWide (units_of S self.now)) (record { units = units_of S self.now }) }
    {
        if self.scale > S {
            return None;
        }
        match times_power(self.coefficient, S - self.scale) {
            Some(units) => Some(Fixed { units }),
            None => None,
        }
    }
}
