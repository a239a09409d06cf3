//! Numbers with a fixed count of decimals.

ghost use Rattle.std.specs.Prelude.{◌≡◌, ◌≤◌, ◌<◌, ◌-◌, ◌^◌, ◌++◌, pos, ◌*ℤ◌, nat_abs, SomeIff, OnOk, OnErr};
ghost use Rattle.sk_decimal.specs.Fixed.{fixed_text, FitsWide, HasUnits};

use crate::decimal::Decimal;
use crate::placing::decimal_over;
use crate::printing::print;
use sk_checks::NoMemory;

/// A number with exactly `S` decimals, S at most 18: units / 10 ^ S.
#[derive(Clone, Copy, Debug, PartialEq, Eq)]
pub struct Fixed<const S: u32> {
    pub units: i128,
}

impl<const S: u32> Fixed<S> {
    /// The same value with `Q` decimals; `None` exactly where its units pass i128.
    pub fn widen<const Q: u32>(self) -> Option<Fixed<Q>>
        requires more { S ≤ Q }
        requires most { Q ≤ 18 }
        ensures { SomeIff result (FitsWide (self.entry.units *ℤ pos (10 ^ (Q - S)))) (record { units = self.entry.units *ℤ pos (10 ^ (Q - S)) }) }
    {
        match self.units.checked_mul(10i128.pow(Q - S)) {
            Some(units) => Some(Fixed { units }),
            None => None,
        }
    }

    /// The same value, reduced.
    pub fn to_decimal(self) -> Decimal
        requires places { S ≤ 18 }
        requires size { nat_abs self.units < 2 ^ 127 }
        ensures { HasUnits S result self.entry.units }
    {
        decimal_over(self.units < 0, self.units.unsigned_abs(), S)
    }

    /// Appends `-` where it is negative, the whole part, and where there are decimals a point and these.
    pub fn print(&self, out: &mut Vec<u8>) -> Result<(), NoMemory>
        requires { S ≤ 18 }
        ensures ok { OnOk result (out.new.items ≡ out.old.items ++ fixed_text S self.now.units) }
        ensures err { OnErr result (out.new.items ≡ out.old.items) }
    {
        print(out, self.units, S)
    }
}
