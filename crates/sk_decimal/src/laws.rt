//! What the crate's definitions come to, for callers.

ghost use Rattle.std.specs.Prelude.{◌≡◌, ◌≤◌, ◌<◌, ◌^◌, List, ℕ, ℤ, nat_abs, Ok, length};
ghost use Rattle.sk_decimal.specs.Number.{DecimalView, IsDecimal, SpellsDecimal, plain_spelling};
ghost use Rattle.sk_decimal.specs.Fixed.{HasUnits, fixed_text};
ghost use Rattle.sk_decimal.specs.Reading.{number_of};

/// No bytes spell two decimals.
pub fn one_decimal()
    ensures { (bytes : List ℕ) (c d : DecimalView) → SpellsDecimal bytes c → SpellsDecimal bytes d → c ≡ d }
{}

/// A plain spelling is read as the decimal that it was printed for, and is short.
pub fn plain_spelling_is_read()
    ensures spells { (d : DecimalView) → IsDecimal d → SpellsDecimal (plain_spelling d) d }
    ensures read { (d : DecimalView) → IsDecimal d → number_of (plain_spelling d) ≡ Ok d }
    ensures short { (d : DecimalView) → IsDecimal d → length (plain_spelling d) ≤ 41 }
{}

/// The text of a number with a fixed count of decimals is read as the decimal of the same value.
pub fn fixed_text_is_read()
    ensures spells { (places : ℕ) (units : ℤ) (d : DecimalView) → IsDecimal d → HasUnits places d units → nat_abs units < 2 ^ 127 → SpellsDecimal (fixed_text places units) d }
    ensures read { (places : ℕ) (units : ℤ) (d : DecimalView) → IsDecimal d → HasUnits places d units → nat_abs units < 2 ^ 127 → number_of (fixed_text places units) ≡ Ok d }
{}
