//! Laws of leap tables and UTC texts.

ghost use Rattle.std.specs.Prelude.{◌≡◌, List, ℕ, ℤ};
ghost use Rattle.sk_checks.specs.Checks.{NoneRefuses};
ghost use Rattle.sk_grammar.specs.Variables.{VariableView};
ghost use Rattle.sk_leap.specs.declared.pair.LeapPair.{LeapPair};
ghost use Rattle.sk_leap.specs.declared.utc.Utc.{Utc};
ghost use Rattle.sk_leap.specs.Kernel.{leap_checks, IsTableOf};
ghost use Rattle.sk_leap.specs.Leap.{tdt_of, utc_checks, IsLeapTable, TimesRise};
ghost use Rattle.sk_leap.specs.UtcText.{SpellsUtc, IsPrintedUtc};

/// A later UTC of a table has a later time, and so no time is that of two UTCs.
pub fn times_rise()
    ensures { (pairs : List LeapPair) → IsLeapTable pairs → TimesRise pairs }
{}

/// A text spells one UTC at most, and so what `print_utc` prints is read to the same UTC.
pub fn one_utc()
    ensures { (text : List ℕ) (a b : Utc) → SpellsUtc text a → SpellsUtc text b → a ≡ b }
{}

/// The pairs that a leap second kernel gives are a leap table, so that `times_rise` holds of them.
pub fn kernel_gives_table()
    ensures { (variables : List VariableView) (pairs : List LeapPair) → NoneRefuses (leap_checks variables) → IsTableOf variables pairs → IsLeapTable pairs }
{}

/// A time of a leap table is that of one UTC, and a UTC is printed in one way.
pub fn one_time()
    ensures utc { (pairs : List LeapPair) (time : ℤ) (a b : Utc) → IsLeapTable pairs → NoneRefuses (utc_checks pairs a) → NoneRefuses (utc_checks pairs b) → tdt_of pairs a ≡ time → tdt_of pairs b ≡ time → a ≡ b }
    ensures text { (a b : List ℕ) (u v : Utc) → u ≡ v → IsPrintedUtc a u → IsPrintedUtc b v → a ≡ b }
{}
