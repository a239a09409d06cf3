//! Laws of clock strings and ticks.

ghost use Rattle.std.specs.Prelude.{◌≡◌, ◌≤◌, ◌↔◌, List, ℕ};
ghost use Rattle.sk_clock.specs.Clock.{ClockView, total as total_of, partition_at as partition_at_of, clock_text, IsPartitionAt, IsCanonicalText, IsClock};
ghost use Rattle.sk_clock.specs.ClockText.{Reading, SpellsClock, StandsFor};

/// A clock string is read in one way, and so stands for one tick; a tick has one partition and one canonical text.
pub fn texts_and_ticks()
    ensures reading { (text : List ℕ) (a b : Reading) → SpellsClock text a → SpellsClock text b → a ≡ b }
    ensures tick { (clock : ClockView) (text : List ℕ) (a b : ℕ) → StandsFor clock text a → StandsFor clock text b → a ≡ b }
    ensures partition { (clock : ClockView) (tick p : ℕ) → IsClock clock → tick ≤ total_of clock → IsPartitionAt clock tick p ↔ (p ≡ partition_at_of clock tick) }
    ensures text { (clock : ClockView) (tick : ℕ) (text : List ℕ) → IsClock clock → tick ≤ total_of clock → IsCanonicalText clock tick text ↔ (text ≡ clock_text clock tick) }
{}
