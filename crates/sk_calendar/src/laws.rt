//! Laws of calendar times.

ghost use Rattle.std.specs.Prelude.{◌≡◌, List, ℕ, ℤ};
ghost use Rattle.sk_calendar.specs.Calendar.{SpellsCalendarTime};

/// No text has two readings: it spells one calendar time at most.
pub fn one_calendar_time()
    ensures { (text : List ℕ) (a b : ℤ) → SpellsCalendarTime text a → SpellsCalendarTime text b → a ≡ b }
{}
