//! Laws of the words.

ghost use Rattle.std.specs.Prelude.{◌↔◌, ℕ, ℤ, List, IsTrue};
ghost use Rattle.sk_calendar.specs.Calendar.{SpellsCalendarTime};
ghost use Rattle.sk_words.specs.Request.{is_in_range};
ghost use Rattle.sk_words.specs.declared.tables.OptionName.TheVariants.{Id};

/// A kernel ID is in its range exactly where it spells a calendar time, of whatever size: its forms have 8 to 39 bytes.
pub fn ids_are_calendar_times()
    ensures { (text : List ℕ) → IsTrue (is_in_range Id text) ↔ ((time : ℤ) × SpellsCalendarTime text time) }
{}
