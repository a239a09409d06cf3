//! What the picture's definition comes to, for readers.

ghost use Rattle.std.specs.Prelude.{◌≡◌, ◌≤◌, ◌^◌, ◌↔◌, ◌∷◌, ◌++◌, ℕ, ℤ, ◌≤ℤ◌, List, IsTrue};
ghost use Rattle.std.specs.List.{list_all};
ghost use Rattle.sk_plot.specs.Escape.{escaped, is_harmless};
ghost use Rattle.sk_plot.specs.Point.{PointView};
ghost use Rattle.sk_plot.specs.Place.{band_top, band_bottom, is_inside, rise_of};
ghost use Rattle.sk_plot.specs.Picture.{axes_of, mark_text, marks_text, sheet_of};
ghost use Rattle.sk_plot.specs.declared.scale.Days.{Days as DaysView};
ghost use Rattle.sk_plot.specs.declared.place.Sheet.{Sheet as SheetView};

/// Each observation has its own mark, after the marks of those before it and before those of the ones after it.
pub fn one_mark_each()
    ensures { (sheet : SheetView) (before after : List PointView) (p : PointView)
        → marks_text sheet (before ++ p ∷ after) ≡ marks_text sheet before ++ (mark_text sheet p ++ marks_text sheet after) }
{}

/// No escaped text has a byte that opens or ends an element or a quoted value, or that XML forbids.
pub fn escaped_is_harmless()
    ensures { (bytes : List ℕ) → IsTrue (list_all is_harmless (escaped bytes)) }
{}
/// A mark stands inside the band's rectangle exactly where its residual is at most the tolerance in size.
pub fn inside_is_in_the_band()
    ensures { (reach tolerance : ℕ) (value : ℤ) → 1 ≤ reach → tolerance ≤ reach
        → IsTrue (is_inside tolerance value) ↔ ((band_bottom reach tolerance ≤ℤ rise_of reach tolerance value) × (rise_of reach tolerance value ≤ℤ band_top reach tolerance)) }
{}

/// A greater residual is never drawn lower.
pub fn greater_is_never_lower()
    ensures { (reach tolerance : ℕ) (a b : ℤ) → 1 ≤ reach → tolerance ≤ reach → a ≤ℤ b → rise_of reach tolerance a ≤ℤ rise_of reach tolerance b }
{}

/// The axis of each panel of residuals has the whole band.
pub fn the_axis_has_the_band()
    ensures { (days : DaysView) (level tolerance : ℕ) (points : List PointView) → tolerance ≤ 10 ^ 17
        → tolerance ≤ (sheet_of (axes_of days level tolerance points)).values.reach }
{}
