//! What the definitions of codes come to, for callers.

ghost use Rattle.std.specs.Prelude.{◌≡◌, List, ℕ};
ghost use Rattle.sk_checks.specs.Checks.{NoneRefuses};
ghost use Rattle.sk_cuc.specs.Code.{CucView, SpellsCuc, SpellsField, cuc_checks};

/// The bytes of a code are its only ones, bytes are one code at most, and those of a code are not refused.
pub fn codes_are_their_bytes()
    ensures bytes { (a b : List ℕ) (code : CucView) → SpellsCuc a code → SpellsCuc b code → a ≡ b }
    ensures code { (bytes : List ℕ) (a b : CucView) → SpellsCuc bytes a → SpellsCuc bytes b → a ≡ b }
    ensures taken { (bytes : List ℕ) (code : CucView) → SpellsCuc bytes code → NoneRefuses (cuc_checks bytes) }
{}

/// The bytes of a T-field are its only ones, and they are its two numbers alone.
pub fn fields_are_their_bytes()
    ensures bytes { (basic fraction coarse fine : ℕ) (a b : List ℕ) → SpellsField basic fraction a coarse fine → SpellsField basic fraction b coarse fine → a ≡ b }
    ensures numbers { (basic fraction c f d g : ℕ) (bytes : List ℕ) → SpellsField basic fraction bytes c f → SpellsField basic fraction bytes d g → (c ≡ d) × (f ≡ g) }
{}
