//! What the definitions of codes come to, for callers.

ghost use Rattle.std.specs.Prelude.{◌≡◌, List, ℕ};
ghost use Rattle.sk_checks.specs.Checks.{NoneRefuses};
ghost use Rattle.sk_cds.specs.Code.{CdsView, SpellsCds, SpellsField, field_checks, cds_checks};

/// The bytes of a code are its only ones, bytes are one code at most, and those of a code are not refused.
pub fn codes_are_their_bytes()
    ensures bytes { (a b : List ℕ) (code : CdsView) → SpellsCds a code → SpellsCds b code → a ≡ b }
    ensures code { (bytes : List ℕ) (a b : CdsView) → SpellsCds bytes a → SpellsCds bytes b → a ≡ b }
    ensures taken { (bytes : List ℕ) (code : CdsView) → SpellsCds bytes code → NoneRefuses (cds_checks bytes) }
{}

/// The bytes of a T-field are its only ones, they are its three numbers alone, and they are not refused.
pub fn fields_are_their_bytes()
    ensures bytes { (width depth day ms sub : ℕ) (a b : List ℕ) → SpellsField width depth a day ms sub → SpellsField width depth b day ms sub → a ≡ b }
    ensures numbers { (width depth d m s e n t : ℕ) (bytes : List ℕ) → SpellsField width depth bytes d m s → SpellsField width depth bytes e n t → (d ≡ e) × (m ≡ n) × (s ≡ t) }
    ensures taken { (width depth day ms sub : ℕ) (bytes : List ℕ) → SpellsField width depth bytes day ms sub → NoneRefuses (field_checks width depth bytes) }
{}
