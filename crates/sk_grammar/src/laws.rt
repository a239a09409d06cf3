//! Laws of the grammar.

ghost use Rattle.std.specs.Prelude.{◌≡◌, ◌⊎◌, ◌++◌, List, ℕ, IsFalse};
ghost use Rattle.std.specs.List.{join_with_byte, list_any};
ghost use Rattle.sk_grammar.specs.Lines.{is_line_feed, lines};
ghost use Rattle.sk_grammar.specs.Document.{DocView, ItemView, IsDoc, IsItem};
ghost use Rattle.sk_grammar.specs.Canonical.{canonical_text, item_lines};
ghost use Rattle.sk_grammar.specs.Spelling.{Spells, SpellsItem, is_gap_byte};
ghost use Rattle.sk_grammar.specs.Refusal.{Due, LeavesDue, IsMisplaced, IsRefusal, begins};

use crate::fault::Reason;

/// No bytes spell two items.
pub fn one_item()
    ensures { (a b : ItemView) (bytes : List ℕ) → SpellsItem bytes a → SpellsItem bytes b → a ≡ b }
{}

/// A text that is an item so far, and a rest of its last line whose first token is not due, have one reason, however they are taken apart.
pub fn one_reason()
    ensures { (text rest text' rest' : List ℕ) (due due' : Due) (reason reason' : Reason) → text ++ rest ≡ text' ++ rest'
        → IsFalse (list_any is_line_feed rest) → LeavesDue text rest due → IsMisplaced due rest reason → IsFalse (begins is_gap_byte rest)
        → IsFalse (list_any is_line_feed rest') → LeavesDue text' rest' due' → IsMisplaced due' rest' reason' → IsFalse (begins is_gap_byte rest')
        → reason ≡ reason' }
{}

/// The canonical lines of a valid item spell it.
pub fn item_lines_spell()
    ensures { (item : ItemView) → IsItem item → SpellsItem (join_with_byte 10 (item_lines item)) item }
{}

/// No bytes spell two documents.
pub fn one_document()
    ensures { (a b : DocView) (bytes : List ℕ) → Spells bytes a → Spells bytes b → a ≡ b }
{}

/// Lines have one refusal.
pub fn one_refusal()
    ensures { (ls : List (List ℕ)) (m n : ℕ) (r s : Reason) → IsRefusal ls m r → IsRefusal ls n s → (m ≡ n) × (r ≡ s) }
{}

/// What spells a document is not refused.
pub fn never_both()
    ensures { (bytes : List ℕ) (doc : DocView) (n : ℕ) (r : Reason) → Spells bytes doc → IsRefusal (lines bytes) n r → ⊥ }
{}

/// Bytes spell a document, or they are refused.
pub fn always_one()
    ensures { (bytes : List ℕ) → ((doc : DocView) × Spells bytes doc) ⊎ ((n : ℕ) × (r : Reason) × IsRefusal (lines bytes) n r) }
{}

/// The canonical text of a valid document spells it.
pub fn canonical_text_spells()
    ensures { (doc : DocView) → IsDoc doc → Spells (canonical_text doc) doc }
{}
