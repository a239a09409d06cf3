//! Text lines.

ghost use Rattle.std.specs.Prelude.{◌≡◌, ◌++◌, [], ◌∷◌, false, IfOk};
ghost use Rattle.std.specs.List.{list_any};
ghost use Rattle.sk_grammar.specs.Lines.{is_line_feed, held_lines, IsEnded};
ghost use Rattle.sk_grammar.specs.Canonical.{ended_by_line_feeds};

use std::alloc::{AllocError, Global};
use std::marker::Model;

/// Lines that contracts see as their list. Each is held with a line feed behind it, in one text for all, so that a
/// short line takes no more than its bytes and all lines are written as they stand.
#[derive(Debug, Drop)]
pub struct Lines {
    text: Vec<u8>,
}

impl Model for Lines {
    ghost use Rattle.std.specs.Prelude.{List, ℕ};
    ghost use Rattle.sk_grammar.specs.Lines.{held_lines, IsEnded};

    ghost Value = { List (List ℕ) };

    ghost view = { λ l. held_lines l.text.items };

    ghost invariant = { λ l. IsEnded l.text.items };
}

impl Lines {
    /// No lines, which take no memory.
    pub fn new(alloc: Global) -> Lines
        ensures { result ≡ [] }
    {
        Lines {
            text: Vec::new(alloc),
        }
    }

    /// The lines, and one more behind them, which has no line feed.
    pub fn with_line(self, line: &[u8]) -> Result<Lines, AllocError>
        requires one_line { list_any is_line_feed line.now ≡ false }
        ensures { IfOk result (λ more. more ≡ self ++ line.now ∷ []) }
    {
        let Lines { mut text } = self;
        text.extend_from_slice(line)?;
        text.push(b'\n')?;
        Ok(Lines { text })
    }

    /// The lines, and behind them those of a text that ends with a line feed, or of none.
    pub(crate) fn with_text(self, more: &[u8]) -> Result<Lines, AllocError>
        requires ended { IsEnded more.now }
        ensures { IfOk result (λ lines. lines ≡ self ++ held_lines more.now) }
    {
        let Lines { mut text } = self;
        text.extend_from_slice(more)?;
        Ok(Lines { text })
    }

    /// The lines, each with a line feed behind it.
    pub fn as_text(&self) -> &[u8]
        ensures { result.now ≡ ended_by_line_feeds self.now }
    {
        self.text.as_slice()
    }
    /// The lines, each with a line feed behind it, as the text that held them.
    pub fn into_text(self) -> Vec<u8>
        ensures { result.items ≡ ended_by_line_feeds self }
    {
        let Lines { text } = self;
        text
    }
}
