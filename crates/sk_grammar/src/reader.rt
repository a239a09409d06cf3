//! A text that comes in pieces.

ghost use Rattle.std.specs.Prelude.{◌≡◌, ◌+◌, ◌^◌, ◌<◌, ◌≤◌, ◌++◌, [], List, ℕ, IfOk, IfErr, OnOk, Ok, Err, count_by};
ghost use Rattle.sk_grammar.specs.Lines.{lines, ended_lines, is_line_feed};
ghost use Rattle.sk_grammar.specs.Document.{DocView};
ghost use Rattle.sk_grammar.specs.Spelling.{Spells};
ghost use Rattle.sk_grammar.specs.Refusal.{BeginKernel, IsRefusal};
ghost use Rattle.sk_grammar.specs.Answers.{IsFaultOf, IsFaultSoFar, AnswersUnlessMemory};
ghost use Rattle.sk_grammar.specs.HasRead.{HasRead, Answers, IsReader, reader_of, ended_count};
ghost use Rattle.sk_grammar.specs.Fold.{document_of};

use crate::document::Doc;
use crate::fault::{GrammarFault, Reason};
use crate::taking::{Taking, begin, end_text, take_piece};
use std::alloc::Global;
use std::marker::Model;
use std::mem;

/// Reads a text that comes in pieces.
#[derive(Drop)]
pub struct Reader {
    alloc: Global,
    taken: Result<Taking, GrammarFault>,
}

impl Model for Reader {
    ghost use Rattle.sk_grammar.specs.HasRead.{ReaderView, reader_of, IsReader};

    ghost Value = { ReaderView };

    ghost view = { λ r. reader_of r.taken };

    ghost invariant = { λ r. IsReader (reader_of r.taken) };
}

/// What has been taken with one more piece.
fn read_piece(
    alloc: Global,
    taken: Result<Taking, GrammarFault>,
    piece: &[u8],
) -> Result<Taking, GrammarFault>
    requires room { ended_count (reader_of taken) + count_by is_line_feed piece.now + 1 < 2 ^ 32 }
    requires reader { IsReader (reader_of taken) }
    ensures reader { IsReader (reader_of result) }
    ensures count { ended_count (reader_of result) ≤ ended_count (reader_of taken) + count_by is_line_feed piece.now }
    ensures read { (bytes : List ℕ) → HasRead (reader_of taken) bytes → HasRead (reader_of result) (bytes ++ piece.now) }
    ensures again { (fault : GrammarFault) → taken ≡ Err fault → result ≡ Err fault }
{
    match taken {
        Ok(taking) => take_piece(alloc, taking, piece),
        Err(fault) => Err(fault),
    }
}

/// The fault at which reading stopped, if it did.
fn stopped(taken: &Result<Taking, GrammarFault>) -> Result<(), GrammarFault>
    ensures { Answers result (reader_of taken.now) }
{
    match taken {
        Ok(_) => Ok(()),
        Err(fault) => Err(*fault),
    }
}

/// The one answer to what has been taken.
fn end_reading(alloc: Global, taken: Result<Taking, GrammarFault>) -> Result<Doc, GrammarFault>
    requires { IsReader (reader_of taken) }
    ensures document { (bytes : List ℕ) → HasRead (reader_of taken) bytes → AnswersUnlessMemory result (document_of (lines bytes)) }
    ensures again { (fault : GrammarFault) → taken ≡ Err fault → result ≡ Err fault }
{
    match taken {
        Ok(taking) => end_text(alloc, taking),
        Err(fault) => Err(fault),
    }
}

impl Reader {
    /// Nothing read.
    pub fn new(alloc: Global) -> Reader
        ensures read { HasRead result [] }
        ensures count { ended_count result ≡ 0 }
    {
        Reader {
            alloc,
            taken: Ok(begin(alloc)),
        }
    }

    /// Takes the next piece.
    pub fn feed(&mut self, piece: &[u8]) -> Result<(), GrammarFault>
        // All pieces have fewer line feeds than a u32 counts lines.
        requires room { ended_count self.old + count_by is_line_feed piece.now + 1 < 2 ^ 32 }
        ensures count { ended_count self.new ≤ ended_count self.old + count_by is_line_feed piece.now }
        // The bytes count, and not how they are cut into pieces.
        ensures read { (bytes : List ℕ) → HasRead self.old bytes → HasRead self.new (bytes ++ piece.now) }
        // Without a fault the lines that have ended begin a kernel text, and a fault is that of the lines that have ended.
        ensures begun { (bytes : List ℕ) → HasRead self.old bytes → OnOk result (BeginKernel (ended_lines (bytes ++ piece.now))) }
        ensures fault { (bytes : List ℕ) → HasRead self.old bytes → IfErr result (IsFaultSoFar (bytes ++ piece.now)) }
        // A fault stays.
        ensures answer { Answers result self.new }
        ensures again { (fault : GrammarFault) → self.old ≡ Err fault → (result ≡ Err fault) × (self.new ≡ Err fault) }
    {
        let taken = mem::replace(&mut self.taken, Err(GrammarFault::NoMemory));
        self.taken = read_piece(self.alloc, taken, piece);
        stopped(&self.taken)
    }

    /// The document of all pieces, joined.
    pub fn finish(self) -> Result<Doc, GrammarFault>
        ensures spelled { (bytes : List ℕ) → HasRead self bytes → IfOk result (λ doc. Spells bytes doc) }
        ensures read { (bytes : List ℕ) (doc : DocView) → HasRead self bytes → Spells bytes doc → AnswersUnlessMemory result (Ok doc) }
        ensures fault { (bytes : List ℕ) → HasRead self bytes → IfErr result (IsFaultOf bytes) }
        ensures refused { (bytes : List ℕ) (line : ℕ) (reason : Reason) → HasRead self bytes → IsRefusal (lines bytes) line reason → AnswersUnlessMemory result (Err (GrammarFault.At line reason)) }
        ensures again { (fault : GrammarFault) → self ≡ Err fault → result ≡ Err fault }
    {
        let Reader { alloc, taken } = self;
        end_reading(alloc, taken)
    }
}
