//! A text taken in pieces.

ghost use Rattle.std.specs.Prelude.{◌≡◌, ◌+◌, ◌^◌, ◌<◌, ◌++◌, [], ◌∷◌, false, IfOk, MatchOption, count_by};
ghost use Rattle.std.specs.List.{list_any};
ghost use Rattle.memchr.specs.Find.{IsFirstByte};
ghost use Rattle.sk_grammar.specs.Lines.{is_line_feed, is_carriage_return, without_trailing};
ghost use Rattle.sk_grammar.specs.Taken.{taken_of, EndsLine, TakesPiece, EndsText, IsSplitAtFeed, HasComeTo};
ghost use Rattle.sk_grammar.specs.Texts.{TakesTexts, IsRun};
ghost use Rattle.sk_grammar.specs.HasTaken.{HasTaken};
ghost use Rattle.sk_grammar.specs.Valid.{IsReached, IsReachedState};

use crate::data_lines::take_data_front;
use crate::document::Doc;
use crate::ending::end_state;
use crate::fault::GrammarFault;
use crate::lines::{ends_with_return, stays};
use crate::state::State;
use crate::take::take_line;
use crate::text::Lines;
use memchr::memchr;
use std::alloc::{AllocError, Global};

/// The document so far, how many lines have ended, and what follows the last line feed.
#[derive(Drop)]
pub struct Taking {
    pub state: State,
    pub count: u32,
    pub line: Vec<u8>,
}

/// Nothing taken.
pub fn begin(alloc: Global) -> Taking
    ensures taken { HasTaken (taken_of result) [] }
    ensures count { result.count ≡ 0 }
{
    Taking {
        state: State::InHead(Lines::new(alloc)),
        count: 0,
        line: Vec::new(alloc),
    }
}

/// The line without the carriage returns at its end.
pub fn without_returns(line: &[u8]) -> &[u8]
    ensures { result.now ≡ without_trailing is_carriage_return line.now }
{
    let mut end = line.len();
    while end > 0 && line[end - 1] == b'\r' {
        end -= 1;
    }
    &line[..end]
}

/// Takes the line that a line feed ends.
fn take_ended(alloc: Global, state: State, count: u32, line: &[u8]) -> Result<Taking, GrammarFault>
    requires room { count + 1 < 2 ^ 32 }
    requires reached { IsReachedState state }
    requires one_line { list_any is_line_feed line.now ≡ false }
    ensures { EndsLine result state count line.now }
{
    match take_line(alloc, state, without_returns(line)) {
        Err(stop) => Err(stop.at(count + 1)),
        Ok(state) => Ok(Taking {
            state,
            count: count + 1,
            line: Vec::new(alloc),
        }),
    }
}

/// Takes the line whose bytes were kept.
fn take_kept(alloc: Global, state: State, count: u32, line: Vec<u8>) -> Result<Taking, GrammarFault>
    requires room { count + 1 < 2 ^ 32 }
    requires reached { IsReachedState state }
    requires one_line { list_any is_line_feed line.items ≡ false }
    ensures { EndsLine result state count line.items }
{
    take_ended(alloc, state, count, line.as_slice())
}

/// Takes the rest of a line and its line feed.
fn take_to_feed(alloc: Global, taking: Taking, rest: &[u8]) -> Result<Taking, GrammarFault>
    requires room { taking.count + 1 < 2 ^ 32 }
    requires reached { IsReached (taken_of taking) }
    requires one_line { list_any is_line_feed rest.now ≡ false }
    ensures piece { TakesPiece result taking (rest.now ++ 10 ∷ []) }
    ensures count { IfOk result (λ next. next.count ≡ taking.count + 1) }
{
    let Taking {
        state,
        count,
        mut line,
    } = taking;
    // A line that lies whole in its piece is not copied.
    if line.is_empty() {
        return take_ended(alloc, state, count, rest);
    }
    match line.extend_from_slice(rest) {
        Err(_) => Err(GrammarFault::NoMemory),
        Ok(()) => take_kept(alloc, state, count, line),
    }
}

/// Keeps the bytes of a line that has not ended.
fn keep(taking: Taking, bytes: &[u8]) -> Result<Taking, GrammarFault>
    requires one_line { list_any is_line_feed bytes.now ≡ false }
    ensures piece { TakesPiece result taking bytes.now }
    ensures count { IfOk result (λ next. next.count ≡ taking.count) }
{
    let Taking {
        state,
        count,
        mut line,
    } = taking;
    match line.extend_from_slice(bytes) {
        Err(_) => Err(GrammarFault::NoMemory),
        Ok(()) => Ok(Taking { state, count, line }),
    }
}

/// How many bytes are looked at one by one for a line feed, before the search that is made for long lines.
const NEAR: usize = 8;

/// The place of the first line feed, by the search that is made for long lines.
// It stays a call, since the loops over short lines are to stay small.
#[inline(never)]
fn find_far_feed(bytes: &[u8]) -> Option<usize>
    ensures { IsFirstByte is_line_feed bytes.now result }
{
    memchr(b'\n', bytes)
}

/// The place of the first line feed.
#[inline(always)]
fn find_feed(bytes: &[u8]) -> Option<usize>
    ensures { IsFirstByte is_line_feed bytes.now result }
{
    let near = NEAR.min(bytes.len());
    for at in 0..near {
        if bytes[at] == b'\n' {
            return Some(at);
        }
    }
    match find_far_feed(&bytes[near..]) {
        None => None,
        Some(at) => Some(near + at),
    }
}

/// The line in front, and what stands behind its line feed, if one stands there.
#[inline(always)]
pub fn split_line(bytes: &[u8]) -> Option<(&[u8], &[u8])>
    ensures { MatchOption result (list_any is_line_feed bytes.now ≡ false) (λ parts. IsSplitAtFeed bytes.now parts.0.now parts.1.now) }
{
    match find_feed(bytes) {
        None => None,
        Some(at) => Some((&bytes[..at], &bytes[at + 1..])),
    }
}

/// Lines in front of a piece that stay byte for byte in text mode, how many lines have ended behind them, and what is
/// left of the piece.
struct Run<'a> {
    front: &'a [u8],
    count: u32,
    rest: &'a [u8],
}

/// The lines in front that stay byte for byte in text mode.
fn run_of_lines(piece: &[u8], count: u32) -> Run<'_>
    requires room { count + count_by is_line_feed piece.now + 1 < 2 ^ 32 }
    ensures { IsRun piece.now result.front.now result.rest.now count result.count }
{
    let mut count = count;
    let mut rest = piece;
    while let Some((line, behind)) = split_line(rest) {
        if ends_with_return(line) || !stays(line) {
            break;
        }
        count += 1;
        rest = behind;
    }
    let (front, _) = piece.split_at(piece.len() - rest.len());
    Run { front, count, rest }
}

/// Text lines taken in turn, how many lines have ended, and what stands behind them.
#[derive(Drop)]
struct Texts<'a> {
    lines: Lines,
    count: u32,
    rest: &'a [u8],
}

/// Takes the lines in front that stay byte for byte in text mode.
fn take_run<'a>(lines: Lines, count: u32, piece: &'a [u8]) -> Result<Texts<'a>, AllocError>
    requires room { count + count_by is_line_feed piece.now + 1 < 2 ^ 32 }
    ensures { IfOk result (λ texts. TakesTexts piece.now texts.rest.now lines texts.lines count texts.count) }
{
    let Run { front, count, rest } = run_of_lines(piece, count);
    let lines = lines.with_text(front)?;
    Ok(Texts { lines, count, rest })
}

/// Takes the lines in front that stay in text mode, byte for byte or without their carriage returns.
fn take_texts<'a>(lines: Lines, count: u32, piece: &'a [u8]) -> Result<Texts<'a>, AllocError>
    requires room { count + count_by is_line_feed piece.now + 1 < 2 ^ 32 }
    ensures { IfOk result (λ texts. TakesTexts piece.now texts.rest.now lines texts.lines count texts.count) }
{
    let mut texts = take_run(lines, count, piece)?;
    while let Some((line, behind)) = split_line(texts.rest) {
        let whole = without_returns(line);
        if whole.len() == line.len() || !stays(whole) {
            return Ok(texts);
        }
        let Texts { lines, count, .. } = texts;
        let lines = lines.with_line(whole)?;
        texts = take_run(lines, count + 1, behind)?;
    }
    Ok(texts)
}

/// Whether a line is taken in text mode.
fn is_in_text(state: &State) -> bool {
    match state {
        State::InData(_, _, _, _) => false,
        _ => true,
    }
}

/// Takes the lines in front that stay as they are, where text mode is on and no bytes were kept.
fn take_front<'a>(taking: Taking, piece: &'a [u8]) -> Result<(Taking, &'a [u8]), AllocError>
    requires room { taking.count + count_by is_line_feed piece.now + 1 < 2 ^ 32 }
    ensures { IfOk result (λ next. HasComeTo piece.now next.1.now taking next.0) }
{
    let Taking { state, count, line } = taking;
    if !line.is_empty() {
        return Ok((Taking { state, count, line }, piece));
    }
    match state {
        State::InHead(texts) => match take_texts(texts, count, piece) {
            Err(refused) => Err(refused),
            Ok(taken) => {
                let state = State::InHead(taken.lines);
                let count = taken.count;
                Ok((Taking { state, count, line }, taken.rest))
            }
        },
        State::InText(head, blocks, items, texts) => match take_texts(texts, count, piece) {
            Err(refused) => Err(refused),
            Ok(taken) => {
                let state = State::InText(head, blocks, items, taken.lines);
                let count = taken.count;
                Ok((Taking { state, count, line }, taken.rest))
            }
        },
        state => Ok((Taking { state, count, line }, piece)),
    }
}

/// Takes the bytes of a piece.
pub fn take_piece(alloc: Global, taking: Taking, piece: &[u8]) -> Result<Taking, GrammarFault>
    requires room { taking.count + count_by is_line_feed piece.now + 1 < 2 ^ 32 }
    requires reached { IsReached (taken_of taking) }
    ensures piece { TakesPiece result taking piece.now }
    ensures count { IfOk result (λ next. next.count ≡ taking.count + count_by is_line_feed piece.now) }
{
    let mut taking = taking;
    let mut rest = piece;
    while let Some((line, behind)) = split_line(rest) {
        taking = match take_to_feed(alloc, taking, line) {
            Ok(next) => next,
            Err(fault) => return Err(fault),
        };
        rest = behind;
        if is_in_text(&taking.state) {
            match take_front(taking, rest) {
                Err(_) => return Err(GrammarFault::NoMemory),
                Ok(next) => {
                    taking = next.0;
                    rest = next.1;
                }
            }
        } else {
            match take_data_front(alloc, taking, rest) {
                Err(fault) => return Err(fault),
                Ok(next) => {
                    taking = next.0;
                    rest = next.1;
                }
            }
        }
    }
    keep(taking, rest)
}

/// The document, where the text ends here.
pub fn end_text(alloc: Global, taking: Taking) -> Result<Doc, GrammarFault>
    requires room { taking.count + 1 < 2 ^ 32 }
    requires reached { IsReached (taken_of taking) }
    ensures { EndsText result taking }
{
    let Taking { state, count, line } = taking;
    if line.is_empty() {
        return end_state(alloc, state, count);
    }
    match take_kept(alloc, state, count, line) {
        Err(fault) => Err(fault),
        Ok(last) => end_state(alloc, last.state, last.count),
    }
}
