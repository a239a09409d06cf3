//! A line, behind what has been read.

ghost use Rattle.std.specs.Prelude.{◌≡◌, ◌++◌, [], ◌∷◌, All, Ok, false};
ghost use Rattle.sk_grammar.specs.declared.state.State.TheVariants.{InHead as AtHead, InData as AtData, InText as AtText};
ghost use Rattle.sk_grammar.specs.declared.place.Place.TheVariants.{Idle as AtIdle};
ghost use Rattle.sk_grammar.specs.Document.{IsItem, IsTextLine};
ghost use Rattle.std.specs.List.{list_any};
ghost use Rattle.sk_grammar.specs.Lines.{is_line_feed, begins_data as begins_data_line, begins_text as begins_text_line};
ghost use Rattle.sk_grammar.specs.Fold.{take_line as taken_line, unless_open as open_answer};
ghost use Rattle.sk_grammar.specs.Stopping.{Gives};
ghost use Rattle.sk_grammar.specs.Valid.{IsReachedState};

use crate::data_lines::take_tokens;
use crate::document::Block;
use crate::fault::Reason;
use crate::items::Items;
use crate::lines::{begins_data, begins_text};
use crate::list::List;
use crate::place::Place;
use crate::state::State;
use crate::stop::Stop;
use crate::text::Lines;
use std::alloc::Global;

/// A line in text mode, before the first block.
fn take_head(alloc: Global, texts: Lines, line: &[u8]) -> Result<State, Stop>
    requires one_line { list_any is_line_feed line.now ≡ false }
    ensures { Gives result (taken_line (AtHead texts) line.now) }
{
    if begins_data(line) {
        return Ok(State::InData(
            texts,
            List::from_vec(Vec::new(alloc)),
            Items::new(alloc),
            Place::Idle,
        ));
    }
    if begins_text(line) {
        return Ok(State::InHead(texts));
    }
    if line.len() > 4096 {
        return Err(Stop::Refused(Reason::TextLineTooLong));
    }
    match texts.with_line(line) {
        Err(_) => Err(Stop::OutOfMemory),
        Ok(texts) => Ok(State::InHead(texts)),
    }
}

/// The next block begins, behind a whole one.
fn next_block(
    alloc: Global,
    head: Lines,
    blocks: List<Block>,
    items: Items,
    texts: Lines,
) -> Result<State, Stop>
    requires items { All IsItem items }
    requires texts { All IsTextLine texts }
    ensures { Gives result (Ok (AtData head (blocks ++ record { items = items; text = texts } ∷ []) [] AtIdle)) }
{
    let mut blocks = blocks;
    match blocks.push(Block { items, text: texts }) {
        Err(_) => Err(Stop::OutOfMemory),
        Ok(()) => Ok(State::InData(head, blocks, Items::new(alloc), Place::Idle)),
    }
}

/// A line in text mode, in the last block.
fn take_text(
    alloc: Global,
    head: Lines,
    blocks: List<Block>,
    items: Items,
    texts: Lines,
    line: &[u8],
) -> Result<State, Stop>
    requires items { All IsItem items }
    requires texts { All IsTextLine texts }
    requires one_line { list_any is_line_feed line.now ≡ false }
    ensures { Gives result (taken_line (AtText head blocks items texts) line.now) }
{
    if begins_data(line) {
        return next_block(alloc, head, blocks, items, texts);
    }
    if begins_text(line) {
        return Ok(State::InText(head, blocks, items, texts));
    }
    if line.len() > 4096 {
        return Err(Stop::Refused(Reason::TextLineTooLong));
    }
    match texts.with_line(line) {
        Err(_) => Err(Stop::OutOfMemory),
        Ok(texts) => Ok(State::InText(head, blocks, items, texts)),
    }
}

/// A marker may stand only where no item is open.
fn at_marker(place: Place, next: State) -> Result<State, Stop>
    ensures { Gives result (open_answer place next) }
{
    match place {
        Place::Idle => Ok(next),
        _ => Err(Stop::Refused(Reason::Unfinished)),
    }
}

/// A line in data mode.
fn take_data(
    alloc: Global,
    head: Lines,
    blocks: List<Block>,
    items: Items,
    place: Place,
    line: &[u8],
) -> Result<State, Stop>
    requires reached { IsReachedState (AtData head blocks items place) }
    ensures { Gives result (taken_line (AtData head blocks items place) line.now) }
{
    if begins_data(line) {
        return at_marker(place, State::InData(head, blocks, items, Place::Idle));
    }
    if begins_text(line) {
        return at_marker(place, State::InText(head, blocks, items, Lines::new(alloc)));
    }
    let mut items = items;
    match take_tokens(alloc, &mut items, place, line) {
        Err(stop) => Err(stop),
        Ok(place) => Ok(State::InData(head, blocks, items, place)),
    }
}

/// The line, behind what has been read.
pub fn take_line(alloc: Global, state: State, line: &[u8]) -> Result<State, Stop>
    requires reached { IsReachedState state }
    requires one_line { list_any is_line_feed line.now ≡ false }
    ensures { Gives result (taken_line state line.now) }
{
    match state {
        State::InHead(texts) => take_head(alloc, texts, line),
        State::InData(head, blocks, items, place) => take_data(
            alloc, head, blocks, items, place, line,
        ),
        State::InText(head, blocks, items, texts) => take_text(
            alloc, head, blocks, items, texts, line,
        ),
    }
}
