//! Data lines, taken in turn: the head and the blocks before them stay where they are.

ghost use Rattle.std.specs.Prelude.{◌≡◌, ◌+◌, ◌++◌, [], ◌∷◌, ◌^◌, ◌<◌, List as Sequence, ℕ, Ok, Err, IfOk, IfErr, OnOk, OnErr, false, count_by};
ghost use Rattle.sk_grammar.specs.declared.state.State.TheVariants.{InData as AtData};
ghost use Rattle.sk_grammar.specs.DataLines.{AreReached, AreReachedAt, GivesPlace, TakesDataLines, RefusesDataLines};
ghost use Rattle.sk_grammar.specs.Document.{BlockView, IsItem};
ghost use Rattle.sk_grammar.specs.Fold.{take_line as taken_line, end_data};
ghost use Rattle.sk_grammar.specs.Lines.{is_line_feed, begins_data as begins_data_line, begins_text as begins_text_line};
ghost use Rattle.sk_grammar.specs.Taken.{taken_of, TakesPiece, HasComeTo};
ghost use Rattle.sk_grammar.specs.Valid.{IsClosedItem, IsReached};

use crate::fault::{GrammarFault, Reason};
use crate::items::Items;
use crate::lines::{begins_data, begins_text, has_bad_byte, without_white};
use crate::place::Place;
use crate::reading::read_line;
use crate::state::State;
use crate::stop::Stop;
use crate::taking::{Taking, split_line, without_returns};
use crate::value::Op;
use crate::values::Values;
use std::alloc::{AllocError, Global};
use std::mem;

/// Puts the item last.
fn add_item(
    alloc: Global,
    items: &mut Items,
    name: &[u8],
    op: Op,
    values: &Values,
) -> Result<(), AllocError>
    requires { IsItem (record { name = name.now; op = op; values = values.now }) }
    ensures { OnOk result (items.new ≡ items.old ++ record { name = name.now; op = op; values = values.now } ∷ []) }
{
    let held = mem::replace(items, Items::new(alloc));
    *items = held.with_values(name, op, values)?;
    Ok(())
}

/// The end of a data line: an item that is closed joins the others.
fn end_line(alloc: Global, items: &mut Items, place: Place) -> Result<Place, Stop>
    requires { IsClosedItem place }
    ensures { (head : Sequence (Sequence ℕ)) (blocks : Sequence BlockView) → GivesPlace result head blocks items.new (end_data head blocks items.old place) }
{
    match place {
        Place::Named(_) => Err(Stop::Refused(Reason::NoAssign)),
        Place::Closed(name, op, values) => match add_item(
            alloc,
            items,
            name.as_slice(),
            op,
            &values,
        ) {
            Err(_) => Err(Stop::OutOfMemory),
            Ok(()) => Ok(Place::Idle),
        },
        open => Ok(open),
    }
}

/// A data line that is no marker, and the place behind it.
pub fn take_tokens(
    alloc: Global,
    items: &mut Items,
    place: Place,
    line: &[u8],
) -> Result<Place, Stop>
    requires reached { AreReached items.old place }
    requires no_data { begins_data_line line.now ≡ false }
    requires no_text { begins_text_line line.now ≡ false }
    ensures { (head : Sequence (Sequence ℕ)) (blocks : Sequence BlockView) → GivesPlace result head blocks items.new (taken_line (AtData head blocks items.old place) line.now) }
{
    if without_white(line).len() > 132 {
        return Err(Stop::Refused(Reason::DataLineTooLong));
    }
    if has_bad_byte(line) {
        return Err(Stop::Refused(Reason::BadByte));
    }
    match read_line(alloc, place, line) {
        Err(stop) => Err(stop),
        Ok(place) => end_line(alloc, items, place),
    }
}

/// Data lines taken in turn, how many lines have ended, and what stands behind them.
#[derive(Drop)]
struct DataLines<'a> {
    items: Items,
    place: Place,
    count: u32,
    rest: &'a [u8],
}

/// Takes the lines in front of a marker, in data mode.
fn take_lines<'a>(
    alloc: Global,
    items: Items,
    place: Place,
    count: u32,
    piece: &'a [u8],
) -> Result<DataLines<'a>, GrammarFault>
    requires room { count + count_by is_line_feed piece.now + 1 < 2 ^ 32 }
    requires reached { AreReachedAt items place count }
    ensures taken { IfOk result (λ taken. TakesDataLines piece.now taken.rest.now items taken.items place taken.place count taken.count) }
    ensures refused { IfErr result (λ fault. RefusesDataLines fault piece.now items place count) }
{
    let mut items = items;
    let mut place = place;
    let mut count = count;
    let mut rest = piece;
    while let Some((line, behind)) = split_line(rest) {
        let whole = without_returns(line);
        if begins_data(whole) || begins_text(whole) {
            return Ok(DataLines {
                items,
                place,
                count,
                rest,
            });
        }
        match take_tokens(alloc, &mut items, place, whole) {
            Err(stop) => return Err(stop.at(count + 1)),
            Ok(next) => place = next,
        }
        count += 1;
        rest = behind;
    }
    Ok(DataLines {
        items,
        place,
        count,
        rest,
    })
}

/// Takes the lines in front of a marker, where data mode is on and no bytes were kept.
pub fn take_data_front<'a>(
    alloc: Global,
    taking: Taking,
    piece: &'a [u8],
) -> Result<(Taking, &'a [u8]), GrammarFault>
    requires room { taking.count + count_by is_line_feed piece.now + 1 < 2 ^ 32 }
    requires reached { IsReached (taken_of taking) }
    ensures come { IfOk result (λ next. HasComeTo piece.now next.1.now taking next.0) }
    ensures refused { IfErr result (λ fault. TakesPiece (Err fault) taking piece.now) }
{
    let Taking { state, count, line } = taking;
    if !line.is_empty() {
        return Ok((Taking { state, count, line }, piece));
    }
    match state {
        State::InData(head, blocks, items, place) => match take_lines(
            alloc, items, place, count, piece,
        ) {
            Err(fault) => Err(fault),
            Ok(taken) => {
                let state = State::InData(head, blocks, taken.items, taken.place);
                let count = taken.count;
                Ok((Taking { state, count, line }, taken.rest))
            }
        },
        state => Ok((Taking { state, count, line }, piece)),
    }
}
