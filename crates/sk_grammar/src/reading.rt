//! The tokens of a data line.

ghost use Rattle.std.specs.Prelude.{◌≡◌, ◌<◌, ◌≤◌, [], ◌∷◌, List, ℕ, length, true, false, IfOk, Ok};
ghost use Rattle.std.specs.List.{list_any};
ghost use Rattle.sk_decimal.specs.Reading.{number_of};
ghost use Rattle.sk_grammar.specs.HeldValues.{IsHeldValue};
ghost use Rattle.sk_grammar.specs.Lines.{is_line_feed, is_white as is_white_byte};
ghost use Rattle.sk_grammar.specs.Reading.{read_from, step as stepped, added, single_at, further_at};
ghost use Rattle.sk_grammar.specs.Stopping.{Gives, GivesValues, GivesPlaceAt, ReadsOn, ReadsFront};
ghost use Rattle.sk_grammar.specs.declared.value.Value.{Value as ValueView};
ghost use Rattle.sk_grammar.specs.declared.place.Place.TheVariants.{Idle as AtIdle, Named as AtNamed, Signed as AtSigned, Opened as AtOpened, Comma as AtComma, Valued as AtValued, Closed as AtClosed};

use crate::bytes::Bytes;
use crate::fault::Reason;
use crate::place::Place;
use crate::stop::Stop;
use crate::tokens::{name, value_at};
use crate::value::{Op, Value};
use crate::values::Values;
use std::alloc::Global;

/// Whether the byte is white space.
fn is_white(byte: u8) -> bool
    ensures { result ≡ is_white_byte byte }
{
    byte == b' ' || byte == b'\t'
}

/// The sign behind a name.
fn step_named(name: Bytes, bytes: &[u8]) -> Result<(Place, usize), Stop>
    ensures { Gives result (stepped number_of (AtNamed name) bytes.now) }
{
    match bytes {
        [b'=', ..] => Ok((Place::Signed(name, Op::Set), 1)),
        [b'+', b'=', ..] => Ok((Place::Signed(name, Op::Append), 2)),
        _ => Err(Stop::Refused(Reason::NoAssign)),
    }
}

/// The name at the front of the bytes.
fn step_idle(alloc: Global, bytes: &[u8]) -> Result<(Place, usize), Stop>
    ensures { Gives result (stepped number_of AtIdle bytes.now) }
{
    let name = name(bytes);
    if name.len() == 0 || name.len() > 32 {
        return Err(Stop::Refused(Reason::BadName));
    }
    match Bytes::copied(alloc, name) {
        Err(_) => Err(Stop::OutOfMemory),
        Ok(held) => Ok((Place::Named(held), name.len())),
    }
}

/// An item of one value, which is closed by it.
fn closed_by(
    alloc: Global,
    name: Bytes,
    op: Op,
    value: &Value,
    size: usize,
) -> Result<(Place, usize), Stop>
    requires { IsHeldValue value.now }
    ensures { Gives result (Ok (AtClosed name op (value.now ∷ []), size)) }
{
    match Values::of_one(alloc, value) {
        Err(_) => Err(Stop::OutOfMemory),
        Ok(values) => Ok((Place::Closed(name, op, values), size)),
    }
}

/// The one value of an item.
fn single_value(alloc: Global, name: Bytes, op: Op, bytes: &[u8]) -> Result<(Place, usize), Stop>
    ensures { Gives result (single_at number_of name op bytes.now) }
{
    match value_at(alloc, bytes) {
        Err(stop) => Err(stop),
        Ok(value) => closed_by(alloc, name, op, &value.0, value.1),
    }
}

/// The token behind a sign.
fn step_signed(alloc: Global, name: Bytes, op: Op, bytes: &[u8]) -> Result<(Place, usize), Stop>
    ensures { Gives result (stepped number_of (AtSigned name op) bytes.now) }
{
    match bytes {
        [b'(', ..] => Ok((Place::Opened(name, op), 1)),
        [b',', ..] => Err(Stop::Refused(Reason::BadComma)),
        [b')', ..] => Err(Stop::Refused(Reason::BadNumber)),
        _ => single_value(alloc, name, op, bytes),
    }
}

/// Puts the value behind those of a vector, which are of its kind.
fn add(values: &mut Values, value: &Value) -> Result<(), Stop>
    requires { IsHeldValue value.now }
    ensures { GivesValues result values.new (added number_of values.old value.now) }
{
    if !values.are_as(value) {
        return Err(Stop::Refused(Reason::MixedKinds));
    }
    match values.push(value) {
        Err(_) => Err(Stop::OutOfMemory),
        Ok(()) => Ok(()),
    }
}

/// Puts the value at the front of the bytes behind those of a vector, and answers how many bytes it takes.
fn add_value(alloc: Global, values: &mut Values, bytes: &[u8]) -> Result<usize, Stop>
    ensures { (name : List ℕ) (op : Op) → GivesPlaceAt result (AtValued name op values.new) (further_at number_of name op values.old bytes.now) }
{
    match value_at(alloc, bytes) {
        Err(stop) => Err(stop),
        Ok(value) => match add(values, &value.0) {
            Err(stop) => Err(stop),
            Ok(()) => Ok(value.1),
        },
    }
}

/// A further value of a vector.
fn further(
    alloc: Global,
    name: Bytes,
    op: Op,
    values: Values,
    bytes: &[u8],
) -> Result<(Place, usize), Stop>
    ensures { Gives result (further_at number_of name op values bytes.now) }
{
    let mut values = values;
    match add_value(alloc, &mut values, bytes) {
        Err(stop) => Err(stop),
        Ok(size) => Ok((Place::Valued(name, op, values), size)),
    }
}

/// The token behind `(`.
fn step_opened(alloc: Global, name: Bytes, op: Op, bytes: &[u8]) -> Result<(Place, usize), Stop>
    ensures { Gives result (stepped number_of (AtOpened name op) bytes.now) }
{
    match bytes {
        [b'(', ..] => Err(Stop::Refused(Reason::BadNumber)),
        [b',', ..] => Err(Stop::Refused(Reason::BadComma)),
        [b')', ..] => Err(Stop::Refused(Reason::EmptyVector)),
        _ => further(alloc, name, op, Values::new(alloc), bytes),
    }
}

/// The token behind a comma.
fn step_comma(
    alloc: Global,
    name: Bytes,
    op: Op,
    values: Values,
    bytes: &[u8],
) -> Result<(Place, usize), Stop>
    ensures { Gives result (stepped number_of (AtComma name op values) bytes.now) }
{
    match bytes {
        [b'(', ..] => Err(Stop::Refused(Reason::BadNumber)),
        [b',', ..] => Err(Stop::Refused(Reason::BadComma)),
        [b')', ..] => Err(Stop::Refused(Reason::BadComma)),
        _ => further(alloc, name, op, values, bytes),
    }
}

/// The token behind a value of a vector.
fn step_valued(
    alloc: Global,
    name: Bytes,
    op: Op,
    values: Values,
    bytes: &[u8],
) -> Result<(Place, usize), Stop>
    ensures { Gives result (stepped number_of (AtValued name op values) bytes.now) }
{
    match bytes {
        [b'(', ..] => Err(Stop::Refused(Reason::BadNumber)),
        [b',', ..] => Ok((Place::Comma(name, op, values), 1)),
        [b')', ..] => Ok((Place::Closed(name, op, values), 1)),
        _ => further(alloc, name, op, values, bytes),
    }
}

/// The token at the front of the bytes.
fn token_at(alloc: Global, place: Place, bytes: &[u8]) -> Result<(Place, usize), Stop>
    ensures { Gives result (stepped number_of place bytes.now) }
{
    match place {
        Place::Named(name) => step_named(name, bytes),
        Place::Signed(name, op) => step_signed(alloc, name, op, bytes),
        Place::Opened(name, op) => step_opened(alloc, name, op, bytes),
        Place::Comma(name, op, values) => step_comma(alloc, name, op, values, bytes),
        Place::Valued(name, op, values) => step_valued(alloc, name, op, values, bytes),
        Place::Closed(_, _, _) => Err(Stop::Refused(Reason::AfterValue)),
        Place::Idle => step_idle(alloc, bytes),
    }
}

/// The next token, at the front of the bytes, and how many bytes it takes.
fn step(alloc: Global, place: Place, bytes: &[u8]) -> Result<(Place, usize), Stop>
    requires { 0 < length bytes.now }
    ensures answer { Gives result (stepped number_of place bytes.now) }
    ensures some { IfOk result (λ answer. 0 < answer.1) }
    ensures inside { IfOk result (λ answer. answer.1 ≤ length bytes.now) }
{
    token_at(alloc, place, bytes)
}

/// Whether these bytes of a vector begin neither with a comma nor with a parenthesis.
fn begins_value(bytes: &[u8]) -> bool
    ensures { (name : List ℕ) (op : Op) (values : List ValueView) → result ≡ true → stepped number_of (AtValued name op values) bytes.now ≡ further_at number_of name op values bytes.now }
{
    match bytes {
        [b'(', ..] => false,
        [b',', ..] => false,
        [b')', ..] => false,
        _ => true,
    }
}

/// Puts the values in front, with white space between them, behind those of a vector, and answers how many bytes these take.
fn add_values(alloc: Global, values: &mut Values, line: &[u8]) -> Result<usize, Stop>
    requires { list_any is_line_feed line.now ≡ false }
    ensures inside { IfOk result (λ size. size ≤ length line.now) }
    ensures read { (name : List ℕ) (op : Op) → ReadsOn result (AtValued name op values.old) (AtValued name op values.new) line.now }
{
    let mut at = 0;
    while at < line.len() {
        if is_white(line[at]) {
            at += 1;
        } else if begins_value(&line[at..]) {
            match add_value(alloc, values, &line[at..]) {
                Err(stop) => return Err(stop),
                Ok(size) => at += size,
            }
        } else {
            return Ok(at);
        }
    }
    Ok(at)
}

/// The place behind the values that go on with an open vector, and how many bytes these take; no value moves the place.
fn read_values(alloc: Global, place: Place, line: &[u8]) -> Result<(Place, usize), Stop>
    requires { list_any is_line_feed line.now ≡ false }
    ensures inside { IfOk result (λ front. front.1 ≤ length line.now) }
    ensures read { ReadsFront result place line.now }
{
    match place {
        Place::Valued(name, op, values) => {
            let mut values = values;
            match add_values(alloc, &mut values, line) {
                Err(stop) => Err(stop),
                Ok(size) => Ok((Place::Valued(name, op, values), size)),
            }
        }
        place => Ok((place, 0)),
    }
}

/// The place behind the tokens of a line.
pub fn read_line(alloc: Global, place: Place, line: &[u8]) -> Result<Place, Stop>
    requires { list_any is_line_feed line.now ≡ false }
    ensures { Gives result (read_from number_of place 0 line.now) }
{
    let (mut place, mut at) = match read_values(alloc, place, line) {
        Err(stop) => return Err(stop),
        Ok(front) => front,
    };
    while at < line.len() {
        if is_white(line[at]) {
            at += 1;
        } else {
            match step(alloc, place, &line[at..]) {
                Err(stop) => return Err(stop),
                Ok(token) => {
                    at += token.1;
                    place = token.0;
                }
            }
        }
    }
    Ok(place)
}
