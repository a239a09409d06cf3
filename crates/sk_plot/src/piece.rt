//! What the triples draw.

ghost use Rattle.std.specs.Prelude.{◌≡◌, ◌≤◌, ◌++◌, pos, OnOk};
ghost use Rattle.sk_plot.specs.Picture.{IsSheet, style_of as style_of_piece, step_text, rate_text, beginning_text, line_text, is_drawn as is_drawn_of, next_after as next_after_of, drawn_text, lines_text, is_met as is_met_of, met_text, steps_text, drift_size as drift_size_of, worst_drift as worst_drift_of};

use crate::mark::{push_counted, push_placed, push_text, push_valued};
use crate::place::{Sheet, cross_at, is_from_begin, is_up_to_end, is_within, rate_level_at};
use sk_checks::NoMemory;
use sk_decimal::Fixed;

/// A stretch of a triple as it is drawn: its number, the terrestrial times from which and to which it holds, in 10^-12 s
/// past J2000 TDT, whether a partition begins with it, and by how much its rate differs from the first one's, in parts
/// of 10^9.
#[derive(Clone, Copy, Debug)]
pub struct Piece {
    pub number: u64,
    pub from: Fixed<12>,
    pub to: Fixed<12>,
    pub begins_partition: bool,
    pub drift: Fixed<6>,
}

// Where the step of a rate begins and ends.
#[derive(Clone, Copy)]
struct Ends {
    from: Fixed<2>,
    level: Fixed<2>,
    to: Fixed<2>,
}

fn push_step(out: &mut Vec<u8>, ends: Ends, piece: Piece) -> Result<(), NoMemory>
    ensures { OnOk result (out.new.items ≡ out.old.items ++ step_text ends.from.units ends.level.units ends.to.units piece.number piece.drift.units) }
{
    push_placed(
        out,
        b"<path class=\"rate\" fill=\"none\" stroke=\"#6b2d90\" stroke-width=\"2\" d=\"M",
        ends.from,
    )?;
    push_placed(out, b" ", ends.level)?;
    push_placed(out, b"H", ends.to)?;
    push_counted(out, b"\"><title>triple ", piece.number)?;
    push_valued(out, b": ", piece.drift, b"</title></path>\n")?;
    Ok(())
}

#[tactic(auto, unfolding(crate::specs::Picture::rate_text))]
fn push_rate(out: &mut Vec<u8>, sheet: Sheet, piece: Piece) -> Result<(), NoMemory>
    requires { IsSheet sheet }
    ensures { OnOk result (out.new.items ≡ out.old.items ++ rate_text sheet piece) }
{
    let ends = Ends {
        from: cross_at(sheet, piece.from),
        level: rate_level_at(sheet, piece.drift),
        to: cross_at(sheet, piece.to),
    };
    push_step(out, ends, piece)
}

fn style_of(piece: Piece) -> &'static [u8]
    ensures { result.now ≡ style_of_piece piece }
{
    if piece.begins_partition {
        b"partition\" stroke-width=\"2.5"
    } else {
        b"triple\" stroke-dasharray=\"4 3"
    }
}

// Where the line of a triple begins.
#[derive(Clone, Copy)]
struct Beginning {
    across: Fixed<2>,
    top: u64,
}

fn push_beginning(
    out: &mut Vec<u8>,
    style: &[u8],
    at: Beginning,
    number: u64,
) -> Result<(), NoMemory>
    requires { 5 ≤ at.top }
    ensures { OnOk result (out.new.items ≡ out.old.items ++ beginning_text style.now at.across.units at.top number) }
{
    push_text(out, b"<path stroke=\"#b85c00\" class=\"")?;
    push_text(out, style)?;
    push_placed(out, b"\" d=\"M", at.across)?;
    push_counted(out, b" ", at.top)?;
    push_placed(
        out,
        b"v410\"/>\n<text class=\"number\" fill=\"#b85c00\" text-anchor=\"middle\" x=\"",
        at.across,
    )?;
    push_counted(out, b"\" y=\"", at.top - 5)?;
    push_counted(out, b"\">", number)?;
    push_text(out, b"</text>\n")?;
    Ok(())
}

#[tactic(auto, unfolding(crate::specs::Picture::line_text))]
fn push_line(out: &mut Vec<u8>, sheet: Sheet, piece: Piece) -> Result<(), NoMemory>
    requires { IsSheet sheet }
    ensures { OnOk result (out.new.items ≡ out.old.items ++ line_text sheet piece) }
{
    let at = Beginning {
        across: cross_at(sheet, piece.from),
        top: sheet.values.zero - 205,
    };
    push_beginning(out, style_of(piece), at, piece.number)
}

fn is_drawn(sheet: Sheet, next: Fixed<2>, piece: Piece) -> bool
    requires { IsSheet sheet }
    ensures { result ≡ is_drawn_of sheet next.units piece }
{
    is_within(sheet, piece.from)
        && (piece.begins_partition || next.units <= cross_at(sheet, piece.from).units)
}

fn next_after(sheet: Sheet, next: Fixed<2>, piece: Piece) -> Fixed<2>
    requires { IsSheet sheet }
    ensures { result.units ≡ next_after_of sheet next.units piece }
{
    if !is_drawn(sheet, next, piece) {
        return next;
    }
    Fixed {
        units: cross_at(sheet, piece.from).units + 2_400,
    }
}

fn push_drawn(out: &mut Vec<u8>, sheet: Sheet, next: Fixed<2>, piece: Piece) -> Result<(), NoMemory>
    requires { IsSheet sheet }
    ensures { OnOk result (out.new.items ≡ out.old.items ++ drawn_text sheet next.units piece) }
{
    if is_drawn(sheet, next, piece) {
        push_line(out, sheet, piece)?;
    }
    Ok(())
}

/// Appends the lines at which triples begin, in order, where there is room for their numbers.
pub fn push_lines(out: &mut Vec<u8>, sheet: Sheet, pieces: &[Piece]) -> Result<(), NoMemory>
    requires { IsSheet sheet }
    ensures { OnOk result (out.new.items ≡ out.old.items ++ lines_text sheet (pos 0) pieces.now) }
{
    let mut next = Fixed { units: 0 };
    for piece in pieces {
        push_drawn(out, sheet, next, *piece)?;
        next = next_after(sheet, next, *piece);
    }
    Ok(())
}

// Whether the piece holds at some time of the axis.
fn is_met(sheet: Sheet, piece: Piece) -> bool
    requires { IsSheet sheet }
    ensures { result ≡ is_met_of sheet piece }
{
    is_up_to_end(sheet, piece.from) && is_from_begin(sheet, piece.to)
}

fn push_met(out: &mut Vec<u8>, sheet: Sheet, piece: Piece) -> Result<(), NoMemory>
    requires { IsSheet sheet }
    ensures { OnOk result (out.new.items ≡ out.old.items ++ met_text sheet piece) }
{
    if is_met(sheet, piece) {
        push_rate(out, sheet, piece)?;
    }
    Ok(())
}

/// Appends the steps of the rates that hold within the axis, in order.
pub fn push_steps(out: &mut Vec<u8>, sheet: Sheet, pieces: &[Piece]) -> Result<(), NoMemory>
    requires { IsSheet sheet }
    ensures { OnOk result (out.new.items ≡ out.old.items ++ steps_text sheet pieces.now) }
{
    for piece in pieces {
        push_met(out, sheet, *piece)?;
    }
    Ok(())
}

// What a piece asks of the axis of the rates.
fn drift_size(sheet: Sheet, piece: Piece) -> u128
    requires { IsSheet sheet }
    ensures { result ≡ drift_size_of sheet piece }
{
    if is_met(sheet, piece) {
        piece.drift.units.unsigned_abs()
    } else {
        0
    }
}

/// The size of the greatest difference of rates within the axis, in parts of 10^15.
pub fn worst_drift(sheet: Sheet, pieces: &[Piece]) -> u128
    requires { IsSheet sheet }
    ensures { result ≡ worst_drift_of sheet pieces.now }
{
    let mut worst = 0;
    for piece in pieces {
        let size = drift_size(sheet, *piece);
        if worst < size {
            worst = size;
        }
    }
    worst
}
