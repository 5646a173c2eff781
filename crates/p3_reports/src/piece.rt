//! Pieces of lines, and how they are put one behind another.

ghost use Rattle.std.specs.Prelude.{◌≡◌, ◌≤◌, ◌++◌, OnErr, OnOk};
ghost use Rattle.p3_tree.specs.Reports.Lines.{line};
ghost use Rattle.p3_tree.specs.Reports.Quantities.{shown_quantity};
ghost use Rattle.p3_base.specs.Outside.{IsPartlyPut, IsPut, Rose};
ghost use Rattle.p3_reports.specs.Pieces.{piece_text, pieces_text};

use crate::fault::Misfit;
use crate::quantity::Quantity;
use crate::stack_sink::StackSink;
use crate::words::{code_words, direction_word, misfit_words, role_word};
use itoa::{Buffer, Integer};
use p3_base::{Code, Direction, Role, Sink, SinkFailed};

/// As many bytes as most lines have at most.
const LINE_ROOM: usize = 256;

/// A piece of a line: a text, or what is found, which is printed by its digits or its name.
#[derive(Clone, Copy)]
pub enum Piece<'a> {
    /// A text.
    Text(&'a str),
    /// Bytes, as those of a name.
    Bytes(&'a [u8]),
    /// A number.
    Number(u64),
    /// A number with its sign.
    Signed(i128),
    /// A number with a decimal point.
    Measured(Quantity),
    /// Which file is meant.
    File(Role),
    /// Why an input is refused.
    Why(Code),
    /// Whether a metric's value is to be small or great.
    Direction(Direction),
    /// Why a step does not fit.
    Misfit(Misfit),
}

/// Puts pieces one behind another. Where they have no more bytes than most lines, they are put at
/// once.
pub fn put_pieces<S: Sink>(pieces: &[Piece<'_>], out: &mut S) -> Result<(), SinkFailed>
    ensures ok { OnOk result (IsPut (pieces_text pieces.now)
        (S.seen out.old).written (S.seen out.new).written) }
    ensures partly { OnErr result (IsPartlyPut (pieces_text pieces.now)
        (S.seen out.old).written (S.seen out.new).written) }
    ensures failed { OnErr result (Rose (S.seen out.old).faults (S.seen out.new).faults) }
    ensures faults_grow { (S.seen out.old).faults ≤ (S.seen out.new).faults }
{
    let mut line = StackSink::<LINE_ROOM>::new();
    match put_each(pieces, &mut line) {
        Ok(()) => out.put(line.bytes()),
        Err(SinkFailed) => put_each(pieces, out),
    }
}

/// Puts a line of two parts, each of some pieces. Where it has no more bytes than most lines, it is
/// put at once.
pub(crate) fn put_line<S: Sink>(
    first: &[Piece<'_>],
    second: &[Piece<'_>],
    out: &mut S,
) -> Result<(), SinkFailed>
    ensures ok { OnOk result (IsPut (line (pieces_text first.now ++ pieces_text second.now))
        (S.seen out.old).written (S.seen out.new).written) }
    ensures partly { OnErr result
        (IsPartlyPut (line (pieces_text first.now ++ pieces_text second.now))
        (S.seen out.old).written (S.seen out.new).written) }
    ensures failed { OnErr result (Rose (S.seen out.old).faults (S.seen out.new).faults) }
    ensures faults_grow { (S.seen out.old).faults ≤ (S.seen out.new).faults }
{
    let mut line = StackSink::<LINE_ROOM>::new();
    match put_both(first, second, &mut line) {
        Ok(()) => out.put(line.bytes()),
        Err(SinkFailed) => put_both(first, second, out),
    }
}

/// Puts a line of two parts, each piece by itself.
fn put_both<S: Sink>(
    first: &[Piece<'_>],
    second: &[Piece<'_>],
    out: &mut S,
) -> Result<(), SinkFailed>
    ensures ok { OnOk result (IsPut (line (pieces_text first.now ++ pieces_text second.now))
        (S.seen out.old).written (S.seen out.new).written) }
    ensures partly { OnErr result
        (IsPartlyPut (line (pieces_text first.now ++ pieces_text second.now))
        (S.seen out.old).written (S.seen out.new).written) }
    ensures failed { OnErr result (Rose (S.seen out.old).faults (S.seen out.new).faults) }
    ensures faults_grow { (S.seen out.old).faults ≤ (S.seen out.new).faults }
{
    put_each(first, out)?;
    put_each(second, out)?;
    put_text("\n", out)
}

/// Puts pieces, each by itself.
fn put_each<S: Sink>(pieces: &[Piece<'_>], out: &mut S) -> Result<(), SinkFailed>
    ensures ok { OnOk result (IsPut (pieces_text pieces.now)
        (S.seen out.old).written (S.seen out.new).written) }
    ensures partly { OnErr result (IsPartlyPut (pieces_text pieces.now)
        (S.seen out.old).written (S.seen out.new).written) }
    ensures failed { OnErr result (Rose (S.seen out.old).faults (S.seen out.new).faults) }
    ensures faults_grow { (S.seen out.old).faults ≤ (S.seen out.new).faults }
{
    for piece in pieces {
        put_piece(piece, out)?;
    }
    Ok(())
}

/// Puts a piece.
fn put_piece<S: Sink>(piece: &Piece<'_>, out: &mut S) -> Result<(), SinkFailed>
    ensures ok { OnOk result (IsPut (piece_text piece.now)
        (S.seen out.old).written (S.seen out.new).written) }
    ensures partly { OnErr result (IsPartlyPut (piece_text piece.now)
        (S.seen out.old).written (S.seen out.new).written) }
    ensures failed { OnErr result (Rose (S.seen out.old).faults (S.seen out.new).faults) }
    ensures faults_grow { (S.seen out.old).faults ≤ (S.seen out.new).faults }
{
    match piece {
        Piece::Text(text) => put_text(text, out),
        Piece::Bytes(bytes) => out.put(bytes),
        Piece::Number(number) => put_number(*number, out),
        Piece::Signed(number) => put_number(*number, out),
        Piece::Measured(quantity) => put_quantity(quantity, out),
        Piece::File(role) => put_text(role_word(*role), out),
        Piece::Why(code) => put_text(code_words(*code), out),
        Piece::Direction(direction) => put_text(direction_word(*direction), out),
        Piece::Misfit(misfit) => put_text(misfit_words(*misfit), out),
    }
}

/// Puts a text.
fn put_text<S: Sink>(text: &str, out: &mut S) -> Result<(), SinkFailed>
    ensures ok { OnOk result (IsPut text.now
        (S.seen out.old).written (S.seen out.new).written) }
    ensures partly { OnErr result (IsPartlyPut text.now
        (S.seen out.old).written (S.seen out.new).written) }
    ensures failed { OnErr result (Rose (S.seen out.old).faults (S.seen out.new).faults) }
    ensures faults_grow { (S.seen out.old).faults ≤ (S.seen out.new).faults }
{
    out.put(text.as_bytes())
}

/// Puts a number by its digits.
fn put_number<S: Sink, I: Integer>(number: I, out: &mut S) -> Result<(), SinkFailed>
    ensures ok { OnOk result (IsPut (I.text number)
        (S.seen out.old).written (S.seen out.new).written) }
    ensures partly { OnErr result (IsPartlyPut (I.text number)
        (S.seen out.old).written (S.seen out.new).written) }
    ensures failed { OnErr result (Rose (S.seen out.old).faults (S.seen out.new).faults) }
    ensures faults_grow { (S.seen out.old).faults ≤ (S.seen out.new).faults }
{
    let mut digits = Buffer::new();
    put_text(digits.format(number), out)
}

/// Puts a number with a decimal point.
fn put_quantity<S: Sink>(quantity: &Quantity, out: &mut S) -> Result<(), SinkFailed>
    ensures ok { OnOk result (IsPut (shown_quantity quantity.now.places quantity.now.units)
        (S.seen out.old).written (S.seen out.new).written) }
    ensures partly { OnErr result
        (IsPartlyPut (shown_quantity quantity.now.places quantity.now.units)
        (S.seen out.old).written (S.seen out.new).written) }
    ensures failed { OnErr result (Rose (S.seen out.old).faults (S.seen out.new).faults) }
    ensures faults_grow { (S.seen out.old).faults ≤ (S.seen out.new).faults }
{
    let text = quantity.text();
    put_text(text.as_str(), out)
}
