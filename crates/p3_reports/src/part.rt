//! The parts of reports.

ghost use Rattle.std.specs.Prelude.{◌^◌, ◌≤◌, OnErr, OnOk};
ghost use Rattle.p3_base.specs.Outside.{IsPartlyPut, IsPut, Rose};
ghost use Rattle.p3_tree.specs.Reports.Lines.{entry};
ghost use Rattle.p3_tree.specs.Reports.Tasks.{scale_line};
ghost use Rattle.p3_reports.specs.Parts.{
  count_text,
  counts_text,
  part_text,
  parts_text,
  violated_line,
};
ghost use Rattle.p3_reports.specs.Pieces.{piece_text};

use crate::piece::{Piece, put_pieces};
use crate::quantity::Quantity;
use p3_base::{Direction, Name, Sink, SinkFailed};

/// How often the preferences of a name are violated.
#[derive(Debug, Drop)]
pub struct NameCount {
    /// The name.
    pub name: Name,
    /// How often.
    pub count: u64,
}

/// A part of a report: mostly a line.
#[derive(Clone, Copy)]
pub enum Part<'a> {
    /// A plan is valid.
    Valid,
    /// How many steps a task or a plan has.
    Steps(u64),
    /// How many preference instances a task has.
    Preferences(u64),
    /// The loss of no violation.
    Base(Quantity),
    /// Whether a metric's value is to be small or great.
    Direction(Direction),
    /// How many units of the quantity are 1, where they are more than one.
    Scale(Quantity),
    /// How many steps the plan of a sample has.
    Plan(u64),
    /// How many steps an embedded plan has.
    Embedded(u64),
    /// What a plan costs.
    Cost(Quantity),
    /// What a plan of a written task costs.
    WrittenCost(i128),
    /// How often the preferences of the name with these bytes are violated.
    Violated(&'a [u8], u64),
    /// The same of several names.
    Violations(&'a [NameCount]),
    /// The value of a metric.
    Metric(Quantity),
}

/// Puts parts one behind another.
pub fn put_parts<S: Sink>(parts: &[Part<'_>], out: &mut S) -> Result<(), SinkFailed>
    ensures ok { OnOk result (IsPut (parts_text parts.now)
        (S.seen out.old).written (S.seen out.new).written) }
    ensures partly { OnErr result (IsPartlyPut (parts_text parts.now)
        (S.seen out.old).written (S.seen out.new).written) }
    ensures failed { OnErr result (Rose (S.seen out.old).faults (S.seen out.new).faults) }
    ensures faults_grow { (S.seen out.old).faults ≤ (S.seen out.new).faults }
{
    for part in parts {
        put_part(part, out)?;
    }
    Ok(())
}

/// Puts a part.
pub fn put_part<S: Sink>(part: &Part<'_>, out: &mut S) -> Result<(), SinkFailed>
    ensures ok { OnOk result (IsPut (part_text part.now)
        (S.seen out.old).written (S.seen out.new).written) }
    ensures partly { OnErr result (IsPartlyPut (part_text part.now)
        (S.seen out.old).written (S.seen out.new).written) }
    ensures failed { OnErr result (Rose (S.seen out.old).faults (S.seen out.new).faults) }
    ensures faults_grow { (S.seen out.old).faults ≤ (S.seen out.new).faults }
{
    match part {
        Part::Valid => put_pieces(&[Piece::Text("valid\n")], out),
        Part::Steps(count) => put_entry("steps", &Piece::Number(*count), out),
        Part::Preferences(count) => put_entry("preferences", &Piece::Number(*count), out),
        Part::Base(base) => put_entry("base", &Piece::Measured(*base), out),
        Part::Direction(direction) => put_entry("direction", &Piece::Direction(*direction), out),
        Part::Scale(quantity) => put_scale(*quantity, out),
        Part::Plan(count) => put_entry("plan", &Piece::Number(*count), out),
        Part::Embedded(count) => put_entry("embedded", &Piece::Number(*count), out),
        Part::Cost(cost) => put_entry("cost", &Piece::Measured(*cost), out),
        Part::WrittenCost(cost) => put_entry("cost", &Piece::Signed(*cost), out),
        Part::Violated(name, count) => put_violated(name, *count, out),
        Part::Violations(counts) => put_violations(counts, out),
        Part::Metric(value) => put_entry("metric", &Piece::Measured(*value), out),
    }
}

/// Puts a line of a word and what is said of it.
fn put_entry<'x, S: Sink>(word: &'x str, said: &Piece<'x>, out: &mut S) -> Result<(), SinkFailed>
    ensures ok { OnOk result (IsPut (entry word.now (piece_text said.now))
        (S.seen out.old).written (S.seen out.new).written) }
    ensures partly { OnErr result (IsPartlyPut (entry word.now (piece_text said.now))
        (S.seen out.old).written (S.seen out.new).written) }
    ensures failed { OnErr result (Rose (S.seen out.old).faults (S.seen out.new).faults) }
    ensures faults_grow { (S.seen out.old).faults ≤ (S.seen out.new).faults }
{
    put_pieces(
        &[
            Piece::Text(word),
            Piece::Text(" "),
            *said,
            Piece::Text("\n"),
        ],
        out,
    )
}

/// Puts how many units of the quantity are 1, where they are more than one.
fn put_scale<S: Sink>(quantity: Quantity, out: &mut S) -> Result<(), SinkFailed>
    ensures ok { OnOk result (IsPut (scale_line (10 ^ quantity.places))
        (S.seen out.old).written (S.seen out.new).written) }
    ensures partly { OnErr result (IsPartlyPut (scale_line (10 ^ quantity.places))
        (S.seen out.old).written (S.seen out.new).written) }
    ensures failed { OnErr result (Rose (S.seen out.old).faults (S.seen out.new).faults) }
    ensures faults_grow { (S.seen out.old).faults ≤ (S.seen out.new).faults }
{
    let scale = 10u64.pow(quantity.places);
    if scale == 1 {
        return Ok(());
    }
    put_entry("scale", &Piece::Number(scale), out)
}

/// Puts how often the preferences of a name are violated.
fn put_violated<S: Sink>(name: &[u8], count: u64, out: &mut S) -> Result<(), SinkFailed>
    ensures ok { OnOk result (IsPut (violated_line name.now count)
        (S.seen out.old).written (S.seen out.new).written) }
    ensures partly { OnErr result (IsPartlyPut (violated_line name.now count)
        (S.seen out.old).written (S.seen out.new).written) }
    ensures failed { OnErr result (Rose (S.seen out.old).faults (S.seen out.new).faults) }
    ensures faults_grow { (S.seen out.old).faults ≤ (S.seen out.new).faults }
{
    put_pieces(
        &[
            Piece::Text("violated "),
            Piece::Bytes(name),
            Piece::Text(" "),
            Piece::Number(count),
            Piece::Text("\n"),
        ],
        out,
    )
}

/// Puts how often the preferences of each name are violated.
fn put_violations<S: Sink>(counts: &[NameCount], out: &mut S) -> Result<(), SinkFailed>
    ensures ok { OnOk result (IsPut (counts_text counts.now)
        (S.seen out.old).written (S.seen out.new).written) }
    ensures partly { OnErr result (IsPartlyPut (counts_text counts.now)
        (S.seen out.old).written (S.seen out.new).written) }
    ensures failed { OnErr result (Rose (S.seen out.old).faults (S.seen out.new).faults) }
    ensures faults_grow { (S.seen out.old).faults ≤ (S.seen out.new).faults }
{
    for entry in counts {
        put_count(entry, out)?;
    }
    Ok(())
}

/// Puts how often the preferences of a name are violated.
fn put_count<S: Sink>(entry: &NameCount, out: &mut S) -> Result<(), SinkFailed>
    ensures ok { OnOk result (IsPut (count_text entry.now)
        (S.seen out.old).written (S.seen out.new).written) }
    ensures partly { OnErr result (IsPartlyPut (count_text entry.now)
        (S.seen out.old).written (S.seen out.new).written) }
    ensures failed { OnErr result (Rose (S.seen out.old).faults (S.seen out.new).faults) }
    ensures faults_grow { (S.seen out.old).faults ≤ (S.seen out.new).faults }
{
    put_violated(entry.name.bytes(), entry.count, out)
}
