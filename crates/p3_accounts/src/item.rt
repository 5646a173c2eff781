//! Items of lines, and how what has a text is put one behind another.

ghost use Rattle.std.specs.Prelude.{◌≡◌, ◌≤◌, List as Bytes, ℕ, OnErr, OnOk, flat_map};
ghost use Rattle.p3_base.specs.Outside.{IsPartlyPut, IsPut, Rose};
ghost use Rattle.p3_accounts.specs.Items.{items_text};
ghost use Rattle.p3_accounts.specs.States.{behind_text, moment_text, operand_text, truth_word};
ghost use Rattle.p3_accounts.specs.Subjects.{counted, plural};
ghost use Rattle.p3_accounts.specs.Vocabularies.{Vocabulary, vocabulary};

use crate::operator::OperatorKind;
use crate::spot::{Spot, put_spot};
use crate::subject::{Binding, put_bindings};
use crate::terms::Terms;
use crate::words::{argument_at, put_given, put_named, put_numbered, put_preference};
use p3_base::{List, Name, Sink, SinkFailed};
use p3_reasons::Operand;
use p3_reports::{Piece, put_pieces};
use p3_task::Step;

/// What has a text, by which it is put.
pub(crate) trait Printed {
    ghost text: { Vocabulary → Self → Bytes ℕ };

    /// Puts it.
    fn put<S: Sink>(&self, terms: &Terms<'_>, out: &mut S) -> Result<(), SinkFailed>
        ensures ok { OnOk result (IsPut (text (vocabulary terms.now) self.now)
            (S.seen out.old).written (S.seen out.new).written) }
        ensures partly { OnErr result (IsPartlyPut (text (vocabulary terms.now) self.now)
            (S.seen out.old).written (S.seen out.new).written) }
        ensures failed { OnErr result (Rose (S.seen out.old).faults (S.seen out.new).faults) }
        ensures faults_grow { (S.seen out.old).faults ≤ (S.seen out.new).faults };
}

/// Puts things one behind another.
pub(crate) fn put_all<T: Printed, S: Sink>(
    things: &[T],
    terms: &Terms<'_>,
    out: &mut S,
) -> Result<(), SinkFailed>
    ensures ok { OnOk result (IsPut (flat_map (T.text (vocabulary terms.now)) things.now)
        (S.seen out.old).written (S.seen out.new).written) }
    ensures partly { OnErr result
        (IsPartlyPut (flat_map (T.text (vocabulary terms.now)) things.now)
        (S.seen out.old).written (S.seen out.new).written) }
    ensures failed { OnErr result (Rose (S.seen out.old).faults (S.seen out.new).faults) }
    ensures faults_grow { (S.seen out.old).faults ≤ (S.seen out.new).faults }
{
    for thing in things {
        thing.put(terms, out)?;
    }
    Ok(())
}

/// An item of a line.
#[derive(Clone, Copy)]
pub(crate) enum Item<'a> {
    /// A text.
    Text(&'a str),
    /// A name.
    Name(&'a Name),
    /// A number.
    Number(u32),
    /// So many parameters.
    Parameters(u32),
    /// As many arguments as a step has.
    Arguments(&'a Step),
    /// The argument of a step by its number, counted from 1.
    Argument(&'a Step, u32),
    /// Where it stands, where that is known.
    Before(Option<Spot>),
    /// A step by its words.
    Words(&'a Step),
    /// The step of a number.
    Step(u32),
    /// A predicate at objects.
    Atom(&'a List<u32>),
    /// A function at objects.
    Value(&'a List<u32>),
    /// The name of a preference by its number.
    Preference(Option<u32>),
    /// The word of an operator.
    Operator(OperatorKind),
    /// What variables mean.
    Bindings(&'a List<Binding>),
    /// When a state stands.
    Moment(u32),
    /// Which of two formulas.
    Operand(Option<Operand>),
    /// Whether something is true.
    Truth(bool),
}

impl Printed for Item<'_> {
    ghost use Rattle.p3_accounts.specs.Items.{item_text};

    ghost text = { item_text };

    fn put<S: Sink>(&self, terms: &Terms<'_>, out: &mut S) -> Result<(), SinkFailed> {
        match self {
            Item::Text(text) => put_pieces(&[Piece::Text(text)], out),
            Item::Name(name) => put_pieces(&[Piece::Bytes(name.bytes())], out),
            Item::Number(number) => put_pieces(&[Piece::Number(*number as u64)], out),
            Item::Parameters(number) => put_counted(*number as u64, "parameter", out),
            Item::Arguments(step) => put_counted(step.args.len() as u64, "argument", out),
            Item::Argument(step, number) => {
                put_pieces(&[Piece::Bytes(argument_at(step, *number))], out)
            }
            Item::Before(spot) => put_spot(spot, terms, out),
            Item::Words(step) => put_given(step, terms, out),
            Item::Step(number) => put_numbered(*number, terms, out),
            Item::Atom(atom) => put_named(&terms.numbers.predicates, atom, terms, out),
            Item::Value(value) => put_named(&terms.numbers.functions, value, terms, out),
            Item::Preference(name) => put_preference(*name, terms, out),
            Item::Operator(operator) => put_pieces(&[Piece::Text(operator.word())], out),
            Item::Bindings(bindings) => put_bindings(bindings, terms, out),
            Item::Moment(state) => put_moment(*state, terms, out),
            Item::Operand(operand) => put_pieces(&[Piece::Text(operand_words(*operand))], out),
            Item::Truth(holds) => put_pieces(&[Piece::Text(truth_of(*holds))], out),
        }
    }
}

/// Puts items one behind another.
pub(crate) fn put_items<S: Sink>(
    items: &[Item<'_>],
    terms: &Terms<'_>,
    out: &mut S,
) -> Result<(), SinkFailed>
    ensures ok { OnOk result (IsPut (items_text (vocabulary terms.now) items.now)
        (S.seen out.old).written (S.seen out.new).written) }
    ensures partly { OnErr result (IsPartlyPut (items_text (vocabulary terms.now) items.now)
        (S.seen out.old).written (S.seen out.new).written) }
    ensures failed { OnErr result (Rose (S.seen out.old).faults (S.seen out.new).faults) }
    ensures faults_grow { (S.seen out.old).faults ≤ (S.seen out.new).faults }
{
    put_all(items, terms, out)
}

/// Puts so many of what a word names.
fn put_counted<S: Sink>(number: u64, word: &str, out: &mut S) -> Result<(), SinkFailed>
    ensures ok { OnOk result (IsPut (counted number word.now)
        (S.seen out.old).written (S.seen out.new).written) }
    ensures partly { OnErr result (IsPartlyPut (counted number word.now)
        (S.seen out.old).written (S.seen out.new).written) }
    ensures failed { OnErr result (Rose (S.seen out.old).faults (S.seen out.new).faults) }
    ensures faults_grow { (S.seen out.old).faults ≤ (S.seen out.new).faults }
{
    put_pieces(
        &[
            Piece::Number(number),
            Piece::Text(" "),
            Piece::Text(word),
            Piece::Text(plural_of(number)),
        ],
        out,
    )
}

/// Gives the end of a word of which there are so many.
fn plural_of(number: u64) -> &'static str
    ensures { result.now ≡ plural number }
{
    if number == 1 { "" } else { "s" }
}

/// Puts when a state stands.
fn put_moment<S: Sink>(state: u32, terms: &Terms<'_>, out: &mut S) -> Result<(), SinkFailed>
    ensures ok { OnOk result (IsPut (moment_text (vocabulary terms.now) state)
        (S.seen out.old).written (S.seen out.new).written) }
    ensures partly { OnErr result (IsPartlyPut (moment_text (vocabulary terms.now) state)
        (S.seen out.old).written (S.seen out.new).written) }
    ensures failed { OnErr result (Rose (S.seen out.old).faults (S.seen out.new).faults) }
    ensures faults_grow { (S.seen out.old).faults ≤ (S.seen out.new).faults }
{
    if state == 0 {
        put_pieces(&[Piece::Text("at the start")], out)
    } else {
        put_behind(state, terms, out)
    }
}

/// Puts the step behind which a state stands.
fn put_behind<S: Sink>(number: u32, terms: &Terms<'_>, out: &mut S) -> Result<(), SinkFailed>
    ensures ok { OnOk result (IsPut (behind_text (vocabulary terms.now) number)
        (S.seen out.old).written (S.seen out.new).written) }
    ensures partly { OnErr result (IsPartlyPut (behind_text (vocabulary terms.now) number)
        (S.seen out.old).written (S.seen out.new).written) }
    ensures failed { OnErr result (Rose (S.seen out.old).faults (S.seen out.new).faults) }
    ensures faults_grow { (S.seen out.old).faults ≤ (S.seen out.new).faults }
{
    put_pieces(
        &[
            Piece::Text("behind step "),
            Piece::Number(number as u64),
            Piece::Text(" "),
        ],
        out,
    )?;
    put_numbered(number, terms, out)
}

/// Says which of two formulas is meant.
fn operand_words(operand: Option<Operand>) -> &'static str
    ensures { result.now ≡ operand_text operand }
{
    match operand {
        None => "",
        Some(Operand::First) => ", first formula",
        Some(Operand::Second) => ", second formula",
    }
}

/// Gives the word of a truth value.
fn truth_of(holds: bool) -> &'static str
    ensures { result.now ≡ truth_word holds }
{
    if holds { "true" } else { "false" }
}
