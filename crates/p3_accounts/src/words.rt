//! Steps, atoms and values as words in parentheses.

ghost use Rattle.std.specs.Prelude.{◌≡◌, ◌≤◌, ◌++◌, OnErr, OnOk, codes, flat_map, slice_get};
ghost use Rattle.p3_base.specs.Outside.{IsPartlyPut, IsPut, Rose};
ghost use Rattle.p3_numbers.specs.Slots.{name_at, object_names};
ghost use Rattle.p3_accounts.specs.Subjects.{argument_of, preference_text};
ghost use Rattle.p3_accounts.specs.Vocabularies.{vocabulary};
ghost use Rattle.p3_accounts.specs.Words.{
  action_word,
  named_text,
  numbered_step_text,
  placed_text,
  step_text,
  words_text,
};

use crate::item::{Printed, put_all};
use crate::terms::Terms;
use p3_base::{List, Name, Sink, SinkFailed};
use p3_reasons::PlacedStep;
use p3_reports::{Piece, put_pieces};
use p3_task::{Action, Step};

impl Printed for Name {
    ghost use Rattle.p3_accounts.specs.Words.{argument_text};

    ghost text = { λ V name. argument_text name };

    /// Puts it as an argument.
    fn put<S: Sink>(&self, terms: &Terms<'_>, out: &mut S) -> Result<(), SinkFailed> {
        put_pieces(&[Piece::Text(" "), Piece::Bytes(self.bytes())], out)
    }
}

impl Printed for u32 {
    ghost use Rattle.p3_numbers.specs.Slots.{name_at};
    ghost use Rattle.p3_accounts.specs.Words.{argument_text};

    ghost text = { λ V object. argument_text (name_at V.numbers.objects object) };

    /// Puts the object of the number as an argument.
    fn put<S: Sink>(&self, terms: &Terms<'_>, out: &mut S) -> Result<(), SinkFailed> {
        let name = name_of(&terms.numbers.objects, *self);
        put_pieces(&[Piece::Text(" "), Piece::Bytes(name)], out)
    }
}

/// Gives the bytes of the name of a number, or none where no name has the number.
pub(crate) fn name_of(names: &List<Name>, number: u32) -> &[u8]
    ensures { result.now ≡ name_at names.now number }
{
    match names.get(number as usize) {
        Some(name) => name.bytes(),
        None => b"".as_slice(),
    }
}

/// Puts a head and its arguments in parentheses.
fn put_words<T: Printed, S: Sink>(
    head: &[u8],
    args: &[T],
    terms: &Terms<'_>,
    out: &mut S,
) -> Result<(), SinkFailed>
    ensures ok { OnOk result (IsPut
        (codes "(" ++ head.now ++ flat_map (T.text (vocabulary terms.now)) args.now ++ codes ")")
        (S.seen out.old).written (S.seen out.new).written) }
    ensures partly { OnErr result (IsPartlyPut
        (codes "(" ++ head.now ++ flat_map (T.text (vocabulary terms.now)) args.now ++ codes ")")
        (S.seen out.old).written (S.seen out.new).written) }
    ensures failed { OnErr result (Rose (S.seen out.old).faults (S.seen out.new).faults) }
    ensures faults_grow { (S.seen out.old).faults ≤ (S.seen out.new).faults }
{
    put_pieces(&[Piece::Text("("), Piece::Bytes(head)], out)?;
    put_all(args, terms, out)?;
    put_pieces(&[Piece::Text(")")], out)
}

/// Puts a step by its words.
pub(crate) fn put_given<S: Sink>(
    step: &Step,
    terms: &Terms<'_>,
    out: &mut S,
) -> Result<(), SinkFailed>
    ensures ok { OnOk result (IsPut (step_text step.now)
        (S.seen out.old).written (S.seen out.new).written) }
    ensures partly { OnErr result (IsPartlyPut (step_text step.now)
        (S.seen out.old).written (S.seen out.new).written) }
    ensures failed { OnErr result (Rose (S.seen out.old).faults (S.seen out.new).faults) }
    ensures faults_grow { (S.seen out.old).faults ≤ (S.seen out.new).faults }
{
    put_words(step.action.bytes(), step.args.items(), terms, out)
}

/// Puts a head at objects.
fn put_at<S: Sink>(
    head: &[u8],
    objects: &[u32],
    terms: &Terms<'_>,
    out: &mut S,
) -> Result<(), SinkFailed>
    ensures ok { OnOk result
        (IsPut (words_text head.now (object_names terms.now.numbers.now objects.now))
        (S.seen out.old).written (S.seen out.new).written) }
    ensures partly { OnErr result
        (IsPartlyPut (words_text head.now (object_names terms.now.numbers.now objects.now))
        (S.seen out.old).written (S.seen out.new).written) }
    ensures failed { OnErr result (Rose (S.seen out.old).faults (S.seen out.new).faults) }
    ensures faults_grow { (S.seen out.old).faults ≤ (S.seen out.new).faults }
{
    put_words(head, objects, terms, out)
}

/// Puts an action at objects.
pub(crate) fn put_placed<S: Sink>(
    placed: &PlacedStep,
    terms: &Terms<'_>,
    out: &mut S,
) -> Result<(), SinkFailed>
    ensures ok { OnOk result (IsPut (placed_text (vocabulary terms.now) placed.now)
        (S.seen out.old).written (S.seen out.new).written) }
    ensures partly { OnErr result (IsPartlyPut (placed_text (vocabulary terms.now) placed.now)
        (S.seen out.old).written (S.seen out.new).written) }
    ensures failed { OnErr result (Rose (S.seen out.old).faults (S.seen out.new).faults) }
    ensures faults_grow { (S.seen out.old).faults ≤ (S.seen out.new).faults }
{
    let action = action_of(terms.actions, placed.action);
    put_at(action, placed.objects.items(), terms, out)
}

/// Gives the name of the action at a place, or none where no action stands there.
fn action_of(actions: &[Action], place: u32) -> &[u8]
    ensures { result.now ≡ action_word (slice_get actions.now place) }
{
    match actions.get(place as usize) {
        Some(action) => action.name.name.bytes(),
        None => b"".as_slice(),
    }
}

/// Puts the step of a number, counted from 1; nothing where no step has the number.
pub(crate) fn put_numbered<S: Sink>(
    number: u32,
    terms: &Terms<'_>,
    out: &mut S,
) -> Result<(), SinkFailed>
    ensures ok { OnOk result (IsPut (numbered_step_text (vocabulary terms.now) number)
        (S.seen out.old).written (S.seen out.new).written) }
    ensures partly { OnErr result
        (IsPartlyPut (numbered_step_text (vocabulary terms.now) number)
        (S.seen out.old).written (S.seen out.new).written) }
    ensures failed { OnErr result (Rose (S.seen out.old).faults (S.seen out.new).faults) }
    ensures faults_grow { (S.seen out.old).faults ≤ (S.seen out.new).faults }
{
    match terms.steps.get(number.saturating_sub(1) as usize) {
        Some(placed) => put_placed(placed, terms, out),
        None => put_pieces(&[], out),
    }
}

/// Puts what has one of the names, at objects: the number of its name, and then theirs.
pub(crate) fn put_named<S: Sink>(
    names: &List<Name>,
    words: &List<u32>,
    terms: &Terms<'_>,
    out: &mut S,
) -> Result<(), SinkFailed>
    ensures ok { OnOk result (IsPut (named_text terms.now.numbers.now names.now words.now)
        (S.seen out.old).written (S.seen out.new).written) }
    ensures partly { OnErr result
        (IsPartlyPut (named_text terms.now.numbers.now names.now words.now)
        (S.seen out.old).written (S.seen out.new).written) }
    ensures failed { OnErr result (Rose (S.seen out.old).faults (S.seen out.new).faults) }
    ensures faults_grow { (S.seen out.old).faults ≤ (S.seen out.new).faults }
{
    match words.items().split_first() {
        Some((number, objects)) => put_at(name_of(names, *number), objects, terms, out),
        None => put_pieces(&[Piece::Text("()")], out),
    }
}

/// Puts the name of a preference by its number.
pub(crate) fn put_preference<S: Sink>(
    name: Option<u32>,
    terms: &Terms<'_>,
    out: &mut S,
) -> Result<(), SinkFailed>
    ensures ok { OnOk result (IsPut (preference_text (vocabulary terms.now) name)
        (S.seen out.old).written (S.seen out.new).written) }
    ensures partly { OnErr result (IsPartlyPut (preference_text (vocabulary terms.now) name)
        (S.seen out.old).written (S.seen out.new).written) }
    ensures failed { OnErr result (Rose (S.seen out.old).faults (S.seen out.new).faults) }
    ensures faults_grow { (S.seen out.old).faults ≤ (S.seen out.new).faults }
{
    match name {
        Some(number) => put_pieces(
            &[Piece::Bytes(name_of(&terms.numbers.preferences, number))],
            out,
        ),
        None => put_pieces(&[Piece::Text("-")], out),
    }
}

/// Gives the argument of a number, counted from 1, or none where no argument has the number.
pub(crate) fn argument_at(words: &Step, number: u32) -> &[u8]
    ensures { result.now ≡ argument_of words.now number }
{
    name_of(&words.args, number.saturating_sub(1))
}
