//! Metrics.

ghost use Rattle.std.specs.Prelude.{IsSome, Some, ◌≡◌};
ghost use Rattle.p3_task.specs.Grammar.Metrics.{num_place, num_word, minus_form, direction_place, metric_in};
ghost use Rattle.p3_syntax.specs.Reading.{Gives};
ghost use Rattle.p3_outline.specs.Nodes.{expression_of, expressions_of};
ghost use Rattle.p3_syntax.specs.Metrics.{num_at, num_by, violated_at, nums_at};

use crate::tree::lists::room_for;
use crate::tree::numerals::numeral;
use crate::tree::parts::{headed, only, pair};
use crate::tree::words::{TextWord, name, word};
use p3_base::{Boxed, Direction, List, NoMemory};
use p3_lexer::is;
use p3_outline::{Parts, View};
use p3_task::{Metric, Num};
use std::alloc::Global;

/// A number, or the total cost without parentheses.
#[tactic(auto, using(crate::proofs::MetricLemmas::cost_word, crate::proofs::MetricLemmas::other_word))]
fn num_word(view: View<'_, '_>) -> Result<Num, NoMemory>
    requires tree { IsSome (num_word (expression_of view)) }
    ensures { Gives result (num_word (expression_of view.entry)) }
{
    let word = word(view);
    if is(word.text, b"total-cost") {
        Ok(Num::TotalCost(word.at))
    } else {
        Ok(Num::Number(numeral(view)?))
    }
}

/// `(is-violated` name `)`.
#[tactic(auto, using(crate::proofs::TreeLemmas::raws_listed))]
fn violated_form(alloc: Global, behind: Parts<'_, '_>) -> Result<Num, NoMemory>
    requires tree { IsSome (violated_at behind) }
    ensures { Gives result (violated_at behind.entry) }
{
    Ok(Num::Violated(name(alloc, only(behind))?))
}

/// The parts of an operator.
#[cycle(num)]
fn nums(alloc: Global, parts: Parts<'_, '_>) -> Result<List<Num>, NoMemory>
    requires tree { IsSome (nums_at parts) }
    ensures { Gives result (nums_at parts.entry) }
{
    let mut left = parts;
    let mut found = room_for(alloc, parts)?;
    while let Some(view) = left.next() {
        found.push(num(alloc, view)?)?;
    }
    Ok(found)
}

/// `(-` num `)` or `(-` num num `)`.
#[cycle(num)]
fn minus_form(alloc: Global, word: TextWord<'_>, behind: Parts<'_, '_>) -> Result<Num, NoMemory>
    requires tree { IsSome (num_at minus_form word behind) }
    ensures { Gives result (num_at minus_form word.entry behind.entry) }
{
    let mut parts = behind;
    let first = parts.next().unwrap();
    let first = Boxed::new(alloc, num(alloc, first)?)?;
    let Some(second) = parts.next() else {
        return Ok(Num::Neg(word.at, first));
    };
    let second = Boxed::new(alloc, num(alloc, second)?)?;
    Ok(Num::Sub(word.at, first, second))
}

/// A list by its first word.
#[cycle(num)]
fn num_by(alloc: Global, word: TextWord<'_>, behind: Parts<'_, '_>) -> Result<Num, NoMemory>
    requires tree { IsSome (num_by word behind) }
    ensures { Gives result (num_by word.entry behind.entry) }
{
    if is(word.text, b"total-cost") {
        Ok(Num::TotalCost(word.at))
    } else if is(word.text, b"is-violated") {
        violated_form(alloc, behind)
    } else if is(word.text, b"-") {
        minus_form(alloc, word, behind)
    } else if is(word.text, b"+") {
        Ok(Num::Sum(word.at, nums(alloc, behind)?))
    } else {
        Ok(Num::Product(word.at, nums(alloc, behind)?))
    }
}

/// An expression over counts and costs.
#[cycle(num)]
#[tactic(auto, using(crate::proofs::MetricLemmas::num_of_word, crate::proofs::MetricLemmas::num_of_list))]
pub fn num(alloc: Global, view: View<'_, '_>) -> Result<Num, NoMemory>
    requires tree { IsSome (num_place (expression_of view)) }
    ensures { Gives result (num_place (expression_of view.entry)) }
{
    match view.word() {
        Some(_) => num_word(view),
        None => {
            let list = headed(view.parts());
            num_by(alloc, list.word, list.behind)
        }
    }
}

/// `minimize` or `maximize`.
fn direction(view: View<'_, '_>) -> Direction
    requires tree { IsSome (direction_place (expression_of view)) }
    ensures { direction_place (expression_of view.entry) ≡ Some result }
{
    if is(word(view).text, b"minimize") {
        Direction::Minimize
    } else {
        Direction::Maximize
    }
}

/// What stands behind `:metric`.
pub fn metric(alloc: Global, behind: Parts<'_, '_>) -> Result<Metric, NoMemory>
    requires tree { IsSome (metric_in (expressions_of behind)) }
    ensures { Gives result (metric_in (expressions_of behind.entry)) }
{
    let (first, second) = pair(behind);
    let direction = direction(first);
    let body = num(alloc, second)?;
    Ok(Metric { direction, body })
}
