//! Constraints over the visited states.

ghost use Rattle.std.specs.Prelude.{IsSome};
ghost use Rattle.p3_task.specs.Grammar.Words.{each_at};
ghost use Rattle.p3_task.specs.Grammar.Constraints.{at_end_form, modal_place, single_form, constraint_place, constraint_or_empty_place};
ghost use Rattle.p3_outline.specs.Nodes.{expression_of, expressions_of};
ghost use Rattle.p3_syntax.specs.Reading.{Gives};
ghost use Rattle.p3_syntax.specs.Trees.{both_constraints, constraint_at, constraint_by, each_constraint, modal_by, soft_constraint};

use crate::tree::formulas::{formula, two_formulas};
use crate::tree::goals::{NamedBody, named};
use crate::tree::lists::variables;
use crate::tree::parts::{headed, only, pair, parts};
use crate::tree::words::TextWord;
use p3_base::{Boxed, List, NoMemory};
use p3_lexer::is;
use p3_outline::{Parts, View};
use p3_task::{Constraint, Modal};
use std::alloc::Global;

fn at_end_form(alloc: Global, behind: Parts<'_, '_>) -> Result<Modal, NoMemory>
    requires tree { IsSome (at_end_form (expressions_of behind)) }
    ensures { Gives result (at_end_form (expressions_of behind.entry)) }
{
    let (_, second) = pair(behind);
    Ok(Modal::AtEnd(formula(alloc, second)?))
}

/// The operator of a list by its first word.
#[tactic(auto, using(crate::proofs::ConstraintLemmas::two_read))]
fn modal_by(alloc: Global, word: &[u8], behind: Parts<'_, '_>) -> Result<Modal, NoMemory>
    requires tree { IsSome (modal_by word.now behind) }
    ensures { Gives result (modal_by word.now behind.entry) }
{
    if is(word, b"at") {
        at_end_form(alloc, behind)
    } else if is(word, b"always") {
        Ok(Modal::Always(formula(alloc, only(behind))?))
    } else if is(word, b"sometime") {
        Ok(Modal::Sometime(formula(alloc, only(behind))?))
    } else if is(word, b"at-most-once") {
        Ok(Modal::AtMostOnce(formula(alloc, only(behind))?))
    } else if is(word, b"sometime-after") {
        let (first, second) = two_formulas(alloc, behind)?;
        Ok(Modal::SometimeAfter(first, second))
    } else {
        let (first, second) = two_formulas(alloc, behind)?;
        Ok(Modal::SometimeBefore(first, second))
    }
}

/// An operator over the visited states.
#[inline(never)]
pub fn modal(alloc: Global, view: View<'_, '_>) -> Result<Modal, NoMemory>
    requires tree { IsSome (modal_place (expression_of view)) }
    ensures { Gives result (modal_place (expression_of view.entry)) }
{
    let list = headed(parts(view));
    modal_by(alloc, list.word.text, list.behind)
}

/// An operator over the visited states, as a constraint.
#[inline(never)]
fn single_form(alloc: Global, view: View<'_, '_>) -> Result<Constraint, NoMemory>
    requires tree { IsSome (single_form (expression_of view)) }
    ensures { Gives result (single_form (expression_of view.entry)) }
{
    Ok(Constraint::Single(modal(alloc, view)?))
}

/// The constraints of parts.
#[inline(never)]
#[cycle(constraint_at)]
fn constraints(
    alloc: Global,
    may_be_soft: bool,
    parts: Parts<'_, '_>,
) -> Result<List<Constraint>, NoMemory>
    requires tree { IsSome (each_at (constraint_at may_be_soft) (expressions_of parts)) }
    ensures { Gives result
        (each_at (constraint_at may_be_soft) (expressions_of parts.entry)) }
{
    let mut left = parts;
    let mut found = List::new(alloc);
    while let Some(view) = left.next() {
        // A `?` would keep a second copy of the constraint on the stack of each level.
        match constraint_at(alloc, may_be_soft, view) {
            Ok(constraint) => found.push(constraint)?,
            Err(fault) => return Err(fault),
        }
    }
    Ok(found)
}

/// `(and` constraint* `)`.
#[inline(never)]
#[cycle(constraint_at)]
#[tactic(auto, using(crate::proofs::TreeLemmas::trees_listed))]
fn both_form(
    alloc: Global,
    may_be_soft: bool,
    behind: Parts<'_, '_>,
) -> Result<Constraint, NoMemory>
    requires tree { IsSome (both_constraints may_be_soft behind) }
    ensures { Gives result (both_constraints may_be_soft behind.entry) }
{
    Ok(Constraint::Both(constraints(alloc, may_be_soft, behind)?))
}

#[inline(never)]
#[cycle(constraint_at)]
#[tactic(auto, using(crate::proofs::ConstraintLemmas::each_listed))]
fn each_form(
    alloc: Global,
    may_be_soft: bool,
    behind: Parts<'_, '_>,
) -> Result<Constraint, NoMemory>
    requires tree { IsSome (each_constraint may_be_soft behind) }
    ensures { Gives result (each_constraint may_be_soft behind.entry) }
{
    let (first, second) = pair(behind);
    let variables = variables(alloc, first)?;
    let body = constraint_at(alloc, may_be_soft, second)?;
    Ok(Constraint::Each(variables, Boxed::new(alloc, body)?))
}

#[inline(never)]
#[cycle(constraint_at)]
#[tactic(auto, using(crate::proofs::ConstraintLemmas::preference_listed))]
fn preference_form(
    alloc: Global,
    word: TextWord<'_>,
    behind: Parts<'_, '_>,
) -> Result<Constraint, NoMemory>
    requires tree { IsSome (soft_constraint word behind) }
    ensures { Gives result (soft_constraint word.entry behind.entry) }
{
    let NamedBody { name, body } = named(alloc, behind)?;
    let body = constraint_at(alloc, false, body)?;
    let body = Boxed::new(alloc, body)?;
    Ok(Constraint::Soft {
        at: word.at,
        name,
        body,
    })
}

/// The constraint of a list by its first word.
#[cycle(constraint_at)]
fn constraint_by(
    alloc: Global,
    may_be_soft: bool,
    view: View<'_, '_>,
    word: TextWord<'_>,
    behind: Parts<'_, '_>,
) -> Result<Constraint, NoMemory>
    requires tree { IsSome (constraint_by may_be_soft view word behind) }
    ensures { Gives result
        (constraint_by may_be_soft view.entry word.entry behind.entry) }
{
    // Each form returns, so that all of them share one place for the result on the stack.
    if may_be_soft && is(word.text, b"preference") {
        return preference_form(alloc, word, behind);
    }
    if is(word.text, b"and") {
        return both_form(alloc, may_be_soft, behind);
    }
    if is(word.text, b"forall") {
        return each_form(alloc, may_be_soft, behind);
    }
    single_form(alloc, view)
}

/// The constraint that a view is, with preferences in it where they may stand.
#[cycle(constraint_at)]
#[tactic(auto, using(crate::proofs::ConstraintLemmas::constraint_of_list))]
fn constraint_at(
    alloc: Global,
    may_be_soft: bool,
    view: View<'_, '_>,
) -> Result<Constraint, NoMemory>
    requires tree { IsSome (constraint_at may_be_soft (expression_of view)) }
    ensures { Gives result (constraint_at may_be_soft (expression_of view.entry)) }
{
    let list = headed(parts(view));
    constraint_by(alloc, may_be_soft, view, list.word, list.behind)
}

/// A constraint.
pub fn constraint(alloc: Global, view: View<'_, '_>) -> Result<Constraint, NoMemory>
    requires tree { IsSome (constraint_place (expression_of view)) }
    ensures { Gives result (constraint_place (expression_of view.entry)) }
{
    constraint_at(alloc, true, view)
}

/// A constraint, where an empty list means that nothing is asked.
pub fn constraint_or_empty(alloc: Global, view: View<'_, '_>) -> Result<Constraint, NoMemory>
    requires tree { IsSome (constraint_or_empty_place (expression_of view)) }
    ensures { Gives result (constraint_or_empty_place (expression_of view.entry)) }
{
    let mut parts = parts(view);
    if parts.next().is_none() {
        Ok(Constraint::Both(List::new(alloc)))
    } else {
        constraint(alloc, view)
    }
}
