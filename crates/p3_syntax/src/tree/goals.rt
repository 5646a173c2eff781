//! Preconditions and goals.

ghost use Rattle.std.specs.Prelude.{◌≡◌, ◌<◌, Some, length, IfOk, IsSome};
ghost use Rattle.p3_task.specs.Grammar.Words.{each_at};
ghost use Rattle.p3_task.specs.Grammar.Goals.{goal_place, goal_or_empty_place, preferred};
ghost use Rattle.p3_outline.specs.Nodes.{expression_of, expressions_of};
ghost use Rattle.p3_syntax.specs.Reading.{Gives};
ghost use Rattle.p3_syntax.specs.Trees.{each_goal, goal_by, the_named};

use crate::tree::formulas::{formula, formula_by};
use crate::tree::lists::{room_for, variables};
use crate::tree::parts::{headed, pair, parts};
use crate::tree::words::{TextWord, name};
use p3_base::{Boxed, List, NoMemory};
use p3_lexer::is;
use p3_outline::{Parts, View};
use p3_task::{PreGoal, Pref, Ref};
use std::alloc::Global;

/// What stands behind the word `preference`.
#[derive(Drop)]
pub struct NamedBody<'o, 'a> {
    /// The name, where there is one.
    pub name: Option<Ref>,
    /// What is preferred.
    pub body: View<'o, 'a>,
}

/// What is preferred, behind its name where it has one.
#[inline(never)]
pub fn named<'o, 'a>(alloc: Global, mut parts: Parts<'o, 'a>) -> Result<NamedBody<'o, 'a>, NoMemory>
    requires tree { IsSome (preferred Some (expressions_of parts)) }
    ensures named { IfOk result (λ found.
        preferred Some (expressions_of parts.entry) ≡ Some (the_named found)) }
    ensures less { IfOk result (λ found.
        length found.body.below.now < length parts.entry.nodes.now) }
{
    let first = parts.next().unwrap();
    let Some(body) = parts.next() else {
        return Ok(NamedBody {
            name: None,
            body: first,
        });
    };
    let name = Some(name(alloc, first)?);
    Ok(NamedBody { name, body })
}

/// The goals of parts.
#[inline(never)]
#[cycle(goal)]
fn goals(alloc: Global, parts: Parts<'_, '_>) -> Result<List<PreGoal>, NoMemory>
    requires tree { IsSome (each_at goal_place (expressions_of parts)) }
    ensures { Gives result (each_at goal_place (expressions_of parts.entry)) }
{
    let mut left = parts;
    let mut found = room_for(alloc, parts)?;
    while let Some(view) = left.next() {
        found.push(goal(alloc, view)?)?;
    }
    Ok(found)
}

#[inline(never)]
#[cycle(goal)]
#[tactic(auto, using(crate::proofs::GoalLemmas::each_listed))]
fn each_form(alloc: Global, behind: Parts<'_, '_>) -> Result<PreGoal, NoMemory>
    requires tree { IsSome (each_goal behind) }
    ensures { Gives result (each_goal behind.entry) }
{
    let (first, second) = pair(behind);
    let variables = variables(alloc, first)?;
    let body = goal(alloc, second)?;
    Ok(PreGoal::Each(variables, Boxed::new(alloc, body)?))
}

/// The goal of a list by its first word.
#[cycle(goal)]
#[tactic(auto, using(crate::proofs::TreeLemmas::trees_listed, crate::proofs::GoalLemmas::preference_listed))]
fn goal_by(alloc: Global, word: TextWord<'_>, behind: Parts<'_, '_>) -> Result<PreGoal, NoMemory>
    requires tree { IsSome (goal_by word behind) }
    ensures { Gives result (goal_by word.entry behind.entry) }
{
    if is(word.text, b"and") {
        Ok(PreGoal::Both(goals(alloc, behind)?))
    } else if is(word.text, b"forall") {
        each_form(alloc, behind)
    } else if is(word.text, b"preference") {
        let NamedBody { name, body } = named(alloc, behind)?;
        let body = formula(alloc, body)?;
        let pref = Pref {
            at: word.at,
            name,
            body,
        };
        Ok(PreGoal::Soft(Boxed::new(alloc, pref)?))
    } else {
        Ok(PreGoal::Plain(formula_by(alloc, word, behind)?))
    }
}

/// The precondition or goal that a view is.
#[cycle(goal)]
#[tactic(auto, using(crate::proofs::GoalLemmas::goal_of_list))]
pub fn goal(alloc: Global, view: View<'_, '_>) -> Result<PreGoal, NoMemory>
    requires tree { IsSome (goal_place (expression_of view)) }
    ensures { Gives result (goal_place (expression_of view.entry)) }
{
    let list = headed(parts(view));
    goal_by(alloc, list.word, list.behind)
}

/// A precondition or goal, where an empty list means that nothing is asked.
pub fn goal_or_empty(alloc: Global, view: View<'_, '_>) -> Result<PreGoal, NoMemory>
    requires tree { IsSome (goal_or_empty_place (expression_of view)) }
    ensures { Gives result (goal_or_empty_place (expression_of view.entry)) }
{
    let mut parts = parts(view);
    if parts.next().is_none() {
        Ok(PreGoal::Both(List::new(alloc)))
    } else {
        goal(alloc, view)
    }
}
