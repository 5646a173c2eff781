//! Preconditions and goals with numbers.

ghost use Rattle.std.specs.Prelude.{◌≡◌, map, OnOk, IfOk};
ghost use Rattle.p3_numbers.specs.Conditions.{condition_of};
ghost use Rattle.p3_numbers.specs.Goals.{numbered_name as number_of_name, goal_of};
ghost use Rattle.p3_task.specs.Uses.{formula_uses, goal_uses};
ghost use Rattle.p3_resolve.specs.NumbersOf.{numbers_of};
ghost use Rattle.p3_resolve.specs.Walk.{with_tree, uses_of_each};

use crate::conditions::numbered_formula;
use crate::tables::Tables;
use crate::walk::Walk;
use p3_base::{Boxed, List, NoMemory};
use p3_numbers::{NumberedGoal, NumberedPreference};
use p3_task::{PreGoal, Pref, Ref};
use std::alloc::Global;

/// The number of a preference's name, where it has one.
pub(crate) fn numbered_name(tables: &Tables, name: &Option<Ref>) -> Result<Option<u32>, NoMemory>
    ensures { IfOk result (λ number. number ≡ number_of_name (numbers_of tables.now) name.now) }
{
    match name {
        None => Ok(None),
        Some(name) => {
            let found = tables.preference(&name.name)?;
            Ok(Some(found.number))
        }
    }
}

/// A preference with numbers; what is found in it is noted.
fn numbered_preference<'t>(
    alloc: Global,
    tables: &Tables<'t>,
    walk: &mut Walk<'t>,
    pref: &'t Pref,
) -> Result<NumberedPreference, NoMemory>
    ensures walk { OnOk result
        (walk.new ≡ with_tree tables.now.task.now (formula_uses pref.now.body) walk.old) }
    ensures made { IfOk result
        (λ made. let N = numbers_of tables.now in made ≡ record {
          at = pref.now.at;
          name = number_of_name N pref.now.name;
          body = condition_of N pref.now.body walk.old.words;
        }) }
{
    let name = numbered_name(tables, &pref.name)?;
    let body = numbered_formula(alloc, tables, walk, &pref.body)?;
    Ok(NumberedPreference {
        at: pref.at,
        name,
        body,
    })
}

/// A precondition or a goal with numbers; what is found in it is noted.
#[cycle(goals)]
#[tactic(auto, using(crate::proofs::FormLemmas::goal_laws, crate::proofs::FormLemmas::word_laws, crate::proofs::GoalLemmas::goal_laws))]
pub(crate) fn numbered_goal<'t>(
    alloc: Global,
    tables: &Tables<'t>,
    walk: &mut Walk<'t>,
    goal: &'t PreGoal,
) -> Result<NumberedGoal, NoMemory>
    ensures walk { OnOk result
        (walk.new ≡ with_tree tables.now.task.now (goal_uses goal.now) walk.old) }
    ensures made { IfOk result
        (λ made. made ≡ goal_of (numbers_of tables.now) goal.now walk.old.words) }
{
    match goal {
        PreGoal::Plain(formula) => {
            let condition = numbered_formula(alloc, tables, walk, formula)?;
            Ok(NumberedGoal::Plain(condition))
        }
        PreGoal::Both(parts) => {
            let parts = numbered_goals(alloc, tables, walk, parts.items())?;
            Ok(NumberedGoal::Both(parts))
        }
        PreGoal::Each(variables, body) => {
            let ranges = walk.enter(alloc, tables, variables.items())?;
            let body = boxed_goal(alloc, tables, walk, body.get())?;
            walk.leave(variables.items());
            Ok(NumberedGoal::Each(ranges, body))
        }
        PreGoal::Soft(pref) => {
            let preference = numbered_preference(alloc, tables, walk, pref.get())?;
            Ok(NumberedGoal::Soft(preference))
        }
    }
}

/// A precondition or a goal with numbers, in a box.
#[cycle(goals)]
pub(crate) fn boxed_goal<'t>(
    alloc: Global,
    tables: &Tables<'t>,
    walk: &mut Walk<'t>,
    goal: &'t PreGoal,
) -> Result<Boxed<NumberedGoal>, NoMemory>
    ensures walk { OnOk result
        (walk.new ≡ with_tree tables.now.task.now (goal_uses goal.now) walk.old) }
    ensures made { IfOk result
        (λ made. made ≡ goal_of (numbers_of tables.now) goal.now walk.old.words) }
{
    let made = numbered_goal(alloc, tables, walk, goal)?;
    let boxed = Boxed::new(alloc, made)?;
    Ok(boxed)
}

/// Each precondition or goal with numbers.
#[cycle(goals)]
#[tactic(auto, using(crate::proofs::FormLemmas::more_laws))]
fn numbered_goals<'t>(
    alloc: Global,
    tables: &Tables<'t>,
    walk: &mut Walk<'t>,
    parts: &'t [PreGoal],
) -> Result<List<NumberedGoal>, NoMemory>
    ensures walk { OnOk result (walk.new
        ≡ with_tree tables.now.task.now (uses_of_each goal_uses parts.now) walk.old) }
    ensures made { IfOk result
        (λ made. made ≡ map
        (λ part. goal_of (numbers_of tables.now) part walk.old.words) parts.now) }
{
    let mut made = List::with_capacity(alloc, parts.len())?;
    for part in parts {
        made.push(numbered_goal(alloc, tables, walk, part)?)?;
    }
    Ok(made)
}
