//! The conditions that `and` alone joins in a precondition, and whether all of them may hold.

ghost use Rattle.std.specs.Prelude.{◌≡◌, IfOk, OnOk};
ghost use Rattle.p3_steps.specs.Conjuncts.{AreConjuncts, Joins, JoinsAll, JoinsAllGoals, JoinsGoal};
ghost use Rattle.p3_steps.specs.Possible.{may_yet_begin};

use crate::possible::condition_may;
use p3_base::NoMemory;
use p3_expansion::Statics;
use p3_numbers::{NumberedCondition, NumberedGoal, Numbers};
use std::alloc::Global;

/// Puts the conditions that `and` alone joins in a condition behind those found.
#[cycle(conditions)]
#[tactic(auto, using(crate::proofs::PossibleLemmas::condition_laws))]
fn push_joined<'t>(
    found: &mut Vec<&'t NumberedCondition>,
    condition: &'t NumberedCondition,
) -> Result<(), NoMemory>
    ensures { OnOk result (Joins condition.now found.old.items found.new.items) }
{
    match condition {
        NumberedCondition::And(parts) => {
            push_all_joined(found, parts.items())?;
            Ok(())
        }
        _ => {
            found.push(condition)?;
            Ok(())
        }
    }
}

/// Puts the conditions that `and` alone joins in each of the parts behind those found.
#[cycle(conditions)]
fn push_all_joined<'t>(
    found: &mut Vec<&'t NumberedCondition>,
    parts: &'t [NumberedCondition],
) -> Result<(), NoMemory>
    ensures { OnOk result (JoinsAll parts.now found.old.items found.new.items) }
{
    for part in parts {
        push_joined(found, part)?;
    }
    Ok(())
}

/// Puts the conditions that `and` alone joins in a precondition behind those found.
#[cycle(goals)]
#[tactic(auto, using(crate::proofs::PossibleLemmas::goal_laws))]
fn push_conjuncts<'t>(
    found: &mut Vec<&'t NumberedCondition>,
    goal: &'t NumberedGoal,
) -> Result<(), NoMemory>
    ensures { OnOk result (JoinsGoal goal.now found.old.items found.new.items) }
{
    match goal {
        NumberedGoal::Plain(condition) => {
            push_joined(found, condition)?;
            Ok(())
        }
        NumberedGoal::Both(parts) => {
            push_all_conjuncts(found, parts.items())?;
            Ok(())
        }
        NumberedGoal::Each(_, _) => Ok(()),
        NumberedGoal::Soft(_) => Ok(()),
    }
}

/// Puts the conditions that `and` alone joins in each of the parts behind those found.
#[cycle(goals)]
fn push_all_conjuncts<'t>(
    found: &mut Vec<&'t NumberedCondition>,
    parts: &'t [NumberedGoal],
) -> Result<(), NoMemory>
    ensures { OnOk result (JoinsAllGoals parts.now found.old.items found.new.items) }
{
    for part in parts {
        push_conjuncts(found, part)?;
    }
    Ok(())
}

/// The conditions that `and` alone joins in a precondition.
fn conjuncts_of<'t>(
    alloc: Global,
    goal: &'t NumberedGoal,
) -> Result<Vec<&'t NumberedCondition>, NoMemory>
    ensures { IfOk result (λ conjuncts. AreConjuncts goal.now conjuncts.items) }
{
    let mut conjuncts = Vec::new(alloc);
    push_conjuncts(&mut conjuncts, goal)?;
    Ok(conjuncts)
}

/// A precondition as the conditions that `and` alone joins in it, and what it is tested by.
#[derive(Drop)]
pub(crate) struct Test<'t> {
    pub(crate) numbers: &'t Numbers,
    pub(crate) statics: &'t Statics,
    pub(crate) goal: &'t NumberedGoal,
    pub(crate) conjuncts: Vec<&'t NumberedCondition>,
    ghost are: { ∥ AreConjuncts goal.now conjuncts.items ∥₁ },
}

impl<'t> Test<'t> {
    /// The test of a precondition.
    pub(crate) fn of(
        alloc: Global,
        numbers: &'t Numbers,
        statics: &'t Statics,
        goal: &'t NumberedGoal,
    ) -> Result<Test<'t>, NoMemory>
        ensures numbers { IfOk result (λ test. test.numbers.now ≡ numbers.now) }
        ensures statics { IfOk result (λ test. test.statics.now ≡ statics.now) }
        ensures goal { IfOk result (λ test. test.goal.now ≡ goal.now) }
    {
        let conjuncts = conjuncts_of(alloc, goal)?;
        Ok(Test {
            numbers,
            statics,
            goal,
            conjuncts,
        })
    }

    /// Whether the precondition may yet begin where the first objects are those in the slots.
    pub(crate) fn may_yet_begin(
        &self,
        words: &mut Vec<u32>,
        slots: &[u32],
    ) -> Result<bool, NoMemory>
        ensures { IfOk result (λ may. may
            ≡ may_yet_begin self.now.numbers.now self.now.statics.now slots.now self.now.goal.now) }
    {
        for condition in self.conjuncts.as_slice() {
            let may = condition_may(
                self.numbers,
                self.statics,
                words,
                false,
                slots,
                condition,
                true,
            )?;
            if !may {
                return Ok(false);
            }
        }
        Ok(true)
    }
}
