//! Questions about the states of a plan.

use crate::lists::one;
use p3_base::{List, Name, NoMemory};
use p3_numbers::{
    NumberedAction, NumberedArgument, NumberedCondition, NumberedConstraint, NumberedEffect,
    NumberedGoal, NumberedTask, Numbers,
};
use p3_reasons::{Decision, PlacedStep};
use p3_scenes::{Asked, Question, answers};
use std::alloc::Global;
use std::test::Fail;

/// A predicate and an object.
fn numbers(alloc: Global) -> Result<Numbers, NoMemory> {
    let predicates = one(alloc, Name::of(alloc, b"p")?)?;
    let objects = one(alloc, Name::of(alloc, b"a")?)?;
    Ok(Numbers {
        predicates,
        functions: List::new(alloc),
        objects,
        preferences: List::new(alloc),
        types: List::new(alloc),
        ranges: List::new(alloc),
    })
}

/// An action without parameters that makes the predicate true of the object.
fn action(alloc: Global) -> Result<NumberedAction, NoMemory> {
    let args = one(alloc, NumberedArgument::Object(0))?;
    Ok(NumberedAction {
        ranges: List::new(alloc),
        pre: NumberedGoal::Both(List::new(alloc)),
        effect: NumberedEffect::Add { predicate: 0, args },
    })
}

/// A task with that action, in whose initial state nothing is true.
fn task(alloc: Global) -> Result<NumberedTask, NoMemory> {
    let actions = one(alloc, action(alloc)?)?;
    let numbers = numbers(alloc)?;
    Ok(NumberedTask {
        numbers,
        actions,
        domain_constraints: NumberedConstraint::Both(List::new(alloc)),
        problem_constraints: NumberedConstraint::Both(List::new(alloc)),
        goal: NumberedGoal::Both(List::new(alloc)),
        start: List::new(alloc),
        values: List::new(alloc),
    })
}

/// The condition that the predicate is true of the object.
fn condition(alloc: Global) -> Result<NumberedCondition, NoMemory> {
    let args = one(alloc, NumberedArgument::Object(0))?;
    Ok(NumberedCondition::Atom { predicate: 0, args })
}

/// Asks whether the condition holds in the second state and in the first, in this order.
fn decisions(
    alloc: Global,
    task: &NumberedTask,
    condition: &NumberedCondition,
) -> Result<List<Decision>, NoMemory> {
    let asked = Asked::Condition(condition);
    let questions = [
        Question {
            state: 1,
            asked,
            slots: &[],
        },
        Question {
            state: 0,
            asked,
            slots: &[],
        },
    ];
    let step = PlacedStep {
        action: 0,
        objects: List::new(alloc),
    };
    let steps = one(alloc, step)?;
    let found = answers(alloc, task, steps.items(), &questions);
    drop(steps);
    found
}

/// Gives what is decided, for the condition that the predicate is true of the object.
fn decided(alloc: Global) -> Result<List<Decision>, NoMemory> {
    let condition = condition(alloc)?;
    let task = task(alloc)?;
    let found = decisions(alloc, &task, &condition);
    drop(task);
    drop(condition);
    found
}

/// Whether the predicate is true of the object in the second state and in the first, asked in this
/// order.
fn told(alloc: Global) -> Result<(bool, bool), NoMemory> {
    let found = decided(alloc)?;
    let told = match (found.get(0), found.get(1)) {
        (Some(second), Some(first)) => Ok((second.holds, first.holds)),
        _ => Err(NoMemory),
    };
    drop(found);
    told
}

#[test]
fn answers_come_in_the_order_of_the_questions(rt: HostRuntime) -> Result<(), Fail> {
    let (second, first) = told(rt.alloc())?;
    assert!(&rt; second);
    assert!(&rt; !first);
    Ok(())
}
