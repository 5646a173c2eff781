//! Answers to questions about the states of a plan, in one run over it.

ghost use Rattle.std.specs.Prelude.{◌≡◌, ◌≤◌, None, Some, map, slice_get, slice_set};
ghost use Rattle.std.specs.Prelude.{IfOk, IfSome, OnOk};
ghost use Rattle.std.specs.List.{All};
ghost use Rattle.std.specs.List.Sorted.{IsNonDecreasingBy, IsPermutation};
ghost use Rattle.p3_reasons.specs.Effects.{truth_of};
ghost use Rattle.p3_scenes.specs.Questions.{answer_to, asked_decided};
ghost use Rattle.p3_scenes.specs.Answers.{AreAnswers, IsBehind, places_from};

use crate::{Asked, Question};
use p3_base::{List, NoMemory};
use p3_numbers::NumberedTask;
use p3_reasons::{Decision, PlacedStep, StateFacts, decide_condition, decide_hard_part};
use std::alloc::Global;

/// The answer to what is asked, in the state of which the facts are.
fn decision(
    alloc: Global,
    task: &NumberedTask,
    facts: &StateFacts,
    question: &Question<'_>,
) -> Result<Decision, NoMemory>
    ensures { IfOk result (λ decision. decision ≡ asked_decided
        task.now (truth_of facts.now) question.now.slots.now question.now.asked) }
{
    match question.asked {
        Asked::Condition(condition) => {
            decide_condition(alloc, &task.numbers, facts, question.slots, condition)
        }
        Asked::HardPart(goal) => {
            decide_hard_part(alloc, &task.numbers, facts, question.slots, goal)
        }
    }
}

/// Does the steps from one state to another, so that the facts are those of the second.
fn follow(
    alloc: Global,
    task: &NumberedTask,
    steps: &[PlacedStep],
    facts: &mut StateFacts,
    from: usize,
    to: usize,
) -> Result<(), NoMemory>
    requires order { from ≤ to }
    requires behind { IsBehind task.now steps.now from facts.old }
    ensures { OnOk result (IsBehind task.now steps.now to facts.new) }
{
    for place in from..to {
        match steps.get(place) {
            Some(step) => facts.step(alloc, task, step)?,
            None => return Ok(()),
        }
    }
    Ok(())
}

/// The places of the questions, those of earlier states first.
fn by_state(alloc: Global, questions: &[Question<'_>]) -> Result<Vec<(u32, usize)>, NoMemory>
    ensures all { IfOk result (λ order. IsPermutation (places_from 0 questions.now) order.items) }
    ensures rising { IfOk result (λ order. IsNonDecreasingBy (λ pair. pair.0) order.items) }
{
    let mut pairs = Vec::new(alloc);
    for place in 0..questions.len() {
        pairs.push((questions[place].state, place))?;
    }
    pairs.sort_by_key(|pair| pair.0)?;
    Ok(pairs)
}

/// No answer yet to any of so many questions.
fn unanswered(alloc: Global, count: usize) -> Result<Vec<Option<Decision>>, NoMemory>
    ensures { IfOk result (λ found. All (λ answer. answer ≡ None) found.items) }
{
    let mut found = Vec::new(alloc);
    for _ in 0..count {
        found.push(None)?;
    }
    Ok(found)
}

/// Notes the answer to the question at a place.
fn note(found: &mut Vec<Option<Decision>>, place: usize, decision: Decision)
    ensures { found.new.items ≡ slice_set found.old.items place (Some decision) }
{
    if let Some(slot) = found.get_mut(place) {
        *slot = Some(decision);
    }
}

/// Answers the question at a place, and notes the answer; one about a state before those done is
/// left out. It answers how many steps are done then.
fn answer_next(
    alloc: Global,
    task: &NumberedTask,
    steps: &[PlacedStep],
    questions: &[Question<'_>],
    place: usize,
    done: usize,
    facts: &mut StateFacts,
    found: &mut Vec<Option<Decision>>,
) -> Result<usize, NoMemory>
    requires behind { IsBehind task.now steps.now done facts.old }
    requires answers { AreAnswers task.now steps.now questions.now found.old.items }
    ensures behind { IfOk result (λ done. IsBehind task.now steps.now done facts.new) }
    ensures answers { OnOk result (AreAnswers task.now steps.now questions.now found.new.items) }
{
    let Some(question) = questions.get(place) else {
        return Ok(done);
    };
    let state = question.state as usize;
    if state < done {
        return Ok(done);
    }
    follow(alloc, task, steps, facts, done, state)?;
    let decision = decision(alloc, task, &*facts, question)?;
    note(found, place, decision);
    Ok(state)
}

/// The answers to the questions at the places of an order, in one run over the plan.
fn answers_along(
    alloc: Global,
    task: &NumberedTask,
    steps: &[PlacedStep],
    questions: &[Question<'_>],
    order: &[(u32, usize)],
) -> Result<Vec<Option<Decision>>, NoMemory>
    ensures { IfOk result
        (λ found. AreAnswers task.now steps.now questions.now found.items) }
{
    let mut found = unanswered(alloc, questions.len())?;
    let mut facts = StateFacts::at_start(alloc, task)?;
    let mut done = 0;
    for pair in order {
        let (facts, found) = (&mut facts, &mut found);
        done = answer_next(alloc, task, steps, questions, pair.1, done, facts, found)?;
    }
    Ok(found)
}

/// The answer to a question: the one that is known, or else it runs over the plan for it.
fn answer(
    alloc: Global,
    task: &NumberedTask,
    steps: &[PlacedStep],
    question: &Question<'_>,
    known: Option<Decision>,
) -> Result<Decision, NoMemory>
    requires { IfSome known (λ decision. decision ≡ answer_to task.now steps.now question.now) }
    ensures { IfOk result (λ decision. decision ≡ answer_to task.now steps.now question.now) }
{
    if let Some(decision) = known {
        return Ok(decision);
    }
    let mut facts = StateFacts::at_start(alloc, task)?;
    follow(alloc, task, steps, &mut facts, 0, question.state as usize)?;
    let decision = decision(alloc, task, &facts, question)?;
    Ok(decision)
}

/// Takes the answer at a place, where there is one.
fn taken(found: &mut Vec<Option<Decision>>, place: usize) -> Option<Decision>
    ensures answer { IfSome result
        (λ decision. slice_get found.old.items place ≡ Some (Some decision)) }
    ensures left { found.new.items ≡ slice_set found.old.items place None }
{
    match found.get_mut(place) {
        Some(slot) => slot.take(),
        None => None,
    }
}

/// The answers in the order of the questions. All have been found; one that was not is looked for
/// now.
fn in_order(
    alloc: Global,
    task: &NumberedTask,
    steps: &[PlacedStep],
    questions: &[Question<'_>],
    found: &mut Vec<Option<Decision>>,
) -> Result<List<Decision>, NoMemory>
    requires { AreAnswers task.now steps.now questions.now found.old.items }
    ensures { IfOk result (λ list. list ≡ map (answer_to task.now steps.now) questions.now) }
{
    let mut answers = List::new(alloc);
    for place in 0..questions.len() {
        let known = taken(found, place);
        let decision = answer(alloc, task, steps, &questions[place], known)?;
        answers.push(decision)?;
    }
    Ok(answers)
}

/// Answers questions about the states of a plan, in the order of the questions. It runs over the
/// plan once, whatever their number, as far as the last state that is asked about.
///
/// # Errors
///
/// Want of memory.
pub fn answers(
    alloc: Global,
    task: &NumberedTask,
    steps: &[PlacedStep],
    questions: &[Question<'_>],
) -> Result<List<Decision>, NoMemory>
    ensures { IfOk result (λ list. list ≡ map (answer_to task.now steps.now) questions.now) }
{
    let order = by_state(alloc, questions)?;
    let mut found = answers_along(alloc, task, steps, questions, order.as_slice())?;
    in_order(alloc, task, steps, questions, &mut found)
}
