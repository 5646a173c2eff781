//! The names of the preferences that reasons are of.

ghost use Rattle.std.specs.Prelude.{◌≡◌, ◌-◌, IsTrue, slice_get};
ghost use Rattle.std.specs.List.{All};
ghost use Rattle.std.specs.Option.{option_copied};
ghost use Rattle.p3_task.specs.Plans.{steps_fit};
ghost use Rattle.p3_task.specs.Explanations.{instance_name, subject_name};
ghost use Rattle.p3_ground.specs.StandsFor.{LeftOutAt};
ghost use Rattle.p3_run.specs.Steps.{IsByNumber};
ghost use Rattle.p3_eval.specs.Steps.{OfSteps};
ghost use Rattle.p3_explain.specs.Naming.{
  instance_number,
  name_numbered,
  own_number,
  pref_number,
  pref_number_at,
};

use p3_base::{Name, Subject};
use p3_eval::{Grounded, Steps};
use p3_formula::{GroundStep, GroundTask};
use p3_run::step_at;

/// Gives the name of the preference that a reason is of, where it has one; the reason is one of steps
/// that fit. It takes no memory.
pub fn name_of<'a>(grounded: &Grounded<'a>, steps: &Steps, subject: Subject) -> Option<&'a Name>
    requires asked { All (LeftOutAt grounded.now.checked.now.task grounded.now.ground_task.now)
        steps.now.numbers.items }
    requires fit { OfSteps grounded.now.checked.now.task steps.now
        (λ plan. IsTrue (steps_fit grounded.now.checked.now.task plan)) }
    ensures { OfSteps grounded.now.checked.now.task steps.now (λ plan. option_copied result
        ≡ subject_name grounded.now.checked.now.task plan subject) }
{
    match number_of(grounded, steps, subject) {
        Some(number) => grounded.checked().name(number),
        None => None,
    }
}

/// Gives the number of that name.
fn number_of(grounded: &Grounded<'_>, steps: &Steps, subject: Subject) -> Option<u32>
    requires asked { All (LeftOutAt grounded.now.checked.now.task grounded.now.ground_task.now)
        steps.now.numbers.items }
    requires fit { OfSteps grounded.now.checked.now.task steps.now
        (λ plan. IsTrue (steps_fit grounded.now.checked.now.task plan)) }
    ensures { OfSteps grounded.now.checked.now.task steps.now
        (λ plan. name_numbered grounded.now.checked.now.task result
        ≡ subject_name grounded.now.checked.now.task plan subject) }
{
    match subject {
        Subject::Hard(_) => None,
        Subject::Soft { instance, .. } => number_of_instance(grounded, instance),
        Subject::Pre { step, pref } => number_in_step(grounded, steps, step, pref),
    }
}

/// Gives the number of the name of an instance of a preference over the visited states.
fn number_of_instance(grounded: &Grounded<'_>, instance: u32) -> Option<u32>
    ensures { name_numbered grounded.now.checked.now.task result
        ≡ instance_name grounded.now.checked.now.task instance }
{
    named_instance(grounded.ground_task(), instance)
}

/// Gives the same of a ground task.
fn named_instance(task: &GroundTask, instance: u32) -> Option<u32>
    ensures { result ≡ instance_number task.now instance }
{
    match task.soft.items().get(instance as usize) {
        Some(soft) => soft.name,
        None => None,
    }
}

/// Gives the number of the name of a preference of a step, which is counted from 1.
fn number_in_step(grounded: &Grounded<'_>, steps: &Steps, step: u32, pref: u32) -> Option<u32>
    ensures { result ≡ pref_number_at grounded.now.ground_task.now
        steps.now.numbers.items (step - 1) pref }
{
    match number_at(steps, step) {
        Some(number) => named_preference(grounded, number, pref),
        None => None,
    }
}

/// Gives the number of the step at a place that is counted from 1.
fn number_at(steps: &Steps, place: u32) -> Option<u32>
    ensures { result ≡ slice_get steps.now.numbers.items (place - 1) }
{
    let place = place.saturating_sub(1) as usize;
    steps.numbers.as_slice().get(place).copied()
}

/// Gives the number of the name of a preference of the step of a number, where it is kept.
fn named_preference(grounded: &Grounded<'_>, number: u32, pref: u32) -> Option<u32>
    ensures { result ≡ pref_number grounded.now.ground_task.now number pref }
{
    match step_at(grounded.ground_task().steps.items(), number) {
        Some(step) => own_preference(step, pref),
        None => None,
    }
}

/// Gives the number of the name of a preference of a step.
fn own_preference(step: &GroundStep, pref: u32) -> Option<u32>
    ensures { result ≡ own_number pref step.now }
{
    match step.prefs.items().get(pref as usize) {
        Some(own) => own.name,
        None => None,
    }
}
