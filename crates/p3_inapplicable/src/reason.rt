//! Why a step does not fit.

ghost use Rattle.std.specs.Prelude.{◌≡◌, ◌<◌, ◌≤◌, Some, None};
ghost use Rattle.std.specs.Prelude.{length, slice_get, IfOk, IfSome, MatchOption};
ghost use Rattle.p3_task.specs.Offences.{WellFormed};
ghost use Rattle.p3_numbers.specs.Tasks.{IsNumberedTask};
ghost use Rattle.p3_types.specs.Finds.{HasOtherArguments};
ghost use Rattle.p3_accounts.specs.declared.subject.StepFault.{StepFault as Fault};
ghost use Rattle.p3_reports.specs.Faults.{misfit_of};
ghost use Rattle.p3_inapplicable.specs.Headings.{HasFaultyArguments, IsReasonIn};
ghost use Rattle.p3_inapplicable.specs.Reasons.{
  action_in,
  AreOfTheOne,
  deciding,
  IsPlain,
  NamesValue,
  ShowsStep,
};

use crate::argument::argument_fault;
use crate::value::missing_value;
use p3_accounts::{Shown, ShownState, StepFault};
use p3_base::{List, Name, NoMemory};
use p3_numbers::{NumberedAction, NumberedTask};
use p3_reasons::{Decision, Literal, PlacedStep};
use p3_reports::Misfit;
use p3_scenes::{Asked, Question, answers};
use p3_steps::EffectCosts;
use p3_task::{Action, Step, Task};
use p3_types::Checked;
use std::alloc::Global;

/// Why a step does not fit, and where that shows.
#[derive(Drop)]
pub(crate) struct Reason {
    pub(crate) fault: StepFault,
    pub(crate) shown: Shown,
}

impl Reason {
    /// Makes one that no state shows.
    fn plain(alloc: Global, fault: StepFault) -> Reason
        ensures { IsPlain fault result }
    {
        Reason {
            fault,
            shown: Shown::States(List::new(alloc)),
        }
    }

    /// Makes one of a fault that was found. Where none was it says that the action is unknown.
    fn found(alloc: Global, fault: Option<StepFault>) -> Reason
        ensures { (own : Fault) → fault ≡ Some own → IsPlain own result }
    {
        match fault {
            Some(fault) => Reason::plain(alloc, fault),
            None => Reason::plain(alloc, StepFault::UnknownAction),
        }
    }
}

/// Finds the place of the first action of that name.
fn action_place(actions: &[Action], name: &Name) -> Option<usize>
    ensures within { IfSome result (λ place. place < length actions.now) }
    ensures found { MatchOption result (action_in actions.now name.now ≡ None)
        (λ place. slice_get actions.now place ≡ action_in actions.now name.now) }
{
    for place in 0..actions.len() {
        if actions[place].name.name.bytes() == name.bytes() {
            return Some(place);
        }
    }
    None
}

/// Says which arguments of a step are not its action's.
fn arguments_reason(
    alloc: Global,
    task: &Task,
    numbered: &NumberedTask,
    step: &Step,
) -> Result<Reason, NoMemory>
    requires well_formed { WellFormed task.now }
    requires numbered { IsNumberedTask task.now numbered.now }
    ensures { IfOk result (λ reason. HasOtherArguments task.now step.now
        → HasFaultyArguments task.now step.now reason) }
{
    let actions = task.domain.actions.items();
    let Some(place) = action_place(actions, &step.action) else {
        return Ok(Reason::plain(alloc, StepFault::UnknownAction));
    };
    let parameters = actions[place].params.items();
    let ranges = numbered.actions.items()[place].ranges.items();
    let names = step.args.items();
    let fault = argument_fault(alloc, &numbered.numbers, parameters, ranges, names)?;
    Ok(Reason::found(alloc, fault))
}

/// Takes the literals of the one decision.
fn literals_of(alloc: Global, decisions: List<Decision>) -> List<Literal>
    ensures { AreOfTheOne decisions result }
{
    let mut decisions = decisions.into_items();
    match decisions.pop() {
        Some(Decision { literals, .. }) => literals,
        None => List::new(alloc),
    }
}

/// Finds literals that decide the precondition of an action in the state behind so many steps.
fn deciding_literals(
    alloc: Global,
    task: &NumberedTask,
    steps: &[PlacedStep],
    state: u32,
    placed: &PlacedStep,
    action: &NumberedAction,
) -> Result<List<Literal>, NoMemory>
    ensures { IfOk result (λ literals. literals
        ≡ deciding task.now steps.now state placed.now action.now) }
{
    let question = Question {
        state,
        asked: Asked::HardPart(&action.pre),
        slots: placed.objects.items(),
    };
    let decisions = answers(alloc, task, steps, &[question])?;
    Ok(literals_of(alloc, decisions))
}

/// Says by which literals the precondition of the step at a place does not hold.
fn precondition_reason(
    alloc: Global,
    task: &NumberedTask,
    steps: &[PlacedStep],
    place: u32,
) -> Result<Reason, NoMemory>
    ensures { IfOk result (ShowsStep task.now steps.now place) }
{
    let Some(placed) = steps.get(place as usize) else {
        return Ok(Reason::plain(alloc, StepFault::Precondition));
    };
    let Some(action) = task.actions.get(placed.action as usize) else {
        return Ok(Reason::plain(alloc, StepFault::Precondition));
    };
    let literals = deciding_literals(alloc, task, steps, place, placed, action)?;
    let mut states = List::new(alloc);
    states.push(ShownState::of(place, literals))?;
    Ok(Reason {
        fault: StepFault::Precondition,
        shown: Shown::States(states),
    })
}

/// Says which value is not given that the cost of the step at a place reads.
fn cost_reason(
    alloc: Global,
    task: &NumberedTask,
    places: u32,
    steps: &[PlacedStep],
    place: u32,
) -> Result<Reason, NoMemory>
    requires { places ≤ 6 }
    ensures { IfOk result (NamesValue places task.now steps.now place) }
{
    let Some(placed) = steps.get(place as usize) else {
        return Ok(Reason::plain(alloc, StepFault::Precondition));
    };
    let Some(action) = task.actions.get(placed.action as usize) else {
        return Ok(Reason::plain(alloc, StepFault::Precondition));
    };
    let costs = EffectCosts::of(alloc, task.values.items(), places)?;
    match missing_value(alloc, &costs, placed.objects.items(), &action.effect)? {
        Some(value) => Ok(Reason::plain(alloc, StepFault::NoValue(value))),
        None => Ok(Reason::plain(alloc, StepFault::Precondition)),
    }
}

/// Says why the step of that number, counted from 1, does not fit, where it is of that kind.
pub(crate) fn reason_of(
    alloc: Global,
    checked: &Checked,
    steps: &[PlacedStep],
    number: u32,
    step: &Step,
    kind: Misfit,
) -> Result<Reason, NoMemory>
    ensures { IfOk result (IsReasonIn checked.now.task checked.now.numbered steps.now number
        step.now (misfit_of kind)) }
{
    let place = number.saturating_sub(1);
    let (task, numbered) = (checked.task(), checked.numbered());
    match kind {
        Misfit::UnknownAction => Ok(Reason::plain(alloc, StepFault::UnknownAction)),
        Misfit::Arguments => {
            let reason = arguments_reason(alloc, task, numbered, step)?;
            Ok(reason)
        }
        Misfit::Precondition => {
            let reason = precondition_reason(alloc, numbered, steps, place)?;
            Ok(reason)
        }
        Misfit::NoCost => {
            let reason = cost_reason(alloc, numbered, checked.cost_places(), steps, place)?;
            Ok(reason)
        }
    }
}
