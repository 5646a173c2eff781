//! The actions of the steps.

ghost use Rattle.std.specs.Prelude.{◌≡◌, ◌++◌, ◌<◌, ◌+◌, ◌^◌, length, IfOk, OnOk, IsSome, IsTrue, true};
ghost use Rattle.std.specs.List.{All, list_all, list_any};
ghost use Rattle.p3_formula.specs.Conditions.{is_tidy_action, width_limit};
ghost use Rattle.p3_formula.specs.Weighted.{AreNamedBelow, width_of};
ghost use Rattle.p3_formula.specs.Targets.{is_sized_change};
ghost use Rattle.p3_formula.specs.declared.task.GroundStep.{GroundStep};
ghost use Rattle.p3_precprefs.specs.Questions.{IsChain};
ghost use Rattle.p3_simulation.specs.Naming.{is_wide};
ghost use Rattle.p3_compile.specs.Parts.{actions_of};
ghost use Rattle.p3_compile.specs.Stepping.{IsFrame, IsStepReady, HasActions, HasRoom};
ghost use Rattle.p3_compile.specs.Updated.{HasTidyConditions};

use crate::changes::{GuardedStep, guarded_step, step_changes};
use crate::narrow::narrow_copies;
use crate::parts::StepParts;
use crate::weighing::{has_many_weights, is_wide};
use p3_base::{List, NoMemory};
use p3_formula::{Effects, GroundStep, TargetAction, Weights};
use p3_monitors::{FormsByAtom, Monitor};
use p3_precprefs::ask;
use p3_regress::PartReader;
use std::alloc::Global;

/// What the actions of all steps share.
#[derive(Drop)]
pub(crate) struct Frame {
    /// The monitors of all constraints, those of the hard ones first.
    pub(crate) monitors: List<Monitor>,
    /// How many of them are of hard constraints.
    pub(crate) hard: usize,
    /// Which of them read an atom, by rising atom.
    pub(crate) readers: Vec<PartReader>,
    /// The parts of the forms of each by the atoms that they read.
    pub(crate) by_atom: Vec<FormsByAtom>,
    /// The running atom.
    pub(crate) go: usize,
    /// The first question atom.
    pub(crate) first: usize,
}

/// Whether some step is wide, so that there are question atoms.
pub(crate) fn has_wide(by_name: &List<u64>, steps: &[GroundStep]) -> bool
    requires { All (λ (step : GroundStep). AreNamedBelow (length by_name.now) step.prefs)
        steps.now }
    ensures { result ≡ list_any (is_wide by_name.now) steps.now }
{
    for step in steps {
        if is_wide(by_name, step) {
            return true;
        }
    }
    false
}

/// The chain of a wide step, whose own current atom is that one. The next one is that of the next
/// wide step.
fn chain_actions(
    alloc: Global,
    current: &mut usize,
    frame: &Frame,
    weights: &Weights,
    step: &GroundStep,
    effects: &Effects,
) -> Result<List<TargetAction>, NoMemory>
    requires ready { IsStepReady frame.now weights.now step.now }
    requires cost { IsSome step.now.cost }
    requires wide { 8 < width_of weights.now.by_name step.now }
    requires effects { list_all (is_sized_change frame.now.go) effects.now ≡ true }
    requires questions { frame.now.go < frame.now.first }
    requires room { frame.now.first + width_limit < current.old }
    requires small { current.old + 1 < 2 ^ 64 }
    ensures next { OnOk result (current.new ≡ current.old + 1) }
    ensures chain { IfOk result (IsChain frame.now.go frame.now.first current.old
        weights.now step.now effects.now) }
    ensures tidy { HasTidyConditions effects.now
        → IfOk result (λ actions. IsTrue (list_all is_tidy_action actions)) }
{
    let own = *current;
    *current += 1;
    ask(alloc, step, effects, weights, frame.go, frame.first, own)
}

/// What a step that has a cost comes to. A step whose copies are made gives its precondition and
/// its changes.
fn costed_parts(
    alloc: Global,
    current: &mut usize,
    frame: &Frame,
    weights: &Weights,
    step: &mut GroundStep,
) -> Result<StepParts, NoMemory>
    requires frame { IsFrame frame.now }
    requires ready { IsStepReady frame.now weights.now step.old }
    requires cost { IsSome step.old.cost }
    requires room { HasRoom frame.now weights.now step.old current.old }
    ensures { IfOk result (λ parts.
        HasActions frame.now weights.now step.old current.old current.new (actions_of parts)) }
{
    if has_many_weights(&weights.by_name, step) {
        let effects = step_changes(alloc, frame, step)?;
        let actions = chain_actions(alloc, current, frame, weights, step, &effects)?;
        return Ok(StepParts::Actions(actions));
    }
    let made = guarded_step(alloc, frame, step)?;
    let GuardedStep { pre, effects } = made;
    let copies = narrow_copies(alloc, step, pre, effects, weights, frame.go)?;
    Ok(StepParts::Copies(copies))
}

/// The actions stand behind the others.
pub(crate) fn push_all(
    actions: &mut List<TargetAction>,
    more: List<TargetAction>,
) -> Result<(), NoMemory>
    ensures { OnOk result (actions.new ≡ actions.old ++ more) }
{
    for action in more.into_items() {
        actions.push(action)?;
    }
    Ok(())
}

/// What a step comes to, of which it may take parts. Without a cost it has no action.
fn taken_parts(
    alloc: Global,
    current: &mut usize,
    frame: &Frame,
    weights: &Weights,
    step: &mut GroundStep,
) -> Result<StepParts, NoMemory>
    requires frame { IsFrame frame.now }
    requires ready { IsStepReady frame.now weights.now step.old }
    requires room { HasRoom frame.now weights.now step.old current.old }
    ensures { IfOk result (λ parts.
        HasActions frame.now weights.now step.old current.old current.new (actions_of parts)) }
{
    if step.cost.is_some() {
        return costed_parts(alloc, current, frame, weights, step);
    }
    Ok(StepParts::Actions(List::new(alloc)))
}

/// What a step comes to. Without a cost it has no action.
pub(crate) fn step_parts(
    alloc: Global,
    current: &mut usize,
    frame: &Frame,
    weights: &Weights,
    step: GroundStep,
) -> Result<StepParts, NoMemory>
    requires frame { IsFrame frame.now }
    requires ready { IsStepReady frame.now weights.now step }
    requires room { HasRoom frame.now weights.now step current.old }
    ensures { IfOk result (λ parts.
        HasActions frame.now weights.now step current.old current.new (actions_of parts)) }
{
    let mut step = step;
    let parts = taken_parts(alloc, current, frame, weights, &mut step);
    drop(step);
    parts
}
