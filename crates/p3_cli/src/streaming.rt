//! The texts of the target to which a ground task is compiled, written step by step. A step is let
//! go of with what it comes to once it is written, so the target never stands there as a whole.

ghost use Rattle.std.specs.Prelude.{◌≡◌, ◌∷◌, [], length, IfOk, IsTrue, OnOk};
ghost use Rattle.std.specs.List.{list_all};
ghost use Rattle.p3_formula.specs.Conditions.{IsReady};
ghost use Rattle.p3_formula.specs.Targets.{is_sized_action};
ghost use Rattle.p3_formula.specs.declared.task.GroundTask.{GroundTask};
ghost use Rattle.p3_compile.specs.Compiling.{HasNamedEnds};
ghost use Rattle.p3_compile.specs.Parts.{actions_of, copied_action, copied_actions};
ghost use Rattle.p3_compile.specs.Stepping.{IsNextStep};
ghost use Rattle.p3_cli.specs.Streaming.{
  AreCompiledTexts,
  HasDomainText,
  HasWritten,
  HasWrittenAll,
  HasWrittenEnds,
  HasWrittenStep,
  IsBegunFor,
};

use crate::texts::Made;
use p3_base::{List, NoMemory};
use p3_compile::{BegunTarget, StepCopies, StepParts, TargetCopy, begun_targets_are_compiled};
use p3_eval::Whole;
use p3_formula::{GroundStep, GroundTask, Weights};
use p3_writer::{CopyParts, DomainText, write_problem_of};
use std::alloc::Global;
use std::mem::{forget, replace};

/// Writes the target to which the ground task of a task is compiled.
pub(crate) fn compiled_texts(alloc: Global, whole: Whole) -> Result<Made, NoMemory>
    ensures { IfOk result (λ texts. AreCompiledTexts whole.ground_task whole.weights
        texts.domain.items texts.problem.items) }
{
    let (checked, mut task, weights) = whole.into_parts();
    let texts = target_texts(alloc, &mut task, &weights);
    forget((checked, task, weights));
    texts
}

/// Writes the target to which a ground task is compiled, of which it takes the goal and the steps.
fn target_texts(alloc: Global, task: &mut GroundTask, weights: &Weights) -> Result<Made, NoMemory>
    ghost source: { GroundTask }
    requires source { task.old ≡ source }
    requires ready { IsReady source weights.now }
    ensures { IfOk result (λ texts.
        AreCompiledTexts source weights.now texts.domain.items texts.problem.items) }
{
    let begun = BegunTarget::taking_goal(alloc, task, weights)?;
    let steps = replace(&mut task.steps, List::new(alloc));
    let texts = texts_of(alloc, &begun, steps, weights);
    forget(begun);
    texts
}

/// Writes a target that is begun for a task of these steps.
fn texts_of(
    alloc: Global,
    begun: &BegunTarget,
    steps: List<GroundStep>,
    weights: &Weights,
) -> Result<Made, NoMemory>
    ghost task: { GroundTask }
    requires begun { IsBegunFor task weights.now begun.now steps }
    ensures { IfOk result (λ texts.
        AreCompiledTexts task weights.now texts.domain.items texts.problem.items) }
{
    let domain = domain_of(alloc, begun, steps, weights)?;
    let problem = write_problem_of(alloc, begun.names(), begun.initial(), begun.goal())?;
    Ok(Made {
        domain,
        problem,
        plan: Vec::new(alloc),
    })
}

/// Writes the domain of a target that is begun.
fn domain_of(
    alloc: Global,
    begun: &BegunTarget,
    steps: List<GroundStep>,
    weights: &Weights,
) -> Result<Vec<u8>, NoMemory>
    ghost task: { GroundTask }
    requires begun { IsBegunFor task weights.now begun.now steps }
    ensures { IfOk result (λ text. HasDomainText task weights.now begun.now text.items) }
{
    begun_targets_are_compiled();
    let mut text = DomainText::begin(alloc, begun.names())?;
    push_steps(alloc, &mut text, begun, steps, weights)?;
    push_ends(alloc, &mut text, begun)?;
    text.finish()
}

/// Writes the actions of the end phase, those of one instance after another.
fn push_ends(alloc: Global, text: &mut DomainText<'_>, begun: &BegunTarget) -> Result<(), NoMemory>
    requires named { HasNamedEnds begun.now }
    requires names { text.old.names ≡ begun.now.names }
    ensures { OnOk result
        (HasWrittenEnds begun.now (length begun.now.instances) text.old text.new) }
{
    text.push(begun.begin())?;
    for number in 0..begun.instance_count() {
        let actions = begun.settling(alloc, number)?;
        text.push(actions.items())?;
        drop(actions);
    }
    Ok(())
}

/// Writes the actions of all steps.
fn push_steps(
    alloc: Global,
    text: &mut DomainText<'_>,
    begun: &BegunTarget,
    steps: List<GroundStep>,
    weights: &Weights,
) -> Result<(), NoMemory>
    ghost task: { GroundTask }
    requires begun { IsBegunFor task weights.now begun.now steps }
    requires names { text.old.names ≡ begun.now.names }
    ensures { OnOk result (HasWrittenAll task weights.now begun.now text.old text.new) }
{
    let mut current = begun.first_current();
    for step in steps.into_items() {
        push_step(alloc, text, begun, weights, step, &mut current)?;
    }
    Ok(())
}

/// Writes the actions of a step. Those of its copies are never made.
fn push_step(
    alloc: Global,
    text: &mut DomainText<'_>,
    begun: &BegunTarget,
    weights: &Weights,
    step: GroundStep,
    current: &mut usize,
) -> Result<(), NoMemory>
    requires next { IsNextStep begun.now weights.now step current.old }
    requires names { text.old.names ≡ begun.now.names }
    ensures { OnOk result (HasWrittenStep begun.now weights.now step
        current.old current.new text.old text.new) }
{
    let parts = begun.step_parts(alloc, weights, step, current)?;
    let pushed = push_parts(text, &parts);
    drop(parts);
    pushed
}

/// Writes the actions that these parts make.
fn push_parts(text: &mut DomainText<'_>, parts: &StepParts) -> Result<(), NoMemory>
    requires { IsTrue (list_all (is_sized_action (length text.old.names)) (actions_of parts.now)) }
    ensures { OnOk result (HasWritten (actions_of parts.now) text.old text.new) }
{
    match parts {
        StepParts::Actions(actions) => text.push(actions.items()),
        StepParts::Copies(step) => push_copies(text, step),
    }
}

/// Writes the actions of the copies of a step.
fn push_copies(text: &mut DomainText<'_>, step: &StepCopies) -> Result<(), NoMemory>
    requires { IsTrue (list_all (is_sized_action (length text.old.names))
        (copied_actions step.now)) }
    ensures { OnOk result (HasWritten (copied_actions step.now) text.old text.new) }
{
    for copy in step.copies.items() {
        push_copy(text, step.number, step.go, copy)?;
    }
    Ok(())
}

/// Writes the action of a copy of the step with that number.
fn push_copy(
    text: &mut DomainText<'_>,
    number: u32,
    go: usize,
    copy: &TargetCopy,
) -> Result<(), NoMemory>
    requires { IsTrue (is_sized_action (length text.old.names)
        (copied_action number go copy.now)) }
    ensures { OnOk result
        (HasWritten (copied_action number go copy.now ∷ []) text.old text.new) }
{
    text.push_copy(&CopyParts {
        number,
        violated: copy.violated.items(),
        go,
        pre: &copy.pre,
        changes: copy.effects.items(),
        cost: copy.cost,
    })
}
