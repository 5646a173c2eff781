//! The ground compiler.

ghost use Rattle.std.specs.Prelude.{IfOk};
ghost use Rattle.p3_formula.specs.Conditions.{IsReady, HasTidyForms};
ghost use Rattle.p3_formula.specs.Targets.{Compiled};
ghost use Rattle.p3_simulation.specs.Assembled.{HasAssembly};
ghost use Rattle.p3_compile.specs.Lean.{IsLean};
ghost use Rattle.p3_compile.specs.Compiling.{IsBegun};
ghost use Rattle.p3_compile.specs.Stepping.{HasStepActions};

use crate::begun::BegunTarget;
use crate::copying::step_copied;
use crate::laws::begun_targets_are_compiled;
use crate::stepping::push_all;
use p3_base::{List, NoMemory};
use p3_formula::{GroundTask, Target, TargetAction, Weights};
use std::alloc::Global;

/// The actions of all steps.
fn steps_actions(
    alloc: Global,
    begun: &BegunTarget,
    task: &GroundTask,
    weights: &Weights,
) -> Result<List<TargetAction>, NoMemory>
    requires ready { IsReady task.now weights.now }
    requires begun { IsBegun task.now weights.now begun.now }
    ensures { IfOk result (HasStepActions begun.now.frame weights.now task.now.steps) }
{
    let mut actions = List::new(alloc);
    let mut current = begun.first_current();
    for step in task.steps.items() {
        let own = step_copied(alloc, step)?;
        let parts = begun.step_parts(alloc, weights, own, &mut current)?;
        push_all(&mut actions, parts.into_actions(alloc)?)?;
    }
    Ok(actions)
}

/// What a ground task is compiled to: a plain task whose valid plans lift to those of the ground
/// task, one to one, and whose costs are the ground plans' losses above the base.
///
/// The monitors of all constraints are made once. A step's changes are regressed once, for the
/// monitors that read an atom which the step may change, and no step looks at the others.
pub fn compile(alloc: Global, task: &GroundTask, weights: &Weights) -> Result<Target, NoMemory>
    requires { IsReady task.now weights.now }
    ensures compiled { IfOk result (Compiled task.now weights.now) }
    // Each precondition, each condition of a change and the goal are tidy.
    ensures tidy { IfOk result HasTidyForms }
    // The changes of a step are few.
    ensures lean { IfOk result (IsLean task.now weights.now) }
    // Its atoms and actions have the names and the order of the layout.
    ensures assembled { IfOk result (HasAssembly task.now weights.now) }
{
    begun_targets_are_compiled();
    let begun = BegunTarget::of(alloc, task, weights)?;
    let actions = steps_actions(alloc, &begun, task, weights)?;
    begun.target(alloc, actions)
}
