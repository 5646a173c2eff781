//! The law of begun targets, as the contract of a function.

ghost use Rattle.std.specs.Prelude.{List, length};
ghost use Rattle.p3_formula.specs.Conditions.{IsReady};
ghost use Rattle.p3_formula.specs.declared.target.TargetAction.{TargetAction};
ghost use Rattle.p3_formula.specs.declared.target.Weights.{Weights};
ghost use Rattle.p3_formula.specs.declared.task.GroundTask.{GroundTask};
ghost use Rattle.p3_compile.specs.Compiling.{AreEnds, IsBegun, IsCompiledTo, target_of};
ghost use Rattle.p3_compile.specs.Stepping.{HasStepActions};
ghost use Rattle.p3_compile.specs.declared.begun.BegunTarget.{BegunTarget};

use p3_simulation::assembled_targets_are_compiled;

/// A begun target with the actions of all steps, and behind them those of its end phase, is what
/// its task is compiled to.
pub fn begun_targets_are_compiled()
    ensures { (G : GroundTask) (weights : Weights) (begun : BegunTarget)
        (actions ends : List TargetAction) → IsReady G weights → IsBegun G weights begun
        → HasStepActions begun.frame weights G.steps actions
        → AreEnds begun (length begun.instances) ends
        → IsCompiledTo G weights (target_of begun actions ends) }
{
    assembled_targets_are_compiled();
}
