//! The laws of compiled ground tasks, as contracts of functions without a body.

ghost use Rattle.std.specs.Prelude.{length};
ghost use Rattle.p3_formula.specs.Conditions.{HasNamesBelow, IsReady};
ghost use Rattle.p3_formula.specs.Targets.{IsNamed, IsSized, Compiled};
ghost use Rattle.p3_formula.specs.declared.target.Target.{Target};
ghost use Rattle.p3_formula.specs.declared.target.Weights.{Weights};
ghost use Rattle.p3_formula.specs.declared.task.GroundTask.{GroundTask};
ghost use Rattle.p3_simulation.specs.Assembled.{Assembly, IsAssembled};
ghost use Rattle.p3_simulation.specs.Parts.{IsMadeOf, Parts};

/// A named and sized target that is made of such parts is a compiled task.
pub fn parts_make_a_compiled_task()
    ensures { (G : GroundTask) (weights : Weights) (X : Target) (parts : Parts)
        → IsMadeOf G weights X parts → HasNamesBelow (length weights.by_name) G
        → IsNamed X → IsSized X → Compiled G weights X }
{}

/// So is a target of which a body shows names, preconditions, effects and costs of its actions, its
/// monitors, its initial state and its end phase, where the task is ready to be compiled.
pub fn assembled_targets_are_compiled()
    ensures { (G : GroundTask) (weights : Weights) (X : Target) (made : Assembly)
        → IsReady G weights → IsAssembled G weights X made → Compiled G weights X }
{}
