//! Writing a plan.

ghost use Rattle.std.specs.Prelude.{◌≡◌, ◌++◌, IfOk, OnOk, IsTrue};
ghost use Rattle.std.specs.List.{list_all, flat_map};
ghost use Rattle.p3_task.specs.PlanTexts.{IsPlanText};
ghost use Rattle.p3_plans.specs.Layout as layout;

use p3_base::{Name, NoMemory};
use p3_task::Plan;
use std::alloc::Global;

/// The text of a plan: a line for each step.
pub fn write_plan(alloc: Global, plan: &Plan) -> Result<Vec<u8>, NoMemory>
    // Each name is a word in lower case that is no variable and no keyword.
    requires words { IsTrue (list_all layout.has_written_words plan.now) }
    ensures text { IfOk result (λ text. text.items ≡ layout.plan_layout plan.now) }
    ensures plan { IfOk result (λ text. IsPlanText text.items plan.now) }
{
    let mut out = Vec::new(alloc);
    for step in plan.items() {
        push_step(&mut out, step.action.bytes(), step.args.items())?;
    }
    Ok(out)
}

/// Puts the line of the step of an action of that name with these arguments.
///
/// # Errors
///
/// Want of memory.
pub fn push_step(out: &mut Vec<u8>, action: &[u8], arguments: &[Name]) -> Result<(), NoMemory>
    ensures { OnOk result
        (out.new.items ≡ out.old.items ++ layout.line_layout action.now arguments.now) }
{
    push(out, "(")?;
    out.extend_from_slice(action)?;
    push_arguments(out, arguments)?;
    push(out, ")\n")
}

fn push_arguments(out: &mut Vec<u8>, arguments: &[Name]) -> Result<(), NoMemory>
    ensures { OnOk result
        (out.new.items ≡ out.old.items ++ flat_map layout.argument_layout arguments.now) }
{
    for argument in arguments {
        push(out, " ")?;
        push_name(out, argument)?;
    }
    Ok(())
}

fn push_name(out: &mut Vec<u8>, name: &Name) -> Result<(), NoMemory>
    ensures { OnOk result (out.new.items ≡ out.old.items ++ name.now) }
{
    out.extend_from_slice(name.bytes())?;
    Ok(())
}

fn push(out: &mut Vec<u8>, text: &str) -> Result<(), NoMemory>
    ensures { OnOk result (out.new.items ≡ out.old.items ++ text.now) }
{
    out.extend_from_slice(text.as_bytes())?;
    Ok(())
}
