//! What `compile-flat` makes of the texts of a domain and a problem.

ghost use Rattle.std.specs.Prelude.{◌≡◌, ◌<◌, ◌^◌, length, IfErr, IfOk, Some};
ghost use Rattle.std.specs.Option.{option_copied};
ghost use Rattle.p3_base.specs.declared.refusal.Code.TheVariants.{FlatTooWide};
ghost use Rattle.p3_base.specs.declared.refusal.Role.TheVariants as role;
ghost use Rattle.p3_task.specs.Plans.{action_named as action_by_name};
ghost use Rattle.p3_task.specs.Refusals.Places as places;
ghost use Rattle.p3_tree.specs.Reports.Tasks.{compiled_lines};
ghost use Rattle.p3_compile.specs.Compiling.{IsCompiledTo};
ghost use Rattle.p3_flat.specs.Flattened.{first_too_wide};
ghost use Rattle.p3_reports.specs.Reports.{report_text};
ghost use Rattle.p3_cli.specs.Flattening.{
  HasFlatText,
  IsFlatTranslation,
  IsOfWideStep,
  IsRefusedByName,
  IsRefusedFirst,
  IsStoppedFlat,
};
ghost use Rattle.p3_cli.specs.Refusing.{IsRefusedFor};
ghost use Rattle.p3_cli.specs.Texts.{all_texts};
ghost use Rattle.p3_formula.specs.Targets.{IsSized, IsWellNamed};
ghost use Rattle.p3_cli.specs.Translation.{AreTextsOf, CanBeCompiled};

use crate::Ending;
use crate::product::Product;
use crate::texts::Texts;
use crate::translation::{whole_task, written};
use p3_base::{Code, Name, NoMemory, Refusal, Role, owning_step};
use p3_compile::compile;
use p3_eval::Whole;
use p3_flat::{FlatFail, flatten};
use p3_formula::Target;
use p3_limits::refusal_at;
use p3_task::{Action, Ref, Task};
use std::alloc::Global;
use std::mem::forget;

/// Translates the task that the two texts spell into one without conditional effects.
pub(crate) fn flat_translate(alloc: Global, texts: &Texts) -> Result<Product, Ending>
    ensures means { IfOk result (λ product.
        IsFlatTranslation texts.now.domain.items texts.now.problem.items
        product.made.domain.items product.made.problem.items (report_text product.report)) }
    ensures err { IfErr result (IsStoppedFlat (all_texts texts.now)) }
{
    let whole = whole_task(alloc, texts)?;
    let made = flat_translation_of(alloc, texts, &whole);
    forget(whole);
    made
}

/// Writes the target of a task of which nothing is refused, its actions split by their conditions,
/// and makes the report. An action with too many conditions is refused.
fn flat_translation_of(alloc: Global, texts: &Texts, whole: &Whole) -> Result<Product, Ending>
    requires { CanBeCompiled whole.now.checked.task whole.now.ground_task whole.now.weights }
    ensures text { IfOk result (λ product.
        HasFlatText product.made.domain.items product.made.problem.items whole.now.checked.task) }
    ensures report { IfOk result (λ product.
        report_text product.report ≡ compiled_lines whole.now.checked.task) }
    ensures err { IfErr result
        (IsRefusedFor (all_texts texts.now) (IsRefusedFirst whole.now.checked.task)) }
{
    let target = compile(alloc, whole.ground_task(), whole.weights())?;
    match flatten(alloc, &target) {
        Ok(flat) => Ok(written_flat(alloc, whole, flat)?),
        Err(FlatFail::FlatTooWide(place)) => {
            let refusal = wide_action(alloc, whole, &target, place)?;
            Err(texts.refused(&refusal))
        }
        Err(FlatFail::NoMemory) => Err(Ending::OutOfMemory),
    }
}

/// Writes a target of a task of which nothing is refused, and makes the report.
fn written_flat(alloc: Global, whole: &Whole, flat: Target) -> Result<Product, NoMemory>
    requires can { CanBeCompiled
        whole.now.checked.task whole.now.ground_task whole.now.weights }
    requires sized { IsSized flat }
    requires named { IsWellNamed flat }
    ensures text { IfOk result (λ product.
        AreTextsOf flat product.made.domain.items product.made.problem.items) }
    ensures report { IfOk result (λ product.
        report_text product.report ≡ compiled_lines whole.now.checked.task) }
{
    let made = written(alloc, whole, &flat);
    forget(flat);
    made
}

/// Gives the refusal of the step to which the first action with too many conditions belongs.
fn wide_action(
    alloc: Global,
    whole: &Whole,
    target: &Target,
    place: usize,
) -> Result<Refusal, NoMemory>
    requires can { CanBeCompiled
        whole.now.checked.task whole.now.ground_task whole.now.weights }
    requires is { IsCompiledTo whole.now.ground_task whole.now.weights target.now }
    requires first { first_too_wide target.now ≡ Some place }
    ensures { IfOk result (IsRefusedFirst whole.now.checked.task) }
{
    wide_step(alloc, whole, &target.actions.items()[place].name)
}

/// Gives the refusal at the name of the action of the step to which an action belongs whose name is
/// given, where that step may have too many conditions.
fn wide_step(alloc: Global, whole: &Whole, name: &Name) -> Result<Refusal, NoMemory>
    requires { IsOfWideStep whole.now.checked.task name.now }
    ensures { IfOk result (IsRefusedByName whole.now.checked.task name.now) }
{
    let checked = whole.checked();
    let Some(number) = owning_step(name.bytes()) else {
        unreachable!()
    };
    let step = checked.step(alloc, number)?;
    let Some(action) = action_named(checked.task(), &step.action) else {
        unreachable!()
    };
    Ok(flat_refusal(&action.name))
}

/// Finds the action of a name.
#[tactic(auto, unfolding(p3_task::specs::Plans::action_named))]
fn action_named<'t>(task: &'t Task, name: &Name) -> Option<&'t Action>
    ensures { option_copied result ≡ action_by_name task.now name.now }
{
    let actions = task.domain.actions.items();
    actions
        .iter()
        .find(|action| action.name.name.bytes() == name.bytes())
}

/// Gives the refusal of too many conditions at the name of an action of the task read.
fn flat_refusal(name: &Ref) -> Refusal
    requires { length name.now.name < 2 ^ 32 }
    ensures { result ≡ places.refusal_at_word FlatTooWide role.Domain name.now }
{
    let len = name.name.bytes().len() as u32;
    refusal_at(Code::FlatTooWide, Role::Domain, name.at, len)
}
