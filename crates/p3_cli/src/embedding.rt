//! What `embed` makes of the texts of a task and of a plan for it.

ghost use Rattle.std.specs.Prelude.{◌≡◌, ◌<◌, IfErr, IfOk, IsTrue, OnOk, length, pos};
ghost use Rattle.std.specs.List.{All, list_all};
ghost use Rattle.p3_task.specs.PlanTexts.{IsPlanText};
ghost use Rattle.p3_tree.specs.Reports.Plans.{embedded_lines};
ghost use Rattle.p3_task.specs.Validity.{Valid};
ghost use Rattle.p3_formula.specs.Targets.{Compiled, target_cost};
ghost use Rattle.p3_ground.specs.PlansByNumber.{names_of};
ghost use Rattle.p3_eval.specs.Steps.{AreOfPlan, OfSteps};
ghost use Rattle.p3_plans.specs.Layout.{has_written_words};
ghost use Rattle.p3_embed.specs.Plans.{IsEmbeddedPlan, steps_at};
ghost use Rattle.p3_reports.specs.Reports.{report_text};
ghost use Rattle.p3_cli.specs.Embedding.{IsEmbedding, source_layout};
ghost use Rattle.p3_cli.specs.Evaluation.{IsFaultOf, IsRejectedPlan};
ghost use Rattle.p3_cli.specs.Refusing.{IsRejectedBy};
ghost use Rattle.p3_cli.specs.Texts.{all_texts};
ghost use Rattle.p3_cli.specs.Translation.{AreTextsOf, CanBeCompiled, HasLayout};
ghost use Rattle.p3_cli.specs.WrittenText.{HasPlanLayout};

use crate::Ending;
use crate::evaluation::{invalid, judged_whole};
use crate::product::Product;
use crate::report_parts::embedded_report;
use crate::texts::{Made, Texts};
use p3_base::NoMemory;
use p3_compile::compile;
use p3_embed::{EmbedFail, Source, embed_steps};
use p3_eval::{Steps, Whole};
use p3_formula::Target;
use p3_plans::push_step;
use p3_reports::Report;
use p3_writer::{write_domain, write_problem};
use std::alloc::Global;
use std::mem::forget;

/// Translates the task that two texts spell, and with it the plan that the third one spells.
pub(crate) fn embed(alloc: Global, texts: &Texts) -> Result<Product, Ending>
    ensures means { IfOk result (λ product. IsEmbedding
        texts.now.domain.items texts.now.problem.items texts.now.plan.items
        product.made.domain.items product.made.problem.items product.made.plan.items
        (report_text product.report)) }
    ensures layout { IfOk result (λ product.
        HasLayout texts.now.domain.items texts.now.problem.items
        product.made.domain.items product.made.problem.items) }
    ensures lines { IfOk result (λ product. HasPlanLayout product.made.plan.items) }
    ensures err { IfErr result (IsRejectedPlan (all_texts texts.now)) }
{
    let (whole, steps) = judged_whole(alloc, texts)?;
    let target = compile(alloc, whole.ground_task(), whole.weights())?;
    let source = match source_of(alloc, &whole, &target, &steps) {
        Ok(source) => source,
        Err(ending) => return Err(ending),
    };
    let made = embedding_of(alloc, &whole, &target, &source)?;
    forget((whole, target));
    forget((steps, source));
    Ok(made)
}

/// Finds the source of the plan of these steps in the target, where the plan is valid.
pub(crate) fn source_of(
    alloc: Global,
    whole: &Whole,
    target: &Target,
    steps: &Steps,
) -> Result<Source, Ending>
    requires compiled { Compiled whole.now.ground_task whole.now.weights target.now }
    requires some { AreOfPlan whole.now.checked.task steps.now }
    ensures valid { OnOk result (OfSteps whole.now.checked.task steps.now
        (Valid whole.now.checked.task)) }
    ensures within { IfOk result (λ source.
        All (λ place. place < length target.now.actions) source.places.items) }
    ensures plan { IfOk result (λ source. OfSteps whole.now.checked.task steps.now
        (λ plan. IsEmbeddedPlan whole.now.checked.task whole.now.ground_task target.now
        plan (steps_at target.now source.places.items))) }
    ensures cost { IfOk result (λ source. source.cost
        ≡ pos (target_cost target.now (names_of (steps_at target.now source.places.items)))) }
    ensures err { IfErr result (IsRejectedBy (λ how. OfSteps whole.now.checked.task steps.now
        (IsFaultOf whole.now.checked.task how))) }
{
    match embed_steps(alloc, whole, target, steps) {
        Ok(source) => Ok(source),
        Err(EmbedFail::Invalid(fault)) => Err(invalid(fault)),
        Err(EmbedFail::NoMemory) => Err(Ending::OutOfMemory),
    }
}

/// Writes the target of a task and the source of a plan in it, and makes the report.
fn embedding_of(
    alloc: Global,
    whole: &Whole,
    target: &Target,
    source: &Source,
) -> Result<Product, NoMemory>
    requires can { CanBeCompiled
        whole.now.checked.task whole.now.ground_task whole.now.weights }
    requires compiled { Compiled whole.now.ground_task whole.now.weights target.now }
    requires within { All (λ place. place < length target.now.actions) source.now.places.items }
    requires named { IsTrue (list_all has_written_words
        (steps_at target.now source.now.places.items)) }
    ensures text { IfOk result (λ product.
        AreTextsOf target.now product.made.domain.items product.made.problem.items) }
    ensures plan { IfOk result (λ product. IsPlanText product.made.plan.items
        (steps_at target.now source.now.places.items)) }
    ensures lines { IfOk result (λ product. HasPlanLayout product.made.plan.items) }
    ensures report { IfOk result (λ product. report_text product.report ≡ embedded_lines
        whole.now.checked.task (length source.now.places.items) source.now.cost) }
{
    let made = Made {
        domain: write_domain(alloc, target)?,
        problem: write_problem(alloc, target)?,
        plan: source_text(alloc, target, source.places.as_slice())?,
    };
    Ok(Product {
        made,
        report: Report::Embed(embedded_report(whole, source)),
    })
}

/// Writes the plan of the actions at the places: a line for each, with its name.
fn source_text(alloc: Global, target: &Target, places: &[usize]) -> Result<Vec<u8>, NoMemory>
    requires within { All (λ place. place < length target.now.actions) places.now }
    requires named { IsTrue (list_all has_written_words (steps_at target.now places.now)) }
    ensures text { IfOk result (λ text. text.items ≡ source_layout target.now places.now) }
    ensures plan { IfOk result (λ text. IsPlanText text.items (steps_at target.now places.now)) }
{
    let mut text = Vec::new(alloc);
    for place in places {
        let action = &target.actions.items()[*place];
        push_step(&mut text, action.name.bytes(), &[])?;
    }
    Ok(text)
}
