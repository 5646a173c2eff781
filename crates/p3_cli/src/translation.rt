//! What `compile` makes of the texts of a domain and a problem.

ghost use Rattle.std.specs.Prelude.{◌≡◌, IfOk, IfErr};
ghost use Rattle.p3_base.specs.declared.refusal.Side.TheVariants.{Source};
ghost use Rattle.p3_tree.specs.Reports.Tasks.{compiled_lines};
ghost use Rattle.p3_formula.specs.Targets.{IsSized, IsWellNamed};
ghost use Rattle.p3_reports.specs.Reports.{report_text};
ghost use Rattle.p3_cli.specs.Refusing.{AreAcceptedFor, IsRefusedTask};
ghost use Rattle.p3_cli.specs.Texts.{all_texts};
ghost use Rattle.p3_cli.specs.Translation.{
  AreTextsOf,
  CanBeCompiled,
  HasLayout,
  IsLaidOut,
  IsTranslation,
};
ghost use Rattle.p3_cli.specs.WrittenText.{HasFaithfulText};

use crate::Ending;
use crate::acceptance::{grounded, spelled_task};
use crate::product::Product;
use crate::report_parts::compiled_report;
use crate::streaming::compiled_texts;
use crate::texts::{Made, Texts};
use p3_base::{NoMemory, Side};
use p3_eval::Whole;
use p3_formula::Target;
use p3_reports::Report;
use p3_writer::{write_domain, write_problem};
use std::alloc::Global;

/// Translates the task that the two texts spell.
pub(crate) fn translate(alloc: Global, texts: Texts) -> Result<Product, Ending>
    ensures means { IfOk result (λ product.
        IsTranslation texts.domain.items texts.problem.items
        product.made.domain.items product.made.problem.items (report_text product.report)) }
    ensures layout { IfOk result (λ product.
        HasLayout texts.domain.items texts.problem.items
        product.made.domain.items product.made.problem.items) }
    ensures err { IfErr result (IsRefusedTask (all_texts texts)) }
{
    let whole = taken_task(alloc, texts)?;
    Ok(translation_of(alloc, whole)?)
}

/// Accepts the task as `whole_task` does, and lets the texts go, which only a refusal asks for.
fn taken_task(alloc: Global, texts: Texts) -> Result<Whole, Ending>
    ensures accepted { IfOk result (λ whole.
        AreAcceptedFor Source (all_texts texts) whole.checked.task) }
    ensures ready { IfOk result (λ whole.
        CanBeCompiled whole.checked.task whole.ground_task whole.weights) }
    ensures err { IfErr result (IsRefusedTask (all_texts texts)) }
{
    whole_task(alloc, &texts)
}

/// Accepts the task that the two texts spell with its ground task, where nothing is refused of it.
///
/// # Errors
///
/// The first refusal of the two texts. And want of memory.
pub fn whole_task(alloc: Global, texts: &Texts) -> Result<Whole, Ending>
    ensures accepted { IfOk result (λ whole.
        AreAcceptedFor Source (all_texts texts.now) whole.checked.task) }
    ensures ready { IfOk result (λ whole.
        CanBeCompiled whole.checked.task whole.ground_task whole.weights) }
    ensures err { IfErr result (IsRefusedTask (all_texts texts.now)) }
{
    let task = spelled_task(alloc, Side::Source, texts)?;
    grounded(alloc, Side::Source, texts, task)
}

/// Writes the target of a task of which nothing is refused, and makes the report.
fn translation_of(alloc: Global, whole: Whole) -> Result<Product, NoMemory>
    requires { CanBeCompiled whole.checked.task whole.ground_task whole.weights }
    ensures text { IfOk result (λ product. HasFaithfulText
        product.made.domain.items product.made.problem.items whole.checked.task) }
    ensures layout { IfOk result (λ product.
        IsLaidOut whole.checked.task product.made.domain.items product.made.problem.items) }
    ensures report { IfOk result (λ product.
        report_text product.report ≡ compiled_lines whole.checked.task) }
{
    let report = Report::Compile(compiled_report(&whole));
    let made = compiled_texts(alloc, whole)?;
    Ok(Product { made, report })
}

/// Writes a target of a task of which nothing is refused, and makes the report.
pub(crate) fn written(alloc: Global, whole: &Whole, target: &Target) -> Result<Product, NoMemory>
    requires can { CanBeCompiled
        whole.now.checked.task whole.now.ground_task whole.now.weights }
    requires sized { IsSized target.now }
    requires named { IsWellNamed target.now }
    ensures text { IfOk result (λ product.
        AreTextsOf target.now product.made.domain.items product.made.problem.items) }
    ensures report { IfOk result (λ product.
        report_text product.report ≡ compiled_lines whole.now.checked.task) }
{
    let made = Made {
        domain: write_domain(alloc, target)?,
        problem: write_problem(alloc, target)?,
        plan: Vec::new(alloc),
    };
    Ok(Product {
        made,
        report: Report::Compile(compiled_report(whole)),
    })
}
