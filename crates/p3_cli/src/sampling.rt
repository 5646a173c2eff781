//! What `generate` makes.

ghost use Rattle.std.specs.Prelude.{◌≡◌, ◌≤◌, IfErr, IfOk};
ghost use Rattle.p3_tree.specs.Commands.{sample_limit};
ghost use Rattle.p3_task.specs.Metrics.{value};
ghost use Rattle.p3_task.specs.Validity.{Valid};
ghost use Rattle.p3_eval.specs.Steps.{AreOfPlan, OfSteps};
ghost use Rattle.p3_cli.specs.Evaluation.{IsRejectedPlan};
ghost use Rattle.p3_cli.specs.Texts.{all_texts, sample_texts};
ghost use Rattle.p3_reports.specs.Reports.{report_text};
ghost use Rattle.p3_cli.specs.Sampling.{IsSampleReport, IsSampling};

use crate::Ending;
use crate::embedding::source_of;
use crate::evaluation::judged_whole;
use crate::product::Product;
use crate::report_parts::sampled_report;
use crate::texts::{Made, Texts};
use p3_base::NoMemory;
use p3_compile::compile;
use p3_eval::{Steps, Whole};
use p3_gen::generate;
use p3_reports::Report;
use std::alloc::Global;

/// Makes the sample of that number. Its task is compiled, and its plan embedded and judged.
pub(crate) fn sample(alloc: Global, number: u32) -> Result<Product, Ending>
    requires some { 1 ≤ number }
    requires few { number ≤ sample_limit }
    ensures means { IfOk result (λ product. IsSampling number product.made.domain.items
        product.made.problem.items product.made.plan.items (report_text product.report)) }
    ensures err { IfErr result (IsRejectedPlan (sample_texts number)) }
{
    let texts = texts_of(alloc, number)?;
    let report = match report_of(alloc, &texts) {
        Ok(report) => report,
        Err(ending) => return Err(ending),
    };
    let made = Made {
        domain: texts.domain,
        problem: texts.problem,
        plan: texts.plan,
    };
    Ok(Product { made, report })
}

/// Makes the texts of the sample, as those of a task and of a plan for it.
fn texts_of(alloc: Global, number: u32) -> Result<Texts, NoMemory>
    requires some { 1 ≤ number }
    requires few { number ≤ sample_limit }
    ensures { IfOk result (λ texts. all_texts texts ≡ sample_texts number) }
{
    let sample = generate(alloc, number)?;
    Ok(Texts {
        domain: sample.domain.into_items(),
        problem: sample.problem.into_items(),
        written_domain: Vec::new(alloc),
        written_problem: Vec::new(alloc),
        plan: sample.plan.into_items(),
    })
}

/// Makes the report of the task and of the plan that the texts spell.
fn report_of(alloc: Global, texts: &Texts) -> Result<Report, Ending>
    ensures means { IfOk result (λ report. IsSampleReport texts.now.domain.items
        texts.now.problem.items texts.now.plan.items (report_text report)) }
    ensures err { IfErr result (IsRejectedPlan (all_texts texts.now)) }
{
    let (whole, steps) = judged_whole(alloc, texts)?;
    let target = compile(alloc, whole.ground_task(), whole.weights())?;
    let source = match source_of(alloc, &whole, &target, &steps) {
        Ok(source) => source,
        Err(ending) => return Err(ending),
    };
    let metric = value_of(alloc, &whole, &steps)?;
    let report = sampled_report(&whole, &steps, &source, metric);
    Ok(Report::Generate(report))
}

/// Finds the value of the valid plan of these steps.
fn value_of(alloc: Global, whole: &Whole, steps: &Steps) -> Result<i128, NoMemory>
    requires some { AreOfPlan whole.now.checked.task steps.now }
    requires valid { OfSteps whole.now.checked.task steps.now (Valid whole.now.checked.task) }
    ensures { IfOk result (λ metric. OfSteps whole.now.checked.task steps.now
        (λ plan. metric ≡ value whole.now.checked.task plan)) }
{
    let mut run = whole.begin(alloc)?;
    match run.judge_steps(steps) {
        None => Ok(run.metric()),
        // The plan is valid.
        Some(_) => unreachable!(),
    }
}
