//! What is found of tasks and plans, as the reports and the lines that say it want it.

ghost use Rattle.std.specs.Prelude.{◌≡◌, ◌<◌, IfOk, None, length, map};
ghost use Rattle.std.specs.List.{All};
ghost use Rattle.p3_task.specs.Limits.{step_count};
ghost use Rattle.p3_task.specs.Metrics.{value};
ghost use Rattle.p3_task.specs.PreferenceNames.{ordered_names};
ghost use Rattle.p3_task.specs.Refusals.First.{task_refusal};
ghost use Rattle.p3_tree.specs.Reports.Plans.{
  embedded_lines,
  evaluated_lines,
  generated_lines,
  lifted_lines,
};
ghost use Rattle.p3_tree.specs.Reports.Tasks.{compiled_lines};
ghost use Rattle.p3_reports.specs.Contents.{count_of};
ghost use Rattle.p3_reports.specs.Reports.{
  compile_text,
  embed_text,
  evaluate_text,
  generate_text,
  lift_text,
};
ghost use Rattle.p3_task.specs.Plans.{Plan};
ghost use Rattle.p3_ground.specs.PlansByNumber.{AreNumbers};
ghost use Rattle.p3_eval.specs.Runs.{BelongTogether, OfRun};
ghost use Rattle.p3_lift.specs.Lifting.{numbered_steps};
ghost use Rattle.p3_cli.specs.Lifting.{differ_rejection};
ghost use Rattle.p3_cli.specs.Translation.{CanBeCompiled};

use p3_base::{List, Name, NoMemory};
use p3_embed::Source;
use p3_eval::{Run, Steps, Whole};
use p3_lift::{Differ, LiftedSteps};
use p3_metric::metric_places;
use p3_reports::{
    CompileReport, EmbedReport, EvaluateReport, GenerateReport, LiftReport, NameCount, Quantity,
    Rejection,
};
use p3_types::Checked;
use p3_watch::{cost_of, metric_of, named_fault};
use std::alloc::Global;

/// Gives the report of a task: the number of its steps, that of its preference instances, the loss
/// of no violation, and the direction.
pub(crate) fn compiled_report(whole: &Whole) -> CompileReport
    requires { CanBeCompiled whole.now.checked.task whole.now.ground_task whole.now.weights }
    ensures { compile_text result ≡ compiled_lines whole.now.checked.task }
{
    let task = whole.ground_task();
    let weights = whole.weights();
    CompileReport {
        steps: task.step_count as u64,
        preferences: task.soft.len() as u64,
        base: Quantity {
            places: metric_places(whole.checked()),
            units: weights.base,
        },
        direction: weights.direction,
    }
}

/// Gives the report of a plan that is embedded in the target of a task: that of the task, and the
/// length and the cost of the plan's source.
pub(crate) fn embedded_report(whole: &Whole, source: &Source) -> EmbedReport
    requires { CanBeCompiled whole.now.checked.task whole.now.ground_task whole.now.weights }
    ensures { embed_text result ≡ embedded_lines
        whole.now.checked.task (length source.now.places.items) source.now.cost }
{
    EmbedReport {
        task: compiled_report(whole),
        len: source.places.len() as u64,
        cost: source.cost,
    }
}

/// Gives the report of the plan of the steps that a run has done.
pub(crate) fn evaluated_report(
    alloc: Global,
    checked: &Checked,
    run: &Run<'_>,
) -> Result<EvaluateReport, NoMemory>
    requires together { BelongTogether checked.now.task run.now.task run.now.weights }
    requires accepted { task_refusal checked.now.side checked.now.task ≡ None }
    ensures { IfOk result (λ report. OfRun checked.now.task run.now
        (λ plan. evaluate_text report ≡ evaluated_lines checked.now.task plan)) }
{
    let violations = violations_of(alloc, checked, run)?;
    Ok(EvaluateReport {
        steps: run.steps() as u64,
        cost: cost_of(checked, run),
        violations,
        metric: metric_of(checked, run.metric()),
    })
}

/// Gives the report of a lifted plan: its length, the cost of the plan from which it was lifted,
/// and its value.
pub(crate) fn lifted_report(checked: &Checked, lifted: &LiftedSteps) -> LiftReport
    requires accepted { task_refusal checked.now.side checked.now.task ≡ None }
    requires within { All (λ number. number < step_count checked.now.task)
        lifted.now.numbers.items }
    requires metric { lifted.now.metric
        ≡ value checked.now.task (numbered_steps checked.now.task lifted.now.numbers.items) }
    ensures { lift_text result ≡ lifted_lines checked.now.task
        (numbered_steps checked.now.task lifted.now.numbers.items) lifted.now.cost }
{
    LiftReport {
        steps: lifted.numbers.len() as u64,
        cost: lifted.cost,
        metric: metric_of(checked, lifted.metric),
    }
}

/// Gives the report of a sample, whose plan has this value: how many steps and preference instances
/// the task has, the length of the plan, the length and the cost of its source, and the value.
pub(crate) fn sampled_report(
    whole: &Whole,
    steps: &Steps,
    source: &Source,
    metric: i128,
) -> GenerateReport
    requires can { CanBeCompiled whole.now.checked.task whole.now.ground_task whole.now.weights }
    ensures { (plan : Plan) → AreNumbers whole.now.checked.task plan steps.now.numbers.items
        → metric ≡ value whole.now.checked.task plan
        → generate_text result ≡ generated_lines
        whole.now.checked.task plan (length source.now.places.items) source.now.cost }
{
    let task = whole.ground_task();
    GenerateReport {
        steps: task.step_count as u64,
        preferences: task.soft.len() as u64,
        plan: steps.numbers.len() as u64,
        embedded: source.places.len() as u64,
        cost: source.cost,
        metric: metric_of(whole.checked(), metric),
    }
}

/// Counts how often the preferences of each name are violated.
fn violations_of(
    alloc: Global,
    checked: &Checked,
    run: &Run<'_>,
) -> Result<List<NameCount>, NoMemory>
    requires { BelongTogether checked.now.task run.now.task run.now.weights }
    ensures { IfOk result (λ found. OfRun checked.now.task run.now
        (λ plan. found
        ≡ map (count_of checked.now.task plan) (ordered_names checked.now.task))) }
{
    let mut found = List::new(alloc);
    for number in 0..checked.names() {
        let Some(name) = checked.name(number) else {
            unreachable!()
        };
        found.push(NameCount {
            name: copied(alloc, name)?,
            count: run.violations(number),
        })?;
    }
    Ok(found)
}

/// Copies a name.
pub(crate) fn copied(alloc: Global, name: &Name) -> Result<Name, NoMemory>
    ensures { IfOk result (λ copy. copy ≡ name.now) }
{
    Name::of(alloc, name.bytes())
}

/// Gives why a plan is refused whose lifted plan differs.
pub(crate) fn differing(differ: &Differ) -> Rejection
    ensures { result ≡ differ_rejection differ.now }
{
    match differ {
        Differ::Fault(fault) => Rejection::LiftedFault(named_fault(fault)),
        Differ::Numbers { cost, loss } => Rejection::NumbersDiffer {
            cost: *cost,
            loss: *loss,
        },
    }
}
