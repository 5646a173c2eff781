//! What `evaluate` prints of the steps that a run has done, put piece by piece.

ghost use Rattle.std.specs.Prelude.{◌≡◌, ◌≤◌, None, OnErr, OnOk};
ghost use Rattle.p3_base.specs.Outside.{IsPartlyPut, IsPut, Rose};
ghost use Rattle.p3_task.specs.Refusals.First.{task_refusal};
ghost use Rattle.p3_tree.specs.Reports.Plans.{evaluated_lines};
ghost use Rattle.p3_tree.specs.Reports.Watching.{judged_lines};
ghost use Rattle.p3_eval.specs.Runs.{BelongTogether, OfRun};
ghost use Rattle.p3_watch.specs.Violations.{violated_lines};

use crate::run_report::{cost_of, metric_of, named_fault};
use p3_base::{Sink, SinkFailed};
use p3_eval::Run;
use p3_reports::{Part, put_fault, put_part, put_parts};
use p3_types::Checked;

/// Puts what `evaluate` prints of the steps that a run has done: all lines of a valid plan, or the
/// line of its first fault.
pub(crate) fn put_judged<S: Sink>(
    checked: &Checked,
    run: &Run<'_>,
    out: &mut S,
) -> Result<(), SinkFailed>
    requires together { BelongTogether checked.now.task run.now.task run.now.weights }
    requires accepted { task_refusal checked.now.side checked.now.task ≡ None }
    ensures ok { OnOk result (OfRun checked.now.task run.now
        (λ plan. IsPut (judged_lines checked.now.task plan)
        (S.seen out.old).written (S.seen out.new).written)) }
    ensures partly { OnErr result (OfRun checked.now.task run.now
        (λ plan. IsPartlyPut (judged_lines checked.now.task plan)
        (S.seen out.old).written (S.seen out.new).written)) }
    ensures failed { OnErr result (Rose (S.seen out.old).faults (S.seen out.new).faults) }
    ensures faults_grow { (S.seen out.old).faults ≤ (S.seen out.new).faults }
{
    match run.judge() {
        None => put_evaluated(checked, run, out),
        Some(fault) => put_fault(named_fault(&fault), out),
    }
}

/// Puts the lines of a valid plan.
fn put_evaluated<S: Sink>(checked: &Checked, run: &Run<'_>, out: &mut S) -> Result<(), SinkFailed>
    requires together { BelongTogether checked.now.task run.now.task run.now.weights }
    requires accepted { task_refusal checked.now.side checked.now.task ≡ None }
    ensures ok { OnOk result (OfRun checked.now.task run.now
        (λ plan. IsPut (evaluated_lines checked.now.task plan)
        (S.seen out.old).written (S.seen out.new).written)) }
    ensures partly { OnErr result (OfRun checked.now.task run.now
        (λ plan. IsPartlyPut (evaluated_lines checked.now.task plan)
        (S.seen out.old).written (S.seen out.new).written)) }
    ensures failed { OnErr result (Rose (S.seen out.old).faults (S.seen out.new).faults) }
    ensures faults_grow { (S.seen out.old).faults ≤ (S.seen out.new).faults }
{
    let steps = Part::Steps(run.steps() as u64);
    let cost = Part::Cost(cost_of(checked, run));
    put_parts(&[Part::Valid, steps, cost], out)?;
    put_violations(checked, run, out)?;
    put_part(&Part::Metric(metric_of(checked, run.metric())), out)
}

/// Puts how often the preferences of each name are violated.
fn put_violations<S: Sink>(checked: &Checked, run: &Run<'_>, out: &mut S) -> Result<(), SinkFailed>
    requires { BelongTogether checked.now.task run.now.task run.now.weights }
    ensures ok { OnOk result (OfRun checked.now.task run.now
        (λ plan. IsPut (violated_lines checked.now.task plan)
        (S.seen out.old).written (S.seen out.new).written)) }
    ensures partly { OnErr result (OfRun checked.now.task run.now
        (λ plan. IsPartlyPut (violated_lines checked.now.task plan)
        (S.seen out.old).written (S.seen out.new).written)) }
    ensures failed { OnErr result (Rose (S.seen out.old).faults (S.seen out.new).faults) }
    ensures faults_grow { (S.seen out.old).faults ≤ (S.seen out.new).faults }
{
    for number in 0..checked.names() {
        let Some(name) = checked.name(number) else {
            unreachable!()
        };
        put_part(&Part::Violated(name.bytes(), run.violations(number)), out)?;
    }
    Ok(())
}
