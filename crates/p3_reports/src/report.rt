//! What each command reports where it is done.

ghost use Rattle.std.specs.Prelude.{◌≤◌, OnErr, OnOk};
ghost use Rattle.p3_base.specs.Outside.{IsPartlyPut, IsPut, Rose};
ghost use Rattle.p3_reports.specs.Reports.{
  compile_text,
  embed_text,
  evaluate_text,
  generate_text,
  lift_text,
  report_text,
};

use crate::explanation::{ExplainReport, put_explain_report};
use crate::part::{NameCount, Part, put_parts};
use crate::quantity::Quantity;
use p3_base::{Direction, List, Sink, SinkFailed};

/// What is found of a task that was compiled.
#[derive(Clone, Copy, Debug)]
pub struct CompileReport {
    /// How many steps it has.
    pub steps: u64,
    /// How many preference instances it has.
    pub preferences: u64,
    /// The loss of no violation.
    pub base: Quantity,
    /// Whether its metric's value is to be small or great.
    pub direction: Direction,
}

/// What is found of a task that was compiled, and of a plan that was embedded in its target.
#[derive(Clone, Copy, Debug)]
pub struct EmbedReport {
    /// What is found of the task.
    pub task: CompileReport,
    /// How many steps the embedded plan has.
    pub len: u64,
    /// What it costs in the written task.
    pub cost: i128,
}

/// What is found of a valid plan.
#[derive(Debug, Drop)]
pub struct EvaluateReport {
    /// How many steps it has.
    pub steps: u64,
    /// What it costs.
    pub cost: Quantity,
    /// How often the preferences of each name are violated.
    pub violations: List<NameCount>,
    /// The value of the metric.
    pub metric: Quantity,
}

/// What is found of a lifted plan.
#[derive(Clone, Copy, Debug)]
pub struct LiftReport {
    /// How many steps it has.
    pub steps: u64,
    /// What the plan from which it was lifted costs in the written task.
    pub cost: i128,
    /// The value of the metric.
    pub metric: Quantity,
}

/// What is found of a sample.
#[derive(Clone, Copy, Debug)]
pub struct GenerateReport {
    /// How many steps its task has.
    pub steps: u64,
    /// How many preference instances its task has.
    pub preferences: u64,
    /// How many steps its plan has.
    pub plan: u64,
    /// How many steps its embedded plan has.
    pub embedded: u64,
    /// What the embedded plan costs in the written task.
    pub cost: i128,
    /// The value of the metric.
    pub metric: Quantity,
}

/// What a command reports.
#[derive(Debug, Drop)]
pub enum Report {
    /// `compile` is done.
    Compile(CompileReport),
    /// `embed` is done.
    Embed(EmbedReport),
    /// `evaluate` is done.
    Evaluate(EvaluateReport),
    /// `lift` is done.
    Lift(LiftReport),
    /// `generate` is done.
    Generate(GenerateReport),
    /// `explain` is done.
    Explain(ExplainReport),
}

/// Puts a report.
pub fn put_report<S: Sink>(report: &Report, out: &mut S) -> Result<(), SinkFailed>
    ensures ok { OnOk result (IsPut (report_text report.now)
        (S.seen out.old).written (S.seen out.new).written) }
    ensures partly { OnErr result (IsPartlyPut (report_text report.now)
        (S.seen out.old).written (S.seen out.new).written) }
    ensures failed { OnErr result (Rose (S.seen out.old).faults (S.seen out.new).faults) }
    ensures faults_grow { (S.seen out.old).faults ≤ (S.seen out.new).faults }
{
    match report {
        Report::Compile(report) => put_compile_report(report, out),
        Report::Embed(report) => put_embed_report(report, out),
        Report::Evaluate(report) => put_evaluate_report(report, out),
        Report::Lift(report) => put_lift_report(report, out),
        Report::Generate(report) => put_generate_report(report, out),
        Report::Explain(report) => put_explain_report(report, out),
    }
}

/// Puts the report of a task that was compiled.
fn put_compile_report<S: Sink>(report: &CompileReport, out: &mut S) -> Result<(), SinkFailed>
    ensures ok { OnOk result (IsPut (compile_text report.now)
        (S.seen out.old).written (S.seen out.new).written) }
    ensures partly { OnErr result (IsPartlyPut (compile_text report.now)
        (S.seen out.old).written (S.seen out.new).written) }
    ensures failed { OnErr result (Rose (S.seen out.old).faults (S.seen out.new).faults) }
    ensures faults_grow { (S.seen out.old).faults ≤ (S.seen out.new).faults }
{
    put_parts(
        &[
            Part::Steps(report.steps),
            Part::Preferences(report.preferences),
            Part::Base(report.base),
            Part::Direction(report.direction),
            Part::Scale(report.base),
        ],
        out,
    )
}

/// Puts the report of a plan that was embedded.
fn put_embed_report<S: Sink>(report: &EmbedReport, out: &mut S) -> Result<(), SinkFailed>
    ensures ok { OnOk result (IsPut (embed_text report.now)
        (S.seen out.old).written (S.seen out.new).written) }
    ensures partly { OnErr result (IsPartlyPut (embed_text report.now)
        (S.seen out.old).written (S.seen out.new).written) }
    ensures failed { OnErr result (Rose (S.seen out.old).faults (S.seen out.new).faults) }
    ensures faults_grow { (S.seen out.old).faults ≤ (S.seen out.new).faults }
{
    put_parts(
        &[
            Part::Steps(report.task.steps),
            Part::Preferences(report.task.preferences),
            Part::Base(report.task.base),
            Part::Direction(report.task.direction),
            Part::Scale(report.task.base),
            Part::Embedded(report.len),
            Part::WrittenCost(report.cost),
        ],
        out,
    )
}

/// Puts the report of a valid plan.
fn put_evaluate_report<S: Sink>(report: &EvaluateReport, out: &mut S) -> Result<(), SinkFailed>
    ensures ok { OnOk result (IsPut (evaluate_text report.now)
        (S.seen out.old).written (S.seen out.new).written) }
    ensures partly { OnErr result (IsPartlyPut (evaluate_text report.now)
        (S.seen out.old).written (S.seen out.new).written) }
    ensures failed { OnErr result (Rose (S.seen out.old).faults (S.seen out.new).faults) }
    ensures faults_grow { (S.seen out.old).faults ≤ (S.seen out.new).faults }
{
    put_parts(
        &[
            Part::Valid,
            Part::Steps(report.steps),
            Part::Cost(report.cost),
            Part::Violations(report.violations.items()),
            Part::Metric(report.metric),
        ],
        out,
    )
}

/// Puts the report of a lifted plan.
fn put_lift_report<S: Sink>(report: &LiftReport, out: &mut S) -> Result<(), SinkFailed>
    ensures ok { OnOk result (IsPut (lift_text report.now)
        (S.seen out.old).written (S.seen out.new).written) }
    ensures partly { OnErr result (IsPartlyPut (lift_text report.now)
        (S.seen out.old).written (S.seen out.new).written) }
    ensures failed { OnErr result (Rose (S.seen out.old).faults (S.seen out.new).faults) }
    ensures faults_grow { (S.seen out.old).faults ≤ (S.seen out.new).faults }
{
    put_parts(
        &[
            Part::Steps(report.steps),
            Part::WrittenCost(report.cost),
            Part::Metric(report.metric),
        ],
        out,
    )
}

/// Puts the report of a sample.
fn put_generate_report<S: Sink>(report: &GenerateReport, out: &mut S) -> Result<(), SinkFailed>
    ensures ok { OnOk result (IsPut (generate_text report.now)
        (S.seen out.old).written (S.seen out.new).written) }
    ensures partly { OnErr result (IsPartlyPut (generate_text report.now)
        (S.seen out.old).written (S.seen out.new).written) }
    ensures failed { OnErr result (Rose (S.seen out.old).faults (S.seen out.new).faults) }
    ensures faults_grow { (S.seen out.old).faults ≤ (S.seen out.new).faults }
{
    put_parts(
        &[
            Part::Steps(report.steps),
            Part::Preferences(report.preferences),
            Part::Plan(report.plan),
            Part::Embedded(report.embedded),
            Part::WrittenCost(report.cost),
            Part::Metric(report.metric),
        ],
        out,
    )
}
