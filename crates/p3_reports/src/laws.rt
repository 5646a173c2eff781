//! The laws of reports. Each is the contract of a function without a body.

ghost use Rattle.std.specs.Prelude.{◌≡◌, List, ℕ, ℤ};
ghost use Rattle.p3_base.specs.declared.refusal.Refusal.{Refusal};
ghost use Rattle.p3_task.specs.Plans.{Plan};
ghost use Rattle.p3_task.specs.Validity.{Fault};
ghost use Rattle.p3_tree.specs.Reports.Explanations.{explained_lines};
ghost use Rattle.p3_tree.specs.Reports.Plans.{
  embedded_lines,
  evaluated_lines,
  generated_lines,
  lifted_lines,
};
ghost use Rattle.p3_tree.specs.Reports.Refusals.{refusal_line};
ghost use Rattle.p3_tree.specs.Reports.Tasks.{compiled_lines};
ghost use Rattle.p3_task.specs.declared.task.Task.{Task};
ghost use Rattle.p3_reports.specs.Explained.{IsExplainReport, explain_text};
ghost use Rattle.p3_reports.specs.Faults.{fault_named, fault_of};
ghost use Rattle.p3_reports.specs.Contents.{
  IsCompileReport,
  IsEmbedReport,
  IsEvaluateReport,
  IsGenerateReport,
  IsLiftReport,
};
ghost use Rattle.p3_reports.specs.Rejections.{placed_in, placed_line};
ghost use Rattle.p3_reports.specs.Reports.{
  compile_text,
  embed_text,
  evaluate_text,
  generate_text,
  lift_text,
};
ghost use Rattle.p3_reports.specs.declared.explanation.ExplainReport.{ExplainReport};
ghost use Rattle.p3_reports.specs.declared.report.CompileReport.{CompileReport};
ghost use Rattle.p3_reports.specs.declared.report.EmbedReport.{EmbedReport};
ghost use Rattle.p3_reports.specs.declared.report.EvaluateReport.{EvaluateReport};
ghost use Rattle.p3_reports.specs.declared.report.GenerateReport.{GenerateReport};
ghost use Rattle.p3_reports.specs.declared.report.LiftReport.{LiftReport};

/// What is found of a task and a plan, and a refusal of a text, are printed as the lines that the
/// definitions give them.
pub fn reports_are_lines()
    ensures compile { (T : Task) (report : CompileReport) → IsCompileReport T report
        → compile_text report ≡ compiled_lines T }
    ensures embed { (T : Task) (len : ℕ) (cost : ℤ) (report : EmbedReport)
        → IsEmbedReport T len cost report → embed_text report ≡ embedded_lines T len cost }
    ensures evaluate { (T : Task) (plan : Plan) (report : EvaluateReport)
        → IsEvaluateReport T plan report → evaluate_text report ≡ evaluated_lines T plan }
    ensures lift { (T : Task) (plan : Plan) (cost : ℤ) (report : LiftReport)
        → IsLiftReport T plan cost report → lift_text report ≡ lifted_lines T plan cost }
    ensures generate { (T : Task) (plan : Plan) (len : ℕ) (cost : ℤ) (report : GenerateReport)
        → IsGenerateReport T plan len cost report
        → generate_text report ≡ generated_lines T plan len cost }
    ensures explain { (T : Task) (plan : Plan) (report : ExplainReport)
        → IsExplainReport T plan report → explain_text report ≡ explained_lines T plan }
    ensures refusal { (text : List ℕ) (refusal : Refusal)
        → placed_line (placed_in text refusal) ≡ refusal_line text refusal }
{}

/// The fault that the code names for one of the definitions is that one.
pub fn faults_are_named()
    ensures { (fault : Fault) → fault_of (fault_named fault) ≡ fault }
{}
