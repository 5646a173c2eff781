//! The three texts of a sample.

ghost use Rattle.std.specs.Prelude.{◌≡◌, ◌≤◌, IfOk, length};
ghost use Rattle.p3_base.specs.declared.refusal.Side.TheVariants.{Source};
ghost use Rattle.p3_tree.specs.Commands.{sample_limit};
ghost use Rattle.p3_tree.specs.Samples.{sample_domain, sample_problem, sample_plan};
ghost use Rattle.p3_task.specs.Sides.{byte_limit, plan_byte_limit};

use crate::sample_domain::domain_text;
use crate::sample_plan::plan_text;
use crate::sample_problem::problem_text;
use p3_base::{List, NoMemory};
use std::alloc::Global;

/// A task as two texts, and a plan of it as a third.
#[derive(Debug, Drop)]
pub struct Sample {
    /// The domain half, the same of every sample.
    pub domain: List<u8>,
    /// The problem half.
    pub problem: List<u8>,
    /// The plan, a line for each step.
    pub plan: List<u8>,
}

/// The sample with n packages. Each text is short enough to be read.
pub fn generate(alloc: Global, n: u32) -> Result<Sample, NoMemory>
    requires some { 1 ≤ n }
    requires few { n ≤ sample_limit }
    ensures domain { IfOk result (λ sample. sample.domain ≡ sample_domain) }
    ensures problem { IfOk result (λ sample. sample.problem ≡ sample_problem n) }
    ensures plan { IfOk result (λ sample. sample.plan ≡ sample_plan n) }
    ensures short_domain { IfOk result (λ sample. length sample.domain ≤ byte_limit Source) }
    ensures short_problem { IfOk result (λ sample. length sample.problem ≤ byte_limit Source) }
    ensures short_plan { IfOk result (λ sample. length sample.plan ≤ plan_byte_limit) }
{
    let domain = domain_text(alloc)?;
    let problem = problem_text(alloc, n)?;
    let plan = plan_text(alloc, n)?;
    Ok(Sample {
        domain: List::from(domain.into_bytes()),
        problem: List::from(problem.into_bytes()),
        plan: List::from(plan.into_bytes()),
    })
}
