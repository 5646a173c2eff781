//! What lifting a plan answers.

ghost use Rattle.std.specs.Prelude.{◌≡◌};

use p3_base::NoMemory;
use p3_eval::PlanFault;
use p3_task::Plan;
use thiserror::Error;

/// A lifted plan, which is valid for the task read.
#[derive(Debug, Drop)]
pub struct Lifted {
    /// Its steps.
    pub plan: Plan,
    /// What the plan from which it was lifted costs in the written task, in units of its metric. It
    /// is the loss of the lifted plan above the base, in units of the metric of the task read.
    pub cost: i128,
    /// Its value in the task read, in units of the metric.
    pub metric: i128,
}

/// A lifted plan by the numbers of its steps in the task read, for which it is valid.
#[derive(Debug, Drop)]
pub struct LiftedSteps {
    /// The numbers of its steps.
    pub numbers: Vec<u32>,
    /// The cost of a `Lifted`.
    pub cost: i128,
    /// The value of a `Lifted`.
    pub metric: i128,
}

/// How a lifted plan differs from the valid plan from which it was lifted.
#[derive(Clone, Copy, Debug, PartialEq, Eq)]
pub enum Differ {
    /// It is not valid, and this is its first fault.
    Fault(PlanFault),
    /// It is valid, and the two numbers are not the same.
    Numbers {
        /// What the plan from which it was lifted costs in the written task, in units of the
        /// metric of that task.
        cost: i128,
        /// The loss of the lifted plan above the base, in units of the metric of the task read.
        loss: i128,
    },
}

/// Why a plan was not lifted.
#[derive(Debug, Drop, Error)]
pub enum LiftFail {
    /// The written task is not plain.
    #[error("the written task is not plain")]
    NotPlain,
    /// The plan is not valid for the written task, and this is its first fault.
    #[error("the plan is not valid")]
    Invalid(PlanFault),
    /// The plan is valid for the written task, and its lifted plan differs.
    #[error("the lifted plan differs")]
    Mismatch(Differ),
    /// Memory is wanting.
    #[error("want of memory")]
    NoMemory,
}

impl From<NoMemory> for LiftFail {
    ghost use Rattle.p3_lift.specs.declared.answers.LiftFail.TheVariants as fail;

    ghost from_gives = { λ _ f. f ≡ fail.NoMemory };

    fn from(_error: NoMemory) -> LiftFail {
        LiftFail::NoMemory
    }
}
