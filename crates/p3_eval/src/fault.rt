//! Why a plan is not valid.

/// Why a plan is not valid.
#[derive(Clone, Copy, Debug, PartialEq, Eq)]
pub enum FaultKind {
    /// No action has the step's name.
    UnknownAction,
    /// The arguments are not as many as the parameters, or not objects of their types.
    Arguments,
    /// The hard precondition does not hold before the step.
    Precondition,
    /// The step has no cost.
    NoCost,
    /// The hard goal does not hold at the end.
    Goal,
    /// The goal holds, and this is the first hard constraint that is not satisfied.
    Unmet(usize),
}

/// The first fault of a plan that is not valid.
#[derive(Clone, Copy, Debug, PartialEq, Eq)]
pub struct PlanFault {
    /// The step, counted from 1; 0 for the goal and for constraints.
    pub step: u32,
    /// What is wrong.
    pub kind: FaultKind,
}
