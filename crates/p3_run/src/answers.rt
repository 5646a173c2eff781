//! What a run answers.

/// What became of a step.
#[derive(Clone, Copy, Debug, PartialEq, Eq)]
pub enum Stepped {
    /// It is done.
    Done,
    /// It is not kept, or its precondition does not hold.
    Precondition,
    /// Its precondition holds, but it has no cost.
    NoCost,
}

/// What the steps done are as a plan.
#[derive(Clone, Copy, Debug, PartialEq, Eq)]
pub enum Verdict {
    /// A valid plan.
    Valid,
    /// The goal does not hold at their end.
    Goal,
    /// The goal holds, and this is the least place of a hard constraint that is not satisfied.
    Unmet(usize),
}
