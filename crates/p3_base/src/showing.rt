//! Why constraints and preferences are satisfied or not.

/// What shows whether a trajectory constraint is satisfied over the visited states, which are counted
/// from 0.
#[derive(Clone, Copy, Debug, PartialEq, Eq)]
pub enum Showing {
    /// It is satisfied, and no one state shows it.
    Holds,
    /// Something holds in this state.
    HoldsAt(u32),
    /// Something holds in no state.
    HoldsNowhere,
    /// Something fails in this state.
    FailsAt(u32),
    /// Something holds in a state, then in another one not, and then again.
    Again {
        /// Where it holds first.
        first: u32,
        /// Where it does not hold behind that.
        gap: u32,
        /// Where it holds behind that.
        again: u32,
    },
}

/// What a reason is of. Steps are counted from 1, all else from 0.
#[derive(Clone, Copy, Debug, PartialEq, Eq)]
pub enum Subject {
    /// A hard constraint.
    Hard(u32),
    /// One operator of an instance of a preference in constraints or the goal.
    Soft {
        /// The number of the instance.
        instance: u32,
        /// The number of the operator.
        part: u32,
    },
    /// An instance of a preference in the precondition of a step.
    Pre {
        /// The step.
        step: u32,
        /// The number of the instance.
        pref: u32,
    },
}

/// Why a constraint or a preference is satisfied or not.
#[derive(Clone, Copy, Debug, PartialEq, Eq)]
pub struct Reason {
    /// What it is of.
    pub subject: Subject,
    /// What shows it.
    pub showing: Showing,
}
