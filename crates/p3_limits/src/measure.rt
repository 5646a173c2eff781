//! What is measured of an action.

ghost use Rattle.std.specs.Prelude.{◌≡◌};
ghost use Rattle.p3_limits.specs.Cuts.{cut};
ghost use Rattle.p3_limits.specs.Bounds as bounds;

use p3_base::Code;

/// What is measured of an action.
#[derive(Clone, Copy)]
pub(crate) enum Measure {
    /// Its cost bound: its weighted costs, and the weights of all preferences of its precondition.
    Cost,
    /// Its split width: how many preferences of its precondition have a weight.
    Width,
}

impl Measure {
    /// The greatest that is accepted.
    pub(crate) fn limit(self) -> u64
        ensures { result ≡ bounds.limit_of self }
    {
        match self {
            Measure::Cost => (1 << 62) - 1,
            Measure::Width => 200,
        }
    }

    /// Why more is refused.
    pub(crate) fn code(self) -> Code
        ensures { result ≡ bounds.code_of self }
    {
        match self {
            Measure::Cost => Code::CostTooLarge,
            Measure::Width => Code::SplitTooWide,
        }
    }

    /// What a preference of the weight counts for.
    #[tactic(auto, unfolding(crate::specs::Cuts::cut))]
    pub(crate) fn share(self, weight: u64) -> u64
        ensures { result ≡ cut (bounds.share self weight) }
    {
        match self {
            Measure::Cost => weight,
            Measure::Width => if 0 < weight { 1 } else { 0 },
        }
    }
}
