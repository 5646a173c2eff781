//! What a metric is made of.

ghost use Rattle.std.specs.Prelude.{◌*◌, ◌<◌, ◌^◌, ◌≤◌};

use p3_base::List;
use p3_reports::Quantity;

/// What the violations of the preferences of a name add to the loss.
#[derive(Clone, Copy, Debug)]
pub struct NameShare {
    /// The number of the name.
    pub name: u32,
    /// What each adds, in units of the metric.
    pub weight: u64,
    /// How many there are.
    pub count: u64,
    pub ghost small: { weight * count < 2 ^ 127 },
}

/// What the growth of the total cost adds to the loss.
#[derive(Clone, Copy, Debug)]
pub struct CostShare {
    /// What each unit of the costs adds, in units of the metric.
    pub weight: u64,
    /// How many units the total cost has grown by.
    pub growth: u128,
    pub ghost grown: { growth < 2 ^ 127 },
    pub ghost small: { weight * growth < 2 ^ 127 },
}

/// What the metric of a plan is made of.
#[derive(Debug, Drop)]
pub struct Shares {
    /// How many decimal places the metric has.
    pub places: u32,
    /// How many decimal places the costs have.
    pub cost_places: u32,
    /// The loss of no violation and no growth of the total cost.
    pub base: Quantity,
    /// What each preference name adds.
    pub names: List<NameShare>,
    /// What the total cost adds.
    pub cost: CostShare,
    /// The loss.
    pub loss: Quantity,
    /// The value of the metric.
    pub metric: Quantity,
    pub ghost few: { places ≤ 6 },
    pub ghost few_of_costs: { cost_places ≤ 6 },
}
