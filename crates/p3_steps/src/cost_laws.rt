//! The law of costs by number. It is the contract of a function without a body.

ghost use Rattle.p3_steps.specs.Costs.{CostsByNumber};

/// An effect of a well-formed task costs by numbers what it costs by names.
pub fn effects_cost_alike_by_number()
    ensures { CostsByNumber }
{}
