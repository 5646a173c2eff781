//! The texts of a task and of a plan for it.

ghost use Rattle.std.specs.Prelude.{◌+◌, ◌<◌, ◌≤◌, ◌^◌, length};
ghost use Rattle.p3_task.specs.Sides.{plan_byte_limit};

/// The texts of a task and of a plan for it.
#[derive(Clone, Copy)]
pub struct PlanTexts<'a> {
    /// That of the domain.
    pub domain: &'a [u8],
    /// That of the problem.
    pub problem: &'a [u8],
    /// That of the plan.
    pub plan: &'a [u8],
    pub ghost domain_short: { length domain.now + 1 < 2 ^ 32 },
    pub ghost problem_short: { length problem.now + 1 < 2 ^ 32 },
    pub ghost plan_short: { length plan.now ≤ plan_byte_limit },
}
