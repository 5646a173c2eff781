//! The evaluation of a metric to a linear form, up to the first operation that is too large.

ghost use Rattle.std.specs.Prelude.{◌≡◌, ◌≤◌, true, false, IfOk, IfErr, OnOk, OnErr};
ghost use Rattle.p3_base.specs.declared.refusal.Code.TheVariants.{CostTooLarge};
ghost use Rattle.p3_task.specs.Costs.{cost_places as places_of_costs, initial_cost as cost_at_start};
ghost use Rattle.p3_task.specs.Refusals.Metric.{operations};
ghost use Rattle.p3_task.specs.Refusals.Places.{refusal_at};
ghost use Rattle.p3_task.specs.Sides.{InProblem, role_of};
ghost use Rattle.p3_task.specs.declared.metric.Num.TheVariants as num;
ghost use Rattle.p3_metric.specs.Evaluation.{IsEvaluated, IsFailure, IsFit};
ghost use Rattle.p3_metric.specs.Forms.{IsBounded};
ghost use Rattle.p3_metric.specs.declared.error.MetricFail.TheVariants as fail;
ghost use Rattle.p3_limits.specs.Cuts.{cut};

use crate::MetricFail;
use crate::leaves::{constant, count, total_cost};
use crate::linear::{Linear, Measured, minus, negated, plus, product};
use p3_base::{Code, Pos, Refusal, Role, Side};
use p3_numbers::Key;
use p3_task::{Num, Numeral, Ref, Task};
use std::alloc::Global;

/// Evaluates expressions over the counts and the total cost of a task.
#[derive(Drop)]
pub(crate) struct Evaluator<'t> {
    pub(crate) alloc: Global,
    /// The key of the names of the task's preferences.
    pub(crate) key: Key,
    /// The task whose metric is evaluated.
    pub(crate) task: &'t Task,
    /// The side of the task.
    pub(crate) side: Side,
    /// The text that the metric stands in.
    pub(crate) role: Role,
    /// The decimal places of the task's costs.
    pub(crate) cost_places: u32,
    /// The total cost before the first step, or `u64::MAX` where it is more.
    pub(crate) initial_cost: u64,
    ghost sided: { role ≡ role_of side InProblem },
    ghost counted: { cost_places ≡ places_of_costs task.now },
    ghost few: { cost_places ≤ 6 },
    ghost started: { initial_cost ≡ cut (cost_at_start task.now) },
}

/// The form where it is small, else the refusal.
fn accepted<'t>(measured: Measured<'t>, refusal: Refusal) -> Result<Linear<'t>, MetricFail>
    ensures form { IfOk result (λ form. form ≡ measured.entry.form) }
    ensures small { OnOk result (measured.entry.small ≡ true) }
    ensures refusal { IfErr result (λ error. error ≡ fail.Refused refusal) }
    ensures large { OnErr result (measured.entry.small ≡ false) }
{
    let Measured { form, small } = measured;
    if small {
        Ok(form)
    } else {
        Err(MetricFail::Refused(refusal))
    }
}

impl<'t> Evaluator<'t> {
    /// The refusal of an operation that is too large, at its operator.
    fn too_large(&self, at: u32) -> Refusal
        ensures { result ≡ refusal_at CostTooLarge self.now.role at 1 }
    {
        Refusal {
            code: Code::CostTooLarge,
            pos: Pos {
                role: self.role,
                offset: at,
            },
            len: 1,
        }
    }

    /// The form of the expression, or the first operation that is too large, at its operator.
    #[cycle(evaluate)]
    pub(crate) fn evaluate(&self, tree: &'t Num) -> Result<Linear<'t>, MetricFail>
        requires { IsFit self.now.task.now tree.now }
        ensures form { IfOk result (IsEvaluated self.now.task.now tree.now) }
        ensures fails { IfErr result
            (IsFailure self.now.task.now self.now.role (operations tree.now)) }
    {
        match tree {
            Num::Number(numeral) => self.number(*numeral),
            Num::TotalCost(at) => self.cost(*at),
            Num::Violated(name) => self.violated(name),
            Num::Neg(at, part) => self.negation(*at, part.get()),
            // A `?` would keep one more form on the stack for each level.
            Num::Sub(at, first, second) => match self.evaluate(first.get()) {
                Ok(minuend) => self.difference(*at, minuend, second.get()),
                Err(fail) => Err(fail),
            },
            Num::Sum(at, parts) => self.sum(*at, parts.items()),
            Num::Product(at, parts) => self.product(*at, parts.items()),
        }
    }

    /// The form of a number.
    #[inline(never)]
    fn number(&self, numeral: Numeral) -> Result<Linear<'t>, MetricFail>
        requires { IsFit self.now.task.now (num.Number numeral) }
        ensures form { IfOk result (IsEvaluated self.now.task.now (num.Number numeral)) }
        ensures fails { IfErr result
            (IsFailure self.now.task.now self.now.role (operations (num.Number numeral))) }
    {
        Ok(constant(self.alloc, self.key, numeral.digits, numeral.places))
    }

    /// The form of the total cost.
    #[inline(never)]
    fn cost(&self, at: u32) -> Result<Linear<'t>, MetricFail>
        requires { IsFit self.now.task.now (num.TotalCost at) }
        ensures form { IfOk result (IsEvaluated self.now.task.now (num.TotalCost at)) }
        ensures fails { IfErr result
            (IsFailure self.now.task.now self.now.role (operations (num.TotalCost at))) }
    {
        Ok(total_cost(self.alloc, self.key, self.cost_places))
    }

    /// The form of a count.
    #[inline(never)]
    fn violated(&self, name: &'t Ref) -> Result<Linear<'t>, MetricFail>
        ensures form { IfOk result (IsEvaluated self.now.task.now (num.Violated name.now)) }
        ensures fails { IfErr result
            (IsFailure self.now.task.now self.now.role (operations (num.Violated name.now))) }
    {
        let form = count(self.alloc, self.key, name.name.bytes())?;
        Ok(form)
    }

    /// The form of a negation.
    #[inline(never)]
    #[cycle(evaluate)]
    fn negation(&self, at: u32, part: &'t Num) -> Result<Linear<'t>, MetricFail>
        requires { IsFit self.now.task.now (num.Neg at part.now) }
        ensures form { IfOk result (IsEvaluated self.now.task.now (num.Neg at part.now)) }
        ensures fails { IfErr result
            (IsFailure self.now.task.now self.now.role (operations (num.Neg at part.now))) }
    {
        let form = self.evaluate(part)?;
        let measured = negated(self.alloc, form)?;
        accepted(measured, self.too_large(at))
    }

    /// The form of a difference, of which the first part has been evaluated to the minuend.
    #[inline(never)]
    #[cycle(evaluate)]
    fn difference(
        &self,
        at: u32,
        minuend: Linear<'t>,
        second: &'t Num,
    ) -> Result<Linear<'t>, MetricFail>
        requires bounded { IsBounded minuend }
        requires fit { IsFit self.now.task.now second.now }
        ensures form { IfOk result (λ form. (first : Num)
            → IsEvaluated self.now.task.now first minuend.entry
            → IsEvaluated self.now.task.now (num.Sub at first second.now) form) }
        ensures fails { IfErr result (λ fail. (first : Num)
            → IsEvaluated self.now.task.now first minuend.entry
            → IsFailure self.now.task.now self.now.role
            (operations (num.Sub at first second.now)) fail) }
    {
        match self.evaluate(second) {
            Ok(subtrahend) => self.subtracted(at, minuend, subtrahend),
            Err(fail) => Err(fail),
        }
    }

    /// The form of a difference, of which both parts have been evaluated.
    #[inline(never)]
    fn subtracted(
        &self,
        at: u32,
        minuend: Linear<'t>,
        subtrahend: Linear<'t>,
    ) -> Result<Linear<'t>, MetricFail>
        requires minuend { IsBounded minuend }
        requires subtrahend { IsBounded subtrahend }
        ensures form { IfOk result (λ form. (first second : Num)
            → IsEvaluated self.now.task.now first minuend.entry
            → IsEvaluated self.now.task.now second subtrahend.entry
            → IsEvaluated self.now.task.now (num.Sub at first second) form) }
        ensures fails { IfErr result (λ fail. (first second : Num)
            → IsEvaluated self.now.task.now first minuend.entry
            → IsEvaluated self.now.task.now second subtrahend.entry
            → IsFailure self.now.task.now self.now.role
            (operations (num.Sub at first second)) fail) }
    {
        let measured = minus(self.alloc, minuend, subtrahend)?;
        accepted(measured, self.too_large(at))
    }

    /// The form of a sum.
    #[inline(never)]
    #[cycle(evaluate)]
    fn sum(&self, at: u32, parts: &'t [Num]) -> Result<Linear<'t>, MetricFail>
        requires { IsFit self.now.task.now (num.Sum at parts.now) }
        ensures form { IfOk result (IsEvaluated self.now.task.now (num.Sum at parts.now)) }
        ensures fails { IfErr result
            (IsFailure self.now.task.now self.now.role (operations (num.Sum at parts.now))) }
    {
        let mut sum = constant(self.alloc, self.key, 0, 0);
        for part in parts {
            let form = self.evaluate(part)?;
            let measured = plus(self.alloc, sum, form)?;
            sum = accepted(measured, self.too_large(at))?;
        }
        Ok(sum)
    }

    /// The form of a product.
    #[inline(never)]
    #[cycle(evaluate)]
    fn product(&self, at: u32, parts: &'t [Num]) -> Result<Linear<'t>, MetricFail>
        requires { IsFit self.now.task.now (num.Product at parts.now) }
        ensures form { IfOk result (IsEvaluated self.now.task.now (num.Product at parts.now)) }
        ensures fails { IfErr result
            (IsFailure self.now.task.now self.now.role (operations (num.Product at parts.now))) }
    {
        let mut done = constant(self.alloc, self.key, 1, 0);
        for part in parts {
            let form = self.evaluate(part)?;
            let measured = product(self.alloc, done, form)?;
            done = accepted(measured, self.too_large(at))?;
        }
        Ok(done)
    }
}
