//! The weights of a metric from its form.

ghost use Rattle.std.specs.Prelude.{
  ◌≡◌,
  ◌≤◌,
  ◌<◌,
  ◌^◌,
  pos,
  ◌+ℤ◌,
  ◌*ℤ◌,
  map,
  option_map,
  None,
  IfOk,
  IfErr,
  OnOk,
};
ghost use Rattle.std.specs.Int.RustNames.{unsigned_abs};
ghost use Rattle.p3_base.specs.declared.refusal.Code.TheVariants.{NegativeWeight};
ghost use Rattle.p3_task.specs.Costs.{initial_cost};
ghost use Rattle.p3_task.specs.Metrics.{direction as direction_of, signed};
ghost use Rattle.p3_task.specs.Refusals.Metric.{metric_refusals};
ghost use Rattle.p3_task.specs.Refusals.Places as places;
ghost use Rattle.p3_metric.specs.Entries.{AreBelow, number_at};
ghost use Rattle.p3_metric.specs.Evaluation.{IsMetricForm};
ghost use Rattle.p3_metric.specs.Refused.{HasShortStart, IsRefusal, negative_of};
ghost use Rattle.p3_metric.specs.Weighed.{HasWeightsOf, IsLinearMetric};

use crate::MetricFail;
use crate::entries::{Entries, number_of};
use crate::evaluate::Evaluator;
use crate::linear::Linear;
use crate::negative::first_negative;
use crate::spot::Spot;
use p3_base::{Code, Direction, List, Name, NoMemory, Refusal, Role, as_number};
use p3_formula::Weights;
use p3_limits::refusal_at;
use std::alloc::Global;

/// The absolute value of a number below the bound of weights.
fn magnitude(number: i128) -> u64
    requires { unsigned_abs number < 2 ^ 64 }
    ensures { result ≡ unsigned_abs number }
{
    number.unsigned_abs() as u64
}

/// The absolute value of a name's number.
fn weight_of(counts: &Entries, name: &Name) -> u64
    requires { unsigned_abs (number_at counts.now name.now) < 2 ^ 64 }
    ensures { result ≡ unsigned_abs (number_at counts.now name.now) }
{
    magnitude(number_of(counts, name.bytes()))
}

/// The absolute values of the numbers of the names.
fn weights_of(alloc: Global, counts: &Entries, names: &[Name]) -> Result<List<u64>, NoMemory>
    requires { AreBelow (2 ^ 64) (number_at counts.now) }
    ensures { IfOk result (λ weights.
        weights ≡ map (λ name. unsigned_abs (number_at counts.now name)) names.now) }
{
    let mut weights = List::new(alloc);
    for name in names {
        weights.push(weight_of(counts, name))?;
    }
    Ok(weights)
}

/// What the number is to what is to be small.
fn loss_of(direction: Direction, number: i128) -> i128
    requires { unsigned_abs number < 2 ^ 127 }
    ensures { result ≡ signed direction number }
{
    match direction {
        Direction::Minimize => number,
        Direction::Maximize => -number,
    }
}

/// The number with the cost at the start times its coefficient.
fn at_start(constant: i128, cost: i128, initial: u64) -> i128
    requires constant { unsigned_abs constant < 2 ^ 64 }
    requires cost { unsigned_abs cost < 2 ^ 62 }
    ensures value { result ≡ constant +ℤ cost *ℤ pos initial }
    ensures fits { unsigned_abs result < 2 ^ 127 }
{
    constant + cost * i128::from(initial)
}

/// The refusal of a negative weight at the word.
///
/// # Errors
///
/// Want of memory, for a word of 2 ^ 32 bytes or more.
fn negative_refusal(role: Role, spot: Option<Spot>) -> Result<Option<Refusal>, NoMemory>
    ensures { IfOk result (λ found. found ≡ option_map
        (λ spot. places.refusal_at NegativeWeight role spot.at spot.len) spot) }
{
    let Some(spot) = spot else {
        return Ok(None);
    };
    let len = as_number(spot.len)?;
    Ok(Some(refusal_at(Code::NegativeWeight, role, spot.at, len)))
}

impl<'t> Evaluator<'t> {
    /// The first mention of a count or of the total cost whose weight is below 0.
    fn negative(&self, form: &Linear) -> Result<Option<Refusal>, NoMemory>
        requires form { IsMetricForm self.now.task.now form.now }
        requires linear { IsLinearMetric self.now.task.now }
        ensures { IfOk result (λ found. found ≡ negative_of self.now.side self.now.task.now) }
    {
        match &self.task.problem.metric {
            None => Ok(None),
            Some(metric) => {
                let spot = first_negative(form, metric.direction, &metric.body);
                negative_refusal(self.role, spot)
            }
        }
    }

    /// The metric's direction.
    fn direction(&self) -> Direction
        ensures { result ≡ direction_of self.now.task.now }
    {
        match &self.task.problem.metric {
            None => Direction::Minimize,
            Some(metric) => metric.direction,
        }
    }

    /// The weights of the metric with this form, none of which is negative.
    fn weights_from(&self, form: Linear<'t>, names: &[Name]) -> Result<Weights, NoMemory>
        requires form { IsMetricForm self.now.task.now form }
        requires linear { IsLinearMetric self.now.task.now }
        requires negative { negative_of self.now.side self.now.task.now ≡ None }
        requires start { initial_cost self.now.task.now < 2 ^ 64 }
        ensures { IfOk result (HasWeightsOf names.now self.now.task.now) }
    {
        let Linear {
            places: _,
            constant,
            cost,
            counts,
            mention: _,
        } = form;
        let by_name = weights_of(self.alloc, &counts, names)?;
        let direction = self.direction();
        let base = loss_of(direction, at_start(constant, cost, self.initial_cost));
        let total_cost = magnitude(cost);
        Ok(Weights {
            total_cost,
            by_name,
            base,
            direction,
        })
    }

    /// The weights of the names and of the total cost in the task's metric, or its first refusal.
    pub(crate) fn weights(&self, names: &[Name]) -> Result<Weights, MetricFail>
        requires { HasShortStart self.now.side self.now.task.now }
        ensures weights { IfOk result (HasWeightsOf names.now self.now.task.now) }
        ensures accepted { OnOk result
            (places.first_some (metric_refusals self.now.side self.now.task.now) ≡ None) }
        ensures refused { IfErr result
            (IsRefusal (places.first_some (metric_refusals self.now.side self.now.task.now))) }
    {
        if let Some(refusal) = self.early_refusal()? {
            return Err(MetricFail::Refused(refusal));
        }
        let form = self.form()?;
        if let Some(refusal) = self.negative(&form)? {
            return Err(MetricFail::Refused(refusal));
        }
        let weights = self.weights_from(form, names)?;
        Ok(weights)
    }
}
