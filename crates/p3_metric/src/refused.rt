//! What a metric is refused for before it is evaluated.

ghost use Rattle.std.specs.Prelude.{
  ◌≡◌,
  ◌∷◌,
  None,
  Some,
  codes,
  nat_lt,
  option_map,
  IfOk,
  IfErr,
  OnOk,
  if◌then◌else◌,
};
ghost use Rattle.p3_base.specs.declared.refusal.Code.TheVariants.{NonLinear};
ghost use Rattle.p3_task.specs.Refusals.Metric.{nonlinear_at, too_many_places_at};
ghost use Rattle.p3_task.specs.Refusals.Places as places;
ghost use Rattle.p3_metric.specs.Cut.{cut_places};
ghost use Rattle.p3_metric.specs.Evaluation.{IsMetricForm, refused_at};
ghost use Rattle.p3_metric.specs.Refused.{
  IsRefusal,
  large_of,
  early_refusals,
  nonlinear_of,
  too_many_places_of,
};

use crate::MetricFail;
use crate::evaluate::Evaluator;
use crate::factors::found_in;
use crate::leaves::constant;
use crate::linear::Linear;
use crate::words::refusal_at_operator;
use p3_base::{Code, NoMemory, Refusal, Role};
use p3_limits::{dear_amount, dear_value, refusal_at};
use p3_task::Num;

/// The decimal places that a metric may have.
const METRIC_PLACE_LIMIT: u32 = 6;

/// The refusal of a product of two quantities.
fn product_refusal(role: Role, product: Option<u32>) -> Option<Refusal>
    ensures { result ≡ option_map
        (λ at. places.refusal_at_word NonLinear role (places.word_at (codes "*") at)) product }
{
    match product {
        None => None,
        Some(at) => Some(refusal_at(Code::NonLinear, role, at, 1)),
    }
}

impl<'t> Evaluator<'t> {
    /// The first product of two quantities in the expression.
    fn nonlinear_in(&self, tree: &Num) -> Option<Refusal>
        ensures { result ≡ nonlinear_at self.now.side tree.now }
    {
        product_refusal(self.role, found_in(tree).product)
    }

    /// The refusal of too many decimal places.
    fn many_places_in(&self, tree: &Num) -> Result<Option<Refusal>, NoMemory>
        ensures { IfOk result (λ found. found
            ≡ (if nat_lt 6 (cut_places self.now.task.now tree.now)
            then Some (refused_at self.now.role tree.now) else None)) }
    {
        if METRIC_PLACE_LIMIT < self.places(tree) {
            Ok(Some(refusal_at_operator(self.role, tree)?))
        } else {
            Ok(None)
        }
    }

    /// The first product of two quantities in the metric.
    fn nonlinear(&self) -> Option<Refusal>
        ensures { result ≡ nonlinear_of self.now.side self.now.task.now }
    {
        match &self.task.problem.metric {
            None => None,
            Some(metric) => self.nonlinear_in(&metric.body),
        }
    }

    /// The refusal of a metric with too many decimal places.
    fn many_places(&self) -> Result<Option<Refusal>, NoMemory>
        ensures { IfOk result (λ found.
            found ≡ too_many_places_of self.now.side self.now.task.now) }
    {
        match &self.task.problem.metric {
            None => Ok(None),
            Some(metric) => self.many_places_in(&metric.body),
        }
    }

    /// The first refusal that is looked for before the metric is evaluated.
    pub(crate) fn early_refusal(&self) -> Result<Option<Refusal>, NoMemory>
        ensures { IfOk result (λ found.
            found ≡ places.first_some (early_refusals self.now.side self.now.task.now)) }
    {
        if let Some(refusal) = self.nonlinear() {
            return Ok(Some(refusal));
        }
        if let Some(refusal) = self.many_places()? {
            return Ok(Some(refusal));
        }
        match dear_amount(self.side, self.task, self.cost_places) {
            Some(refusal) => Ok(Some(refusal)),
            None => Ok(dear_value(self.side, self.task, self.cost_places)),
        }
    }

    /// The form of the metric, or the first operation in it that is too large.
    pub(crate) fn form(&self) -> Result<Linear<'t>, MetricFail>
        requires linear { nonlinear_of self.now.side self.now.task.now ≡ None }
        requires places { too_many_places_of self.now.side self.now.task.now ≡ None }
        ensures form { IfOk result (IsMetricForm self.now.task.now) }
        ensures small { OnOk result (large_of self.now.side self.now.task.now ≡ None) }
        ensures fails { IfErr result
            (IsRefusal (large_of self.now.side self.now.task.now)) }
    {
        match &self.task.problem.metric {
            None => Ok(constant(self.alloc, self.key, 0, 0)),
            Some(metric) => self.evaluate(&metric.body),
        }
    }
}
