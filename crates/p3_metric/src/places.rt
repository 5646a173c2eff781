//! The decimal places of metrics.

ghost use Rattle.std.specs.Prelude.{◌≡◌, ◌≤◌, max, None};
ghost use Rattle.p3_task.specs.Costs.{cost_places as places_of_costs};
ghost use Rattle.p3_task.specs.Metrics.{metric_places as places_of_metric};
ghost use Rattle.p3_task.specs.Refusals.Metric.{metric_refusals};
ghost use Rattle.p3_task.specs.Refusals.Places.{first_some};
ghost use Rattle.p3_metric.specs.Cut.{cut, cut_most, cut_places, cut_total};

use crate::evaluate::Evaluator;
use p3_task::{Num, Numeral, Task};
use p3_types::Checked;

/// Counts the decimal places of expressions over the counts and the total cost of a task.
#[derive(Drop)]
pub(crate) struct PlaceCount<'t> {
    task: &'t Task,
    /// The decimal places of the task's costs.
    cost_places: u32,
    ghost counted: { cost_places ≡ places_of_costs task.now },
}

/// How many decimal places the metric has, 0 without a metric: a value and a loss are numbers of
/// units of the last of them.
pub fn metric_places(task: &Checked) -> u32
    requires { first_some (metric_refusals task.now.side task.now.task) ≡ None }
    ensures places { result ≡ places_of_metric task.now.task }
    ensures few { result ≤ 6 }
{
    let count = PlaceCount {
        task: task.task(),
        cost_places: task.cost_places(),
    };
    count.metric_places()
}

/// The decimal places of a number.
fn number_places(numeral: Numeral) -> u32
    ensures { result ≡ cut numeral.places }
{
    numeral.places
}

/// The larger number.
fn larger(first: u32, second: u32) -> u32
    ensures { result ≡ max first second }
{
    first.max(second)
}

impl<'t> Evaluator<'t> {
    /// The decimal places of the expression, or `u32::MAX` where they are more.
    pub(crate) fn places(&self, tree: &Num) -> u32
        ensures { result ≡ cut_places self.now.task.now tree.now }
    {
        let count = PlaceCount {
            task: self.task,
            cost_places: self.cost_places,
        };
        count.places(tree)
    }
}

impl<'t> PlaceCount<'t> {
    /// The decimal places of the metric, or `u32::MAX` where they are more.
    fn metric_places(&self) -> u32
        ensures { result ≡ cut (places_of_metric self.now.task.now) }
    {
        match &self.task.problem.metric {
            None => 0,
            Some(metric) => self.places(&metric.body),
        }
    }

    /// The decimal places of the total cost.
    fn total_places(&self) -> u32
        ensures { result ≡ cut (places_of_costs self.now.task.now) }
    {
        self.cost_places
    }

    /// The decimal places of the expression, or `u32::MAX` where they are more.
    #[cycle(places)]
    #[tactic(auto, using(crate::proofs::CutLaws::cut_laws))]
    fn places(&self, tree: &Num) -> u32
        ensures { result ≡ cut_places self.now.task.now tree.now }
    {
        match tree {
            Num::Number(numeral) => number_places(*numeral),
            Num::TotalCost(_) => self.total_places(),
            Num::Violated(_) => 0,
            Num::Neg(_, part) => self.places(part.get()),
            Num::Sub(_, first, second) => self.places(first.get()).max(self.places(second.get())),
            Num::Sum(_, parts) => self.most_places(parts.items()),
            Num::Product(_, parts) => self.all_places(parts.items()),
        }
    }

    /// The most decimal places that one of the parts has.
    #[cycle(places)]
    fn most_places(&self, parts: &[Num]) -> u32
        ensures { result ≡ cut_most self.now.task.now parts.now }
    {
        let mut most = 0;
        for part in parts {
            most = larger(most, self.places(part));
        }
        most
    }

    /// The decimal places of all parts together.
    #[cycle(places)]
    fn all_places(&self, parts: &[Num]) -> u32
        ensures { result ≡ cut_total self.now.task.now parts.now }
    {
        let mut total: u32 = 0;
        for part in parts {
            total = total.saturating_add(self.places(part));
        }
        total
    }
}
