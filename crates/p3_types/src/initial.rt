//! The total cost before the first step.

ghost use Rattle.std.specs.Prelude.{◌≡◌, ◌≤◌, []};
ghost use Rattle.p3_task.specs.Costs.{cost_places, entry_value, initial_cost as cost_at_start};
ghost use Rattle.p3_task.specs.Names.{total_cost};

use crate::Checked;
use p3_numbers::units_at;
use p3_task::{Init, Task};

/// The value that the entry gives to the total cost, in units of so many decimal places, if it does.
fn total_cost_of(task: &Task, places: u32, entry: &Init) -> Option<u128>
    requires few { places ≤ 6 }
    requires places { places ≡ cost_places task.now }
    ensures { result ≡ entry_value task.now total_cost [] entry.now }
{
    match entry {
        Init::Value {
            function,
            args,
            number,
        } => {
            if function.name.bytes() == b"total-cost".as_slice() && args.is_empty() {
                return Some(units_at(number, places));
            }
            None
        }
        Init::True { .. } => None,
        Init::False { .. } => None,
    }
}

/// The total cost before the first step, in units of so many decimal places.
fn units_at_start(task: &Task, places: u32) -> u128
    requires few { places ≤ 6 }
    requires places { places ≡ cost_places task.now }
    ensures { result ≡ cost_at_start task.now }
{
    for entry in task.problem.init.items() {
        if let Some(units) = total_cost_of(task, places, entry) {
            return units;
        }
    }
    0
}

impl Checked {
    /// The total cost before the first step, in units of the last decimal place of the task's
    /// costs.
    pub fn initial_cost(&self) -> u128
        ensures { result ≡ cost_at_start self.now.task }
    {
        units_at_start(&self.task, self.cost_places())
    }
}
