//! What a checked task keeps beside its trees.

ghost use Rattle.std.specs.Prelude.{◌≡◌, ◌<◌, ◌≤◌, ◌^◌, length, IfOk};
ghost use Rattle.p3_task.specs.Costs.{cost_places as places_of_costs};
ghost use Rattle.p3_task.specs.Offences.{WellFormed};
ghost use Rattle.p3_numbers.specs.Tasks.{IsNumberedTask};
ghost use Rattle.p3_types.specs.NameOrders.{action_names, IsNameOrder};
ghost use Rattle.p3_types.specs.Parts.{ArePartsOf};
ghost use Rattle.p3_types.specs.Tables.{greatest_values as values_of_functions};

use crate::costs::{cost_places, greatest_values};
use crate::name_order::name_order;
use crate::steps::first_steps;
use p3_base::{Name, NoMemory, as_number};
use p3_numbers::{NumberedTask, Numbers};
use p3_task::{Action, Task};
use std::alloc::Global;

/// Places by rising names.
#[derive(Drop)]
pub(crate) struct Orders {
    /// The places of the actions.
    pub actions: Vec<u32>,
    /// The numbers of the objects.
    pub objects: Vec<u32>,
}

/// What is kept of the costs.
#[derive(Drop)]
pub(crate) struct CostScale {
    /// Their decimal places.
    pub places: u32,
    /// The greatest value of each function.
    pub greatest: Vec<u128>,
}

/// What a checked task keeps beside its trees.
#[derive(Drop)]
pub(crate) struct CheckedParts {
    /// The task with numbers in the place of names.
    pub numbered: NumberedTask,
    /// The number of each action's first step, and behind them how many steps there are.
    pub first_steps: Vec<u32>,
    /// The places of its names by rising names.
    pub orders: Orders,
    /// Its costs.
    pub costs: CostScale,
}

/// The places of the names by rising names.
fn order_of(alloc: Global, names: &[Name]) -> Result<Vec<u32>, NoMemory>
    ensures { IfOk result (λ order. IsNameOrder names.now order.items) }
{
    let order = name_order(alloc, names)?;
    Ok(order)
}

/// The places of the actions by rising names.
fn order_of_actions(alloc: Global, task: &Task) -> Result<Vec<u32>, NoMemory>
    ensures { IfOk result (λ order. IsNameOrder (action_names task.now) order.items) }
{
    let order = name_order(alloc, task.domain.actions.items())?;
    Ok(order)
}

/// The orders of the names of a task.
fn orders_of(alloc: Global, task: &Task, numbers: &Numbers) -> Result<Orders, NoMemory>
    ensures actions { IfOk result
        (λ orders. IsNameOrder (action_names task.now) orders.actions.items) }
    ensures objects { IfOk result
        (λ orders. IsNameOrder numbers.now.objects orders.objects.items) }
{
    let actions = order_of_actions(alloc, task)?;
    let objects = order_of(alloc, numbers.objects.items())?;
    Ok(Orders { actions, objects })
}

/// What is kept of the costs of a task.
fn costs_of(alloc: Global, task: &Task, numbered: &NumberedTask) -> Result<CostScale, NoMemory>
    requires well_formed { WellFormed task.now }
    requires numbered { IsNumberedTask task.now numbered.now }
    requires short { places_of_costs task.now ≤ 6 }
    ensures places { IfOk result (λ costs. costs.places ≡ places_of_costs task.now) }
    ensures values { IfOk result (λ costs. costs.greatest.items
        ≡ values_of_functions task.now numbered.now.numbers.functions) }
{
    let places = cost_places(task);
    let functions = numbered.numbers.functions.len();
    let greatest = greatest_values(alloc, numbered.values.items(), functions, places)?;
    Ok(CostScale { places, greatest })
}

/// The parts together.
fn joined(
    numbered: NumberedTask,
    first_steps: Vec<u32>,
    orders: Orders,
    costs: CostScale,
) -> CheckedParts
    ensures { result ≡ record {
      numbered = numbered;
      first_steps = first_steps;
      orders = orders;
      costs = costs;
    } }
{
    CheckedParts {
        numbered,
        first_steps,
        orders,
        costs,
    }
}

/// The parts of a task, of which the numbered one is given.
pub(crate) fn parts_of(
    alloc: Global,
    task: &Task,
    numbered: NumberedTask,
) -> Result<CheckedParts, NoMemory>
    requires well_formed { WellFormed task.now }
    requires numbered { IsNumberedTask task.now numbered }
    requires short { places_of_costs task.now ≤ 6 }
    ensures { IfOk result (ArePartsOf task.now) }
{
    let _count = as_number(numbered.numbers.preferences.len())?;
    let first_steps = first_steps(alloc, &numbered)?;
    let orders = orders_of(alloc, task, &numbered.numbers)?;
    let costs = costs_of(alloc, task, &numbered)?;
    Ok(joined(numbered, first_steps, orders, costs))
}
