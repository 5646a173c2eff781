//! What is found in the metric.

ghost use Rattle.std.specs.Prelude.{◌≡◌, [], ◌∷◌, OnOk};
ghost use Rattle.p3_task.specs.Uses.{NameUse};
ghost use Rattle.p3_task.specs.declared.metric.Num.TheVariants as num;
ghost use Rattle.p3_resolve.specs.Walk.{uses_of_each, uses_of_metric, uses_of_num, with_tree};

use crate::atoms::total_cost_noted;
use crate::spot::unless;
use crate::tables::Tables;
use crate::walk::Walk;
use p3_base::NoMemory;
use p3_task::{Metric, Num, Ref};
use std::alloc::Global;

/// The name of a preference: it is noted where it is unknown.
#[tactic(auto, unfolding(crate::specs::Walk::with_tree))]
fn measured<'t>(tables: &Tables<'t>, walk: &mut Walk<'t>, name: &Ref) -> Result<(), NoMemory>
    ensures { OnOk result (walk.new
        ≡ with_tree tables.now.task.now (λ scope. NameUse name.now ∷ []) walk.old) }
{
    let found = tables.preference(&name.name)?;
    walk.found.unknown = unless(walk.found.unknown, found.is_declared, name);
    Ok(())
}

/// The total cost at the offset.
#[tactic(auto, unfolding(crate::specs::Walk::with_tree, crate::specs::Walk::uses_of_num, p3_task::specs::Uses::num_uses))]
fn cost_measured<'t>(
    alloc: Global,
    tables: &Tables<'t>,
    walk: &mut Walk<'t>,
    at: u32,
) -> Result<(), NoMemory>
    ensures { OnOk result (walk.new
        ≡ with_tree tables.now.task.now (uses_of_num (num.TotalCost at)) walk.old) }
{
    walk.found = total_cost_noted(alloc, tables, walk.found, at)?;
    Ok(())
}

/// What is found in an expression.
#[cycle(nums)]
#[tactic(auto, using(crate::proofs::FormLemmas::num_laws))]
fn num_noted<'t>(
    alloc: Global,
    tables: &Tables<'t>,
    walk: &mut Walk<'t>,
    num: &Num,
) -> Result<(), NoMemory>
    ensures { OnOk result
        (walk.new ≡ with_tree tables.now.task.now (uses_of_num num.now) walk.old) }
{
    match num {
        Num::Number(_) => Ok(()),
        Num::TotalCost(at) => cost_measured(alloc, tables, walk, *at),
        Num::Violated(name) => measured(tables, walk, name),
        Num::Neg(_, part) => num_noted(alloc, tables, walk, part.get()),
        Num::Sub(_, first, second) => {
            num_noted(alloc, tables, walk, first.get())?;
            num_noted(alloc, tables, walk, second.get())
        }
        Num::Sum(_, parts) => nums_noted(alloc, tables, walk, parts.items()),
        Num::Product(_, parts) => nums_noted(alloc, tables, walk, parts.items()),
    }
}

/// What is found in each expression.
#[cycle(nums)]
#[tactic(auto, using(crate::proofs::FormLemmas::more_laws))]
fn nums_noted<'t>(
    alloc: Global,
    tables: &Tables<'t>,
    walk: &mut Walk<'t>,
    parts: &[Num],
) -> Result<(), NoMemory>
    ensures { OnOk result (walk.new
        ≡ with_tree tables.now.task.now (uses_of_each uses_of_num parts.now) walk.old) }
{
    for part in parts {
        num_noted(alloc, tables, walk, part)?;
    }
    Ok(())
}

/// What is found in the metric.
#[tactic(auto, using(crate::proofs::FormLemmas::metric_laws))]
pub(crate) fn metric_noted<'t>(
    alloc: Global,
    tables: &Tables<'t>,
    walk: &mut Walk<'t>,
    metric: &Option<Metric>,
) -> Result<(), NoMemory>
    ensures { OnOk result
        (walk.new ≡ with_tree tables.now.task.now (uses_of_metric metric.now) walk.old) }
{
    match metric {
        None => Ok(()),
        Some(metric) => num_noted(alloc, tables, walk, &metric.body),
    }
}
