//! What must hold where a plan ends, and what is settled then.

ghost use Rattle.std.specs.Prelude.{◌≡◌, ◌++◌, ◌≤◌, ◌&&◌, [], ◌∷◌, length, map, IfOk};
ghost use Rattle.std.specs.List.{All};
ghost use Rattle.p3_formula.specs.Weighted.{HasNameBelow};
ghost use Rattle.p3_formula.specs.declared.modal.GroundSoft.{GroundSoft};
ghost use Rattle.p3_simulation.specs.Monitoring.{modals};
ghost use Rattle.p3_compile.specs.Ending.{accepting, soft_ends};
ghost use Rattle.p3_compile.specs.Monitored.{soft_modals};

use crate::weighing::named_weight;
use p3_base::{List, NoMemory};
use p3_endphase::SoftEnd;
use p3_formula::{Form, GroundSoft, copied};
use p3_monitors::Monitor;
use std::alloc::Global;

/// All parts hold, and all monitors accept.
fn accepting(alloc: Global, parts: List<Form>, monitors: &[Monitor]) -> Result<Form, NoMemory>
    ensures { IfOk result (λ form. form ≡ accepting parts monitors.now) }
{
    let mut all = parts;
    for monitor in monitors {
        all.push(copied(alloc, &monitor.accept)?)?;
    }
    Ok(Form::And(all))
}

/// The goal holds, and all monitors of the hard constraints accept.
pub(crate) fn finish_form(alloc: Global, goal: Form, hard: &[Monitor]) -> Result<Form, NoMemory>
    ensures { IfOk result (λ form. form ≡ accepting (goal ∷ []) hard.now) }
{
    let mut parts = List::with_capacity(alloc, hard.len().saturating_add(1))?;
    parts.push(goal)?;
    accepting(alloc, parts, hard)
}

/// The instances that are settled at the end, each with as many monitors as it has parts.
pub(crate) fn soft_ends(
    alloc: Global,
    by_name: &List<u64>,
    soft: &List<GroundSoft>,
    monitors: &[Monitor],
) -> Result<List<SoftEnd>, NoMemory>
    requires names { All (λ (one : GroundSoft). HasNameBelow (length by_name.now) one.name)
        soft.now }
    requires modals { modals monitors.now ≡ soft_modals soft.now }
    ensures { IfOk result (λ ends. ends ≡ soft_ends by_name.now soft.now monitors.now) }
{
    let mut ends = List::new(alloc);
    let mut rest = monitors;
    for one in soft.items() {
        let (own, others) = rest.split_at(one.parts.len());
        ends.push(SoftEnd {
            accept: accepting(alloc, List::with_capacity(alloc, own.len())?, own)?,
            weight: named_weight(by_name, one.name),
        })?;
        rest = others;
    }
    Ok(ends)
}
