//! Copies of steps, for who keeps the task.

ghost use Rattle.std.specs.Prelude.{◌≡◌, IfOk};

use p3_base::{List, NoMemory};
use p3_formula::{GroundPref, GroundStep, copied, effects_copied};
use std::alloc::Global;

/// Copies a preference of a step.
fn pref_copied(alloc: Global, pref: &GroundPref) -> Result<GroundPref, NoMemory>
    ensures { IfOk result (λ copy. copy ≡ pref.now) }
{
    let body = copied(alloc, &pref.body)?;
    let name = pref.name;
    Ok(GroundPref { name, body })
}

/// Copies the preferences of a step.
fn prefs_copied(alloc: Global, prefs: &List<GroundPref>) -> Result<List<GroundPref>, NoMemory>
    ensures { IfOk result (λ copy. copy ≡ prefs.now) }
{
    let mut all = List::with_capacity(alloc, prefs.len())?;
    for pref in prefs.items() {
        all.push(pref_copied(alloc, pref)?)?;
    }
    Ok(all)
}

/// Copies a step.
pub(crate) fn step_copied(alloc: Global, step: &GroundStep) -> Result<GroundStep, NoMemory>
    ensures { IfOk result (λ copy. copy ≡ step.now) }
{
    Ok(GroundStep {
        number: step.number,
        pre: copied(alloc, &step.pre)?,
        prefs: prefs_copied(alloc, &step.prefs)?,
        effects: effects_copied(alloc, &step.effects)?,
        cost: step.cost,
    })
}
