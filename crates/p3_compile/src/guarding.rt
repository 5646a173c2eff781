//! The precondition of a step in a target: its own, and that the step breaks no hard constraint for
//! good.

ghost use Rattle.std.specs.Prelude.{◌≡◌, ◌++◌, IfOk, OnOk};
ghost use Rattle.p3_regress.specs.Memory.{Extends};
ghost use Rattle.p3_monitors.specs.FormIndex.{IndexesForms};
ghost use Rattle.p3_compile.specs.Readers.{AreByAtom};
ghost use Rattle.p3_compile.specs.Guarding.{HasGuards, HasOneGuard, guarded_by};
ghost use Rattle.p3_compile.specs.Stepping.{IsFrame, hard_monitors};

use crate::changes::{is_true, part_count};
use crate::stepping::Frame;
use p3_base::{List, NoMemory};
use p3_formula::{Form, push_spread};
use p3_monitors::{FormsByAtom, Monitor};
use p3_regress::Regressed;
use std::alloc::Global;

/// The guard of one monitor stands behind the others, where it does not hold always.
fn push_guard(
    alloc: Global,
    guards: &mut Vec<Form>,
    monitor: &Monitor,
    by_atom: &FormsByAtom,
    regressed: &mut Regressed,
) -> Result<(), NoMemory>
    requires indexed { IndexesForms monitor.now.modal by_atom.now }
    ensures pushed { OnOk result
        (HasOneGuard regressed.old.effects monitor.now guards.old.items guards.new.items) }
    ensures extends { Extends regressed.old regressed.new }
{
    let guard = monitor.guard_by(alloc, regressed, by_atom)?;
    if is_true(&guard) {
        drop(guard);
        return Ok(());
    }
    guards.push(guard)?;
    Ok(())
}

/// The guards of those of the monitors that stand at these places, which rise. One may stand
/// several times.
fn guards(
    alloc: Global,
    monitors: &[Monitor],
    by_atom: &[FormsByAtom],
    places: &[usize],
    regressed: &mut Regressed,
) -> Result<Vec<Form>, NoMemory>
    requires indexed { AreByAtom monitors.now by_atom.now }
    ensures { IfOk result (λ guards.
        HasGuards regressed.old.effects monitors.now guards.items) }
{
    let mut guards = Vec::new(alloc);
    let mut next = 0;
    for place in places {
        if *place >= next && *place < monitors.len() {
            push_guard(
                alloc,
                &mut guards,
                &monitors[*place],
                &by_atom[*place],
                regressed,
            )?;
            next = *place + 1;
        }
    }
    Ok(guards)
}

/// The guards of those of the hard constraints whose monitors stand at these places and which would
/// stay broken.
pub(crate) fn hard_guards(
    alloc: Global,
    frame: &Frame,
    places: &[usize],
    regressed: &mut Regressed,
) -> Result<Vec<Form>, NoMemory>
    requires { IsFrame frame.now }
    ensures { IfOk result (λ guards.
        HasGuards regressed.old.effects (hard_monitors frame.now) guards.items) }
{
    let (hard, _) = frame.monitors.items().split_at(frame.hard);
    guards(alloc, hard, &frame.by_atom, places, regressed)
}

/// The precondition, and that the guards hold, behind its parts.
pub(crate) fn joined_guards(alloc: Global, pre: Form, guards: Vec<Form>) -> Result<Form, NoMemory>
    ensures { IfOk result (λ form. form ≡ guarded_by pre guards.items) }
{
    if guards.is_empty() {
        return Ok(pre);
    }
    let room = part_count(&pre).saturating_add(guards.len());
    let mut parts = Vec::with_capacity(alloc, room)?;
    let mut guards = guards;
    push_spread(&mut parts, pre)?;
    parts.append(&mut guards)?;
    Ok(Form::And(List::from(parts)))
}
