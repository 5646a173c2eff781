//! The monitors of all constraints, one behind another.

ghost use Rattle.std.specs.Prelude.{◌≡◌, ◌≤◌, length, OnOk, IfOk};
ghost use Rattle.p3_formula.specs.Kept.{atom_count};
ghost use Rattle.p3_formula.specs.Modals.{IsModalBelow};
ghost use Rattle.p3_compile.specs.Monitored.{AreModalsBelow, AreSoftBelow, HasMonitor, HasMonitors, IsWatched};

use crate::names::push_numbered;
use p3_base::{List, Name, NoMemory};
use p3_formula::{Bits, GroundModal, GroundTask};
use p3_monitors::{Monitor, monitor};
use std::alloc::Global;

/// How many atoms the monitor of a constraint has.
fn atom_count(modal: &GroundModal) -> usize
    ensures { result ≡ atom_count modal.now }
{
    match modal {
        GroundModal::AtEnd(_) => 0,
        GroundModal::Always(_) | GroundModal::Sometime(_) | GroundModal::SometimeAfter(_, _) => 1,
        GroundModal::AtMostOnce(_) | GroundModal::SometimeBefore(_, _) => 2,
    }
}

/// The monitor of a constraint. Its atoms stand behind those that have a name so far.
fn monitor_behind(
    alloc: Global,
    names: &mut List<Name>,
    modal: &GroundModal,
    start: &Bits,
) -> Result<Monitor, NoMemory>
    requires below { IsModalBelow (length start.now) modal.now }
    requires behind { length start.now ≤ length names.old }
    ensures { IfOk result (HasMonitor start.now modal.now names.old names.new) }
{
    let base = names.len();
    push_numbered(alloc, names, "m", start.count(), atom_count(modal))?;
    let end = names.len();
    monitor(alloc, modal, start, base)
}

/// The monitors of some constraints stand behind the others.
fn push_monitors(
    alloc: Global,
    names: &mut List<Name>,
    monitors: &mut List<Monitor>,
    modals: &List<GroundModal>,
    start: &Bits,
) -> Result<(), NoMemory>
    requires below { AreModalsBelow (length start.now) modals.now }
    requires behind { length start.now ≤ length names.old }
    ensures { OnOk result (HasMonitors start.now modals.now names.old names.new
        monitors.old monitors.new) }
{
    for modal in modals.items() {
        monitors.push(monitor_behind(alloc, names, modal, start)?)?;
    }
    Ok(())
}

/// The monitors of all constraints of a task: those of the hard ones, and then those of the parts
/// of the soft ones.
pub(crate) fn monitors(
    alloc: Global,
    names: &mut List<Name>,
    task: &GroundTask,
) -> Result<List<Monitor>, NoMemory>
    requires hard { AreModalsBelow (length task.now.initial) task.now.hard }
    requires soft { AreSoftBelow (length task.now.initial) task.now.soft }
    requires behind { length task.now.initial ≤ length names.old }
    ensures { IfOk result (IsWatched task.now names.old names.new) }
{
    let mut monitors = List::new(alloc);
    push_monitors(alloc, names, &mut monitors, &task.hard, &task.initial)?;
    for soft in task.soft.items() {
        push_monitors(alloc, names, &mut monitors, &soft.parts, &task.initial)?;
    }
    Ok(monitors)
}
