//! The least closed set of atoms by rounds over the steps, where a few rounds find it.

ghost use Rattle.std.specs.Prelude.{◌≡◌, length, true, IfOk, IfSome, OnOk};
ghost use Rattle.std.specs.List.{list_all};
ghost use Rattle.p3_formula.specs.Conditions.{HasAtomsBelow, is_step_below};
ghost use Rattle.p3_formula.specs.Targets.{is_sized_change};
ghost use Rattle.p3_reach.specs.Closed.{IsClosed, IsInEachClosed, change_keeps, step_keeps};
ghost use Rattle.p3_reach.specs.Grown.{IsGrown};

use crate::may::may_hold;
use crate::waiting::Waiting;
use p3_base::NoMemory;
use p3_formula::{Bits, Change, GroundStep, GroundTask};
use std::alloc::Global;

/// Adds the atom of a change that sets it, where its condition may hold.
fn grow_by_change(atoms: &mut Bits, change: &Change)
    requires below { is_sized_change (length atoms.old) change.now ≡ true }
    ensures { IsGrown (λ set. change_keeps set change.now) atoms.old atoms.new }
{
    if change.add && !atoms.get(change.atom) && may_hold(&change.cond, atoms) {
        atoms.set(change.atom, true);
    }
}

/// Adds the atom of a change where it may be set, and wakes the steps that wait for it. Answers
/// whether the change is settled: it never adds anything more.
fn add(waiting: &mut Waiting, atoms: &mut Bits, change: &Change) -> Result<bool, NoMemory>
    requires below { is_sized_change (length atoms.old) change.now ≡ true }
    ensures { OnOk result (IsGrown (λ set. change_keeps set change.now) atoms.old atoms.new) }
{
    if !change.add || atoms.get(change.atom) {
        return Ok(true);
    }
    grow_by_change(atoms, change);
    if !atoms.get(change.atom) {
        return Ok(false);
    }
    waiting.wake(change.atom)?;
    Ok(true)
}

/// Adds what the changes of a step that may fit may add. Answers whether all of them are settled.
fn add_all(waiting: &mut Waiting, atoms: &mut Bits, changes: &[Change]) -> Result<bool, NoMemory>
    requires below { list_all (is_sized_change (length atoms.old)) changes.now ≡ true }
    ensures { OnOk result
        (IsGrown (λ set. list_all (change_keeps set) changes.now) atoms.old atoms.new) }
{
    let mut are_settled = true;
    for change in changes {
        let is_settled = add(waiting, atoms, change)?;
        are_settled = are_settled && is_settled;
    }
    Ok(are_settled)
}

/// Adds what the changes of the step at the place may add. The step is put off where it may add
/// something later.
fn add_or_put_off(
    waiting: &mut Waiting,
    atoms: &mut Bits,
    changes: &[Change],
    place: usize,
) -> Result<(), NoMemory>
    requires below { list_all (is_sized_change (length atoms.old)) changes.now ≡ true }
    ensures { OnOk result
        (IsGrown (λ set. list_all (change_keeps set) changes.now) atoms.old atoms.new) }
{
    if add_all(waiting, atoms, changes)? {
        return Ok(());
    }
    waiting.put_off(place)
}

/// Looks at the step at the place: it waits for an atom, or is put off, or adds what it may add.
fn look_at(
    waiting: &mut Waiting,
    atoms: &mut Bits,
    step: &GroundStep,
    place: usize,
) -> Result<(), NoMemory>
    requires below { is_step_below (length atoms.old) step.now ≡ true }
    ensures { OnOk result (IsGrown (λ set. step_keeps set step.now) atoms.old atoms.new) }
{
    if let Some(missing) = waiting.missing(place, &step.pre, atoms) {
        waiting.wait(place, missing);
        return Ok(());
    }
    if may_hold(&step.pre, atoms) {
        return add_or_put_off(waiting, atoms, step.effects.items(), place);
    }
    waiting.put_off(place)
}

/// Looks at the step at the place.
#[tactic(auto, using(crate::proofs::GrownLaws::grown_among))]
fn look(
    waiting: &mut Waiting,
    atoms: &mut Bits,
    steps: &[GroundStep],
    place: usize,
) -> Result<(), NoMemory>
    requires below { list_all (is_step_below (length atoms.old)) steps.now ≡ true }
    ensures { OnOk result
        (IsGrown (λ set. list_all (step_keeps set) steps.now) atoms.old atoms.new) }
{
    match steps.get(place) {
        None => Ok(()),
        Some(step) => look_at(waiting, atoms, step, place),
    }
}

/// Looks at all steps that are looked at in this round, and those that these wake.
#[tactic(auto, using(crate::proofs::GrownLaws::grown_again))]
fn look_round(waiting: &mut Waiting, atoms: &mut Bits, steps: &[GroundStep]) -> Result<(), NoMemory>
    requires below { list_all (is_step_below (length atoms.old)) steps.now ≡ true }
    ensures { OnOk result
        (IsGrown (λ set. list_all (step_keeps set) steps.now) atoms.old atoms.new) }
{
    for _look in 0..u64::MAX {
        match waiting.next() {
            None => break,
            Some(place) => look(waiting, atoms, steps, place)?,
        }
    }
    Ok(())
}

/// The steps, the first of which is looked at first.
fn waiting_of(alloc: Global, atoms: usize, steps: usize) -> Result<Waiting, NoMemory> {
    let mut waiting = Waiting::of(alloc, atoms, steps)?;
    for place in (0..steps).rev() {
        waiting.look_at(place)?;
    }
    Ok(waiting)
}

/// Whether the atoms have that of the change, where it may be set.
fn keeps_change(atoms: &Bits, change: &Change) -> bool
    requires below { is_sized_change (length atoms.now) change.now ≡ true }
    ensures { result ≡ change_keeps atoms.now change.now }
{
    !(change.add && may_hold(&change.cond, atoms)) || atoms.get(change.atom)
}

/// Whether the atoms have what the changes may add.
fn keeps_changes(atoms: &Bits, changes: &[Change]) -> bool
    requires below { list_all (is_sized_change (length atoms.now)) changes.now ≡ true }
    ensures { result ≡ list_all (change_keeps atoms.now) changes.now }
{
    for change in changes {
        if !keeps_change(atoms, change) {
            return false;
        }
    }
    true
}

/// Whether the atoms have what the step may add, where it may fit.
fn keeps_step(atoms: &Bits, step: &GroundStep) -> bool
    requires below { is_step_below (length atoms.now) step.now ≡ true }
    ensures { result ≡ step_keeps atoms.now step.now }
{
    !may_hold(&step.pre, atoms) || keeps_changes(atoms, step.effects.items())
}

/// Whether the atoms have what the steps may add.
fn keeps_all(atoms: &Bits, steps: &[GroundStep]) -> bool
    requires below { list_all (is_step_below (length atoms.now)) steps.now ≡ true }
    ensures { result ≡ list_all (step_keeps atoms.now) steps.now }
{
    for step in steps {
        if !keeps_step(atoms, step) {
            return false;
        }
    }
    true
}

/// The least closed set of atoms, where so many rounds find it. In each round a step is looked at
/// once, and again where the atom that it waits for is set; so a long chain of steps takes one
/// round, and conditions that come to hold late take another.
#[tactic(auto, using(crate::proofs::GrownLaws::grown_again))]
pub(crate) fn closed_by_rounds(
    alloc: Global,
    task: &GroundTask,
    rounds: u32,
) -> Result<Option<Bits>, NoMemory>
    requires atoms { HasAtomsBelow task.now }
    requires bits { length task.now.initial ≡ task.now.atoms }
    ensures closed { IfOk result (λ found. IfSome found (IsClosed task.now)) }
    ensures least { IfOk result (λ found. IfSome found (IsInEachClosed task.now)) }
{
    let mut atoms = task.initial.copied(alloc)?;
    let mut waiting = waiting_of(alloc, task.atoms, task.steps.items().len())?;
    for _round in 0..rounds {
        look_round(&mut waiting, &mut atoms, task.steps.items())?;
        if keeps_all(&atoms, task.steps.items()) {
            return Ok(Some(atoms));
        }
        waiting.begin_round();
    }
    Ok(None)
}
