//! The changes of a step in a target: its own, and those of the monitors that it touches.

ghost use Rattle.std.specs.Prelude.{◌≡◌, ◌++◌, [], IfOk, OnOk, IsTrue, true};
ghost use Rattle.std.specs.List.{All, list_all};
ghost use Rattle.p3_formula.specs.Kept.{is_own};
ghost use Rattle.p3_formula.specs.Simplified.{is_value};
ghost use Rattle.p3_formula.specs.declared.form.Change.{Change as Made};
ghost use Rattle.p3_monitors.specs.KeepsOn.{HasNone};
ghost use Rattle.p3_regress.specs.Memory.{Extends};
ghost use Rattle.p3_monitors.specs.FormIndex.{IndexesForms};
ghost use Rattle.p3_compile.specs.Guarding.{HasGuards, IsGuardedBy};
ghost use Rattle.p3_compile.specs.Readers.{AreByAtom};
ghost use Rattle.p3_compile.specs.Stepping.{IsFrame, bare, hard_monitors};
ghost use Rattle.p3_compile.specs.Updated.{AreApart, AreSimpler, AreTouched, HasUpdates, HasUpdate, HasChanges, HasMade, HasTidyConditions, MayHappen};

use crate::guarding::{hard_guards, joined_guards};
use crate::stepping::Frame;
use p3_base::{List, NoMemory};
use p3_formula::{
    Change, Effects, Form, GroundStep, Known, Table, effects_copied, effects_trimmed,
};
use p3_monitors::{FormsByAtom, Monitor};
use p3_regress::Regressed;
use std::alloc::Global;
use std::mem::replace;

/// What rides on a step for one monitor stands behind the other changes.
fn push_update(
    alloc: Global,
    all: &mut Vec<Change>,
    monitor: &Monitor,
    by_atom: &FormsByAtom,
    regressed: &mut Regressed,
) -> Result<(), NoMemory>
    requires indexed { IndexesForms monitor.now.modal by_atom.now }
    requires apart { HasNone (is_own monitor.now.base monitor.now.modal) regressed.old.effects }
    ensures pushed { OnOk result
        (HasUpdate regressed.old.effects monitor.now all.old.items all.new.items) }
    ensures extends { Extends regressed.old regressed.new }
{
    let mut changes = monitor.effects_by(alloc, regressed, by_atom)?.into_items();
    all.append(&mut changes)?;
    Ok(())
}

/// What rides on a step for the monitors that it touches stands behind the other changes. Their
/// places rise, and one may stand several times.
fn push_updates(
    alloc: Global,
    all: &mut Vec<Change>,
    monitors: &[Monitor],
    by_atom: &[FormsByAtom],
    places: &[usize],
    regressed: &mut Regressed,
) -> Result<(), NoMemory>
    requires indexed { AreByAtom monitors.now by_atom.now }
    requires apart { AreApart monitors.now regressed.old.effects }
    requires touched { AreTouched regressed.old.effects monitors.now places.now }
    ensures pushed { OnOk result
        (HasUpdates regressed.old.effects monitors.now all.old.items all.new.items) }
    ensures effects { OnOk result (regressed.new.effects ≡ regressed.old.effects) }
{
    let mut next = 0;
    for place in places {
        if *place >= next {
            push_update(alloc, all, &monitors[*place], &by_atom[*place], regressed)?;
            next = *place + 1;
        }
    }
    Ok(())
}

/// The places of the monitors that read an atom which the step may change. They rise, and one may
/// stand several times.
fn touched(alloc: Global, frame: &Frame, regressed: &Regressed) -> Result<Vec<usize>, NoMemory>
    requires { IsFrame frame.now }
    ensures { IfOk result (λ places.
        AreTouched regressed.now.effects frame.now.monitors places.items) }
{
    regressed.places_read(alloc, &frame.readers)
}

/// The changes of the monitors at the places, which a step touches, at most two for each.
fn updates(
    alloc: Global,
    frame: &Frame,
    places: &[usize],
    regressed: &mut Regressed,
) -> Result<Vec<Change>, NoMemory>
    requires frame { IsFrame frame.now }
    requires apart { AreApart frame.now.monitors regressed.old.effects }
    requires touched { AreTouched regressed.old.effects frame.now.monitors places.now }
    ensures made { IfOk result (λ updates.
        HasUpdates regressed.old.effects frame.now.monitors [] updates.items) }
    ensures effects { OnOk result (regressed.new.effects ≡ regressed.old.effects) }
{
    let monitors = frame.monitors.items();
    let room = places.len().min(monitors.len()).saturating_mul(2);
    let mut all = Vec::with_capacity(alloc, room)?;
    push_updates(alloc, &mut all, monitors, &frame.by_atom, places, regressed)?;
    Ok(all)
}

/// The changes of a step, and behind them those that ride on it.
fn with_updates(own: Effects, updates: Vec<Change>) -> Result<Effects, NoMemory>
    ensures { IfOk result (λ all. all ≡ own ++ updates.items) }
{
    let mut all = own.into_items();
    let mut updates = updates;
    all.append(&mut updates)?;
    Ok(List::from(all))
}

/// Whether the form is the constant that always holds.
pub(crate) fn is_true(form: &Form) -> bool
    ensures { result ≡ is_value true form.now }
{
    matches!(form, Form::True)
}

/// How many parts the form has as a part of a conjunction.
pub(crate) fn part_count(form: &Form) -> usize {
    match form {
        Form::And(parts) => parts.len(),
        _ => 1,
    }
}

/// Whether each of the changes happens always.
fn are_certain(changes: &[Change]) -> bool
    ensures { result ≡ list_all (λ (change : Made). is_value true change.cond) changes.now }
{
    for change in changes {
        if !is_true(&change.cond) {
            return false;
        }
    }
    true
}

/// Changes that do the same where the precondition holds, with tidy conditions, and none that never
/// happens.
pub(crate) fn simpler(alloc: Global, pre: &Form, changes: Effects) -> Result<Effects, NoMemory>
    ensures simpler { IfOk result (AreSimpler pre.now changes) }
    ensures tidy { IfOk result HasTidyConditions }
    ensures possible { IfOk result (All MayHappen) }
{
    if are_certain(changes.items()) {
        return Ok(changes);
    }
    let known = Known::where_holds(alloc, pre)?;
    let trimmed = effects_trimmed(alloc, changes, &known)?;
    Ok(trimmed)
}

/// The changes that ride on a step for the monitors that it touches.
fn step_updates(alloc: Global, frame: &Frame, effects: &Effects) -> Result<Vec<Change>, NoMemory>
    requires frame { IsFrame frame.now }
    requires apart { AreApart frame.now.monitors effects.now }
    ensures { IfOk result (λ updates.
        HasUpdates effects.now frame.now.monitors [] updates.items) }
{
    let mut regressed = Regressed::open(alloc, Table::new(alloc), effects)?;
    let places = touched(alloc, frame, &regressed)?;
    updates(alloc, frame, &places, &mut regressed)
}

/// The changes of a step in the target, simplified by what its precondition fixes: its own, and
/// those of the monitors that it touches.
pub(crate) fn step_changes(
    alloc: Global,
    frame: &Frame,
    step: &GroundStep,
) -> Result<Effects, NoMemory>
    requires frame { IsFrame frame.now }
    requires apart { AreApart frame.now.monitors step.now.effects }
    ensures changes { IfOk result
        (HasChanges step.now.pre step.now.effects frame.now.monitors) }
    ensures tidy { IfOk result HasTidyConditions }
    ensures possible { IfOk result (All MayHappen) }
{
    let updates = step_updates(alloc, frame, &step.effects)?;
    let own = effects_copied(alloc, &step.effects)?;
    let made = with_updates(own, updates)?;
    simpler(alloc, &step.pre, made)
}

/// What the monitors that a step touches add to it.
#[derive(Drop)]
struct Riders {
    /// The changes of these monitors.
    updates: Vec<Change>,
    /// What must hold so that no hard constraint is broken for good.
    guards: Vec<Form>,
}

/// What rides on a step whose copies are made.
fn riding(alloc: Global, frame: &Frame, effects: &Effects) -> Result<Riders, NoMemory>
    requires frame { IsFrame frame.now }
    requires apart { AreApart frame.now.monitors effects.now }
    ensures updates { IfOk result (λ (all : Riders).
        HasUpdates effects.now frame.now.monitors [] all.updates.items) }
    ensures guards { IfOk result (λ (all : Riders).
        HasGuards effects.now (hard_monitors frame.now) all.guards.items) }
{
    let mut regressed = Regressed::open(alloc, Table::new(alloc), effects)?;
    let places = touched(alloc, frame, &regressed)?;
    let updates = updates(alloc, frame, &places, &mut regressed)?;
    let guards = hard_guards(alloc, frame, &places, &mut regressed)?;
    Ok(Riders { updates, guards })
}

/// The precondition of a step's copies, and its changes in the target.
#[derive(Drop)]
pub(crate) struct GuardedStep {
    /// Its own precondition, and that it breaks no hard constraint for good.
    pub(crate) pre: Form,
    /// Its own changes, and those of the monitors that it touches, which each copy simplifies.
    pub(crate) effects: Effects,
}

/// The precondition and the changes of a step whose copies are made. The step gives its own.
pub(crate) fn guarded_step(
    alloc: Global,
    frame: &Frame,
    step: &mut GroundStep,
) -> Result<GuardedStep, NoMemory>
    requires frame { IsFrame frame.now }
    requires apart { AreApart frame.now.monitors step.old.effects }
    ensures pre { IfOk result (λ (made : GuardedStep).
        IsGuardedBy step.old.effects (hard_monitors frame.now) step.old.pre made.pre) }
    ensures changes { IfOk result (λ (made : GuardedStep).
        HasMade step.old.effects frame.now.monitors made.effects) }
    ensures left { OnOk result (step.new ≡ bare step.old) }
{
    let riders = riding(alloc, frame, &step.effects)?;
    let Riders { updates, guards } = riders;
    let own = replace(&mut step.effects, List::new(alloc));
    let effects = with_updates(own, updates)?;
    let hard = replace(&mut step.pre, Form::True);
    let pre = joined_guards(alloc, hard, guards)?;
    Ok(GuardedStep { pre, effects })
}
