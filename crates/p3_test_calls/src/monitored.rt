//! A monitor by itself, and an end phase.

ghost use Rattle.std.specs.Prelude.{◌≡◌, ◌∷◌, [], IfOk, length, true};
ghost use Rattle.p3_formula.specs.declared.form.Form.TheVariants as form;
ghost use Rattle.p3_base.specs.declared.operator.Operator.TheVariants as ground_modal;

use p3_base::{List, NoMemory};
use p3_endphase::{EndPhase, SoftEnd, end_phase};
use p3_formula::{Bits, Change, Effects, Form, GroundModal};
use p3_monitors::{Monitor, monitor};
use p3_plans::{NextStep, PlanReader};
use std::alloc::Global;
use std::test::Fail;

/// A step that sets the atom.
fn setting(alloc: Global, atom: usize) -> Result<Effects, NoMemory>
    ensures { IfOk result (λ effects.
        effects ≡ (record { cond = form.True; atom = atom; add = true }) ∷ []) }
{
    let mut effects = List::new(alloc);
    effects.push(Change {
        cond: Form::True,
        atom,
        add: true,
    })?;
    Ok(effects)
}

/// The monitor of a constraint that the first atom holds once. Its own atoms begin with the third.
fn watching(alloc: Global) -> Result<Monitor, NoMemory>
    ensures base { IfOk result (λ monitor. monitor.base ≡ 2) }
    ensures modal { IfOk result (λ monitor.
        monitor.modal ≡ ground_modal.Sometime (form.Atom 0)) }
{
    let initial = Bits::new(alloc, 2)?;
    let modal = GroundModal::Sometime(Form::Atom(0));
    let made = monitor(alloc, &modal, &initial, 2);
    drop(modal);
    drop(initial);
    made
}

/// What it does on a step that sets the first atom.
fn riding(alloc: Global) -> Result<Effects, NoMemory> {
    let step = setting(alloc, 0)?;
    let monitor = watching(alloc)?;
    let effects = monitor.effects(alloc, &step);
    drop(monitor);
    drop(step);
    effects
}

/// Whether a step that sets the atom touches it.
fn is_touched(alloc: Global, atom: usize) -> Result<bool, NoMemory> {
    let step = setting(alloc, atom)?;
    let monitor = watching(alloc)?;
    let is_touched = monitor.touched(&step);
    drop(monitor);
    drop(step);
    Ok(is_touched)
}

#[test]
fn a_monitor_is_touched_by_its_atom(rt: HostRuntime) -> Result<(), Fail> {
    let alloc = rt.alloc();
    assert!(&rt; !is_touched(alloc, 1)?);
    assert!(&rt; is_touched(alloc, 0)?);
    Ok(())
}

#[test]
fn a_monitor_rides_on_a_step_that_touches_it(rt: HostRuntime) -> Result<(), Fail> {
    let effects = riding(rt.alloc())?;
    let count = effects.len();
    let is_set = matches!(
        effects.get(0),
        Some(Change {
            cond: Form::True,
            atom: 2,
            add: true,
        })
    );
    drop(effects);
    assert_eq!(&rt; count, 1);
    assert!(&rt; is_set);
    Ok(())
}

/// One instance, which weighs 5.
fn one_instance(alloc: Global) -> Result<List<SoftEnd>, NoMemory>
    ensures is { IfOk result (λ instances.
        instances ≡ (record { accept = form.Atom 0; weight = 5 }) ∷ []) }
    ensures count { IfOk result (λ instances. length instances ≡ 1) }
{
    let mut instances = List::new(alloc);
    instances.push(SoftEnd {
        accept: Form::Atom(0),
        weight: 5,
    })?;
    Ok(instances)
}

/// Its end phase, where a plan may end everywhere.
fn settling(alloc: Global) -> Result<EndPhase, NoMemory> {
    let finish = Form::True;
    let instances = one_instance(alloc)?;
    let phase = end_phase(alloc, &finish, &instances, 1);
    drop(instances);
    phase
}

/// How many atoms and how many actions the end phase has, and whether its goal is its last atom.
fn settled_sizes(alloc: Global) -> Result<(usize, usize, bool), NoMemory> {
    let phase = settling(alloc)?;
    let is_last = matches!(phase.goal, Form::Atom(3));
    let (atoms, actions) = (phase.atoms, phase.actions.len());
    drop(phase);
    Ok((atoms, actions, is_last))
}

#[test]
fn an_end_phase_ends_at_its_last_atom(rt: HostRuntime) -> Result<(), Fail> {
    let (atoms, actions, is_last) = settled_sizes(rt.alloc())?;
    assert_eq!(&rt; (atoms, actions), (3, 3));
    assert!(&rt; is_last);
    Ok(())
}

/// Whether the action at that place of the end phase has this name and this cost.
fn is_settled_by(alloc: Global, place: usize, name: &[u8], cost: u64) -> Result<bool, NoMemory> {
    let phase = settling(alloc)?;
    let is_there = match phase.actions.get(place) {
        Some(action) => action.name.bytes() == name && action.cost == cost,
        None => false,
    };
    drop(phase);
    Ok(is_there)
}

#[test]
fn one_instance_is_settled_by_one_of_two_actions(rt: HostRuntime) -> Result<(), Fail> {
    let alloc = rt.alloc();
    assert!(&rt; is_settled_by(alloc, 0, b"finish", 0)?);
    assert!(&rt; is_settled_by(alloc, 1, b"collect0", 0)?);
    assert!(&rt; is_settled_by(alloc, 2, b"forgo0", 5)?);
    Ok(())
}

#[test]
fn a_step_has_its_words(rt: HostRuntime) -> Result<(), Fail> {
    let NextStep::Step(step) = PlanReader::new(b" (Drive t1 A) ; (b)").next() else {
        return Err(Fail::from(NoMemory));
    };
    assert_eq!(&rt; step.offset, 1);
    assert_eq!(&rt;
        (step.word(0), step.word(2), step.word(3)),
        (Some(b"Drive".as_slice()), Some(b"A".as_slice()), None)
    );
    Ok(())
}
