//! A flattening in which some patterns are left out.

ghost use Rattle.std.specs.Prelude.{◌≡◌, codes, IfOk};
ghost use Rattle.p3_flat.specs.Flattened.{CanBeFlattened};

use p3_base::{List, Name, NoMemory};
use p3_flat::flatten;
use p3_formula::{Bits, Change, Effects, Form, Target, TargetAction};
use std::alloc::Global;
use std::test::Fail;

fn step_name(alloc: Global) -> Result<Name, NoMemory>
    ensures { IfOk result (λ name. name ≡ codes "s0v") }
{
    Name::of(alloc, b"s0v")
}

fn action(alloc: Global, effects: Effects) -> Result<TargetAction, NoMemory>
    ensures { IfOk result (λ action. action.name ≡ codes "s0v") }
{
    let name = step_name(alloc)?;
    Ok(TargetAction {
        name,
        pre: Form::Atom(0),
        effects,
        cost: 7,
    })
}

/// One action, with these changes.
#[tactic(auto, using(crate::proofs::CaseLemmas::one_action))]
fn target(alloc: Global, effects: Effects) -> Result<Target, NoMemory>
    ensures { IfOk result CanBeFlattened }
{
    let action = action(alloc, effects)?;
    let mut actions = List::new(alloc);
    actions.push(action)?;
    let predicates = List::new(alloc);
    let initial = Bits::new(alloc, 0)?;
    Ok(Target {
        predicates,
        initial,
        actions,
        goal: Form::True,
    })
}

/// Sets the atom where the condition holds.
fn push_set(effects: &mut Effects, cond: Form, atom: usize) -> Result<(), NoMemory> {
    effects.push(Change {
        cond,
        atom,
        add: true,
    })
}

/// Sets the atom where another one is not set.
fn push_unset(alloc: Global, effects: &mut Effects) -> Result<(), NoMemory> {
    let unset = Form::negation(alloc, Form::Atom(1))?;
    push_set(effects, unset, 4)
}

/// Sets the atom where one atom is set, and another one not.
fn push_both(alloc: Global, effects: &mut Effects) -> Result<(), NoMemory> {
    let unset = Form::negation(alloc, Form::Atom(1))?;
    let both = Form::both(alloc, Form::Atom(2), unset)?;
    push_set(effects, both, 5)
}

/// A condition, its negation, and a conjunction with the negation.
fn related_conditions(alloc: Global) -> Result<Effects, NoMemory> {
    let mut effects = List::new(alloc);
    push_set(&mut effects, Form::Atom(1), 3)?;
    push_unset(alloc, &mut effects)?;
    push_both(alloc, &mut effects)?;
    Ok(effects)
}

/// The names of the actions, each with a space behind it.
fn names(alloc: Global, target: &Target) -> Result<Vec<u8>, NoMemory> {
    let mut names = Vec::new(alloc);
    for action in target.actions.items() {
        names.extend_from_slice(action.name.bytes())?;
        names.push(b' ')?;
    }
    Ok(names)
}

/// Flattens an action with related conditions.
fn flattened(alloc: Global) -> Result<Target, NoMemory> {
    let effects = related_conditions(alloc)?;
    let target = target(alloc, effects)?;
    let flat = flatten(alloc, &target);
    drop(target);
    match flat {
        Ok(flat) => Ok(flat),
        Err(_) => Err(NoMemory),
    }
}

/// Gives the names of the actions that it becomes.
fn flattened_names(alloc: Global) -> Result<Vec<u8>, NoMemory> {
    let flat = flattened(alloc)?;
    let names = names(alloc, &flat);
    drop(flat);
    names
}

#[test]
fn patterns_that_hold_in_no_state_are_left_out(rt: HostRuntime) -> Result<(), Fail> {
    let names = flattened_names(rt.alloc())?;
    assert!(rt; names.as_slice() == b"s0vc010 s0vc011 s0vc100 ".as_slice());
    Ok(())
}
