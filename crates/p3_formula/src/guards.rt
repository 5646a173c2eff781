//! Conditions with guards, and changes that clear some atoms and set others.

ghost use Rattle.std.specs.Prelude.{◌≡◌, ◌++◌, IfOk, map};
ghost use Rattle.p3_formula.specs.Guards as made;

use crate::simpler::with_last;
use crate::{Change, Effects, Form, copied, tidied};
use p3_base::{List, NoMemory};
use std::alloc::Global;

/// A tidy form that holds where the guards are set and the condition holds.
pub fn guarded(alloc: Global, guards: &[usize], condition: &Form) -> Result<Form, NoMemory>
    ensures { IfOk result (made.IsGuardedForm guards.now condition.now) }
{
    guarding(alloc, guards, copied(alloc, condition)?)
}

/// A tidy form that holds where the guards are set and the condition holds, which it takes.
pub fn guarding(alloc: Global, guards: &[usize], condition: Form) -> Result<Form, NoMemory>
    ensures { IfOk result (made.IsGuardedForm guards.now condition) }
{
    let simple = tidied(alloc, condition)?;
    let kept = atoms(alloc, guards, part_count(&simple))?;
    with_last(kept, simple)
}

/// How many parts the form has as a part of a conjunction.
fn part_count(form: &Form) -> usize {
    match form {
        Form::And(parts) => parts.len(),
        _ => 1,
    }
}

/// Each atom as a form, with room for some forms more.
fn atoms(alloc: Global, atoms: &[usize], more: usize) -> Result<Vec<Form>, NoMemory>
    ensures { IfOk result (λ forms. forms.items ≡ map Form.Atom atoms.now) }
{
    let mut forms = Vec::with_capacity(alloc, atoms.len().saturating_add(more))?;
    for atom in atoms {
        forms.push(Form::Atom(*atom))?;
    }
    Ok(forms)
}

/// Beside those changes, some atoms are cleared and others are set, whatever holds.
pub fn turned(effects: Effects, off: &[usize], on: &[usize]) -> Result<Effects, NoMemory>
    ensures { IfOk result (λ new. new ≡ effects ++ made.turned off.now on.now) }
{
    let mut all = effects.into_items();
    all.reserve_exact(off.len().saturating_add(on.len()))?;
    'clearing: for atom in off {
        all.push(Change::clears(*atom))?;
    }
    'setting: for atom in on {
        all.push(Change::sets(*atom))?;
    }
    Ok(List::from(all))
}
