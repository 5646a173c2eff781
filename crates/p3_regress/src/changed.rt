//! An atom after the changes of a step.

ghost use Rattle.std.specs.Prelude.{◌≡◌, IfOk, IfSome, [], true, false};
ghost use Rattle.std.specs.List.{list_any};
ghost use Rattle.p3_formula.specs.Simplified.{joined, is_value};
ghost use Rattle.p3_regress.specs.Regressed as made;
ghost use Rattle.p3_regress.specs.Sorted.{lent};

use p3_base::{List, NoMemory};
use p3_formula::{Change, Form, copied};
use std::alloc::Global;

/// Whether the change sets this atom, or else whether it clears it.
fn is_of(change: &Change, atom: usize, add: bool) -> bool
    ensures { result ≡ made.is_of add atom change.now }
{
    change.atom == atom && (if add { change.add } else { !change.add })
}

/// The conditions of the changes that set the atom, or else of those that clear it.
fn conditions(
    alloc: Global,
    changes: &[&Change],
    atom: usize,
    add: bool,
) -> Result<Vec<Form>, NoMemory>
    ensures { IfOk result (λ conds. conds.items ≡ made.conditions add atom [] (lent changes.now)) }
{
    let mut conds = Vec::new(alloc);
    for change in changes {
        if is_of(change, atom, add) {
            conds.push(copied(alloc, &change.cond)?)?;
        }
    }
    Ok(conds)
}

/// Whether the form is the constant that always holds.
fn is_true(form: &Form) -> bool
    ensures { result ≡ is_value true form.now }
{
    matches!(form, Form::True)
}

/// Whether one of the forms is the constant that always holds.
fn has_true(forms: &[Form]) -> bool
    ensures { result ≡ list_any (is_value true) forms.now }
{
    for form in forms {
        if is_true(form) {
            return true;
        }
    }
    false
}

/// The disjunction of the parts, where there are two or more.
fn either(mut parts: Vec<Form>) -> Form
    ensures { result ≡ joined false parts.items }
{
    if parts.len() > 1 {
        return Form::Or(List::from(parts));
    }
    match parts.pop() {
        Some(part) => part,
        None => Form::False,
    }
}

/// The atom, and none of the conditions.
fn stays(alloc: Global, atom: usize, deletes: Vec<Form>) -> Result<Form, NoMemory>
    ensures { IfOk result (λ form. form ≡ made.stays atom deletes.items) }
{
    let kept = Form::negation(alloc, either(deletes))?;
    Form::both(alloc, Form::Atom(atom), kept)
}

/// The ways to be set after the step: by a change, or by staying so.
fn with_kept(
    alloc: Global,
    atom: usize,
    mut adds: Vec<Form>,
    deletes: Vec<Form>,
) -> Result<Vec<Form>, NoMemory>
    ensures { IfOk result (λ ways. ways.items ≡ made.with_kept atom adds.items deletes.items) }
{
    if deletes.is_empty() {
        adds.push(Form::Atom(atom))?;
    } else if !has_true(&deletes) {
        adds.push(stays(alloc, atom, deletes)?)?;
    }
    Ok(adds)
}

/// When the atom is set after the step, from the conditions of its changes.
fn changed(
    alloc: Global,
    atom: usize,
    adds: Vec<Form>,
    deletes: Vec<Form>,
) -> Result<Form, NoMemory>
    ensures { IfOk result (λ form. form ≡ made.changed atom adds.items deletes.items) }
{
    if has_true(&adds) {
        return Ok(Form::True);
    }
    Ok(either(with_kept(alloc, atom, adds, deletes)?))
}

/// Whether some change sets the atom, or else whether some clears it.
pub(crate) fn is_named(changes: &[&Change], atom: usize, add: bool) -> bool
    ensures { result ≡ list_any (made.is_of add atom) (lent changes.now) }
{
    for change in changes {
        if is_of(change, atom, add) {
            return true;
        }
    }
    false
}

/// Whether some change sets the atom, or else whether some clears it, whatever holds.
fn is_sure(changes: &[&Change], atom: usize, add: bool) -> bool
    ensures { result ≡ list_any (made.is_sure add atom) (lent changes.now) }
{
    for change in changes {
        if is_of(change, atom, add) && is_true(&change.cond) {
            return true;
        }
    }
    false
}

/// When the atom is set after the step, where that needs no condition: it is set or cleared whatever
/// holds, or no change names it.
fn sure_after(changes: &[&Change], atom: usize) -> Option<Form>
    ensures { IfSome result (λ form. form ≡ made.atom_after (lent changes.now) atom) }
{
    if changes.is_empty() {
        Some(Form::Atom(atom))
    } else if is_sure(changes, atom, true) {
        Some(Form::True)
    } else if is_named(changes, atom, true) {
        None
    } else if is_sure(changes, atom, false) {
        Some(Form::False)
    } else {
        None
    }
}

/// When the atom is set after the step.
pub(crate) fn atom_after(alloc: Global, changes: &[&Change], atom: usize) -> Result<Form, NoMemory>
    ensures { IfOk result (λ form. form ≡ made.atom_after (lent changes.now) atom) }
{
    if let Some(form) = sure_after(changes, atom) {
        return Ok(form);
    }
    let adds = conditions(alloc, changes, atom, true)?;
    let deletes = conditions(alloc, changes, atom, false)?;
    changed(alloc, atom, adds, deletes)
}
