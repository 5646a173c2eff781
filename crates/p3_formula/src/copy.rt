//! Copies of forms and of changes.

ghost use Rattle.std.specs.Prelude.{◌≡◌, IfOk};

use crate::{Change, Effects, Form};
use p3_base::{Boxed, List, NoMemory};
use std::alloc::Global;

/// The same form once more.
#[cycle(copy)]
pub fn copied(alloc: Global, form: &Form) -> Result<Form, NoMemory>
    ensures { IfOk result (λ copy. copy ≡ form.now) }
{
    match form {
        Form::True => Ok(Form::True),
        Form::False => Ok(Form::False),
        Form::Atom(atom) => Ok(Form::Atom(*atom)),
        Form::Not(part) => Ok(Form::Not(Boxed::new(alloc, copied(alloc, part.get())?)?)),
        Form::And(parts) => Ok(Form::And(copied_all(alloc, parts.items())?)),
        Form::Or(parts) => Ok(Form::Or(copied_all(alloc, parts.items())?)),
    }
}

/// The same forms once more.
#[cycle(copy)]
fn copied_all(alloc: Global, forms: &[Form]) -> Result<List<Form>, NoMemory>
    ensures { IfOk result (λ copies. copies ≡ forms.now) }
{
    let mut copies = Vec::with_capacity(alloc, forms.len())?;
    for form in forms {
        copies.push(copied(alloc, form)?)?;
    }
    Ok(List::from(copies))
}

/// The same change once more.
pub fn change_copied(alloc: Global, change: &Change) -> Result<Change, NoMemory>
    ensures { IfOk result (λ copy. copy ≡ change.now) }
{
    Ok(Change {
        cond: copied(alloc, &change.cond)?,
        atom: change.atom,
        add: change.add,
    })
}

/// The same changes once more.
pub fn effects_copied(alloc: Global, effects: &Effects) -> Result<Effects, NoMemory>
    ensures { IfOk result (λ copy. copy ≡ effects.now) }
{
    let mut copies = Vec::with_capacity(alloc, effects.len())?;
    for change in effects.items() {
        copies.push(change_copied(alloc, change)?)?;
    }
    Ok(List::from(copies))
}

/// The same changes, in no more room than they take.
pub fn fitted(effects: Effects) -> Effects
    ensures { result ≡ effects }
{
    let mut changes = effects.into_items();
    changes.shrink_to_fit();
    List::from(changes)
}
