//! Forms before changes in place of forms after them.

ghost use Rattle.std.specs.Prelude.{◌≡◌, IfOk, map};
ghost use Rattle.p3_regress.specs.Often.{AreNoted};
ghost use Rattle.p3_regress.specs.Regressed as made;
ghost use Rattle.p3_regress.specs.Sorted.{lent, IsRising};

use crate::often::{Noted, atom_before};
use p3_base::{List, NoMemory};
use p3_formula::{Change, Form};
use std::alloc::Global;

/// The form before the changes in place of this one after them, by a recursion as deep as the form.
#[cycle(forms)]
#[tactic(auto, using(crate::proofs::RegressedLemmas::regressed_laws))]
pub(crate) fn form_before(
    alloc: Global,
    changes: &[&Change],
    noted: &[Noted],
    form: &Form,
) -> Result<Form, NoMemory>
    requires rising { IsRising changes.now }
    requires right { AreNoted (lent changes.now) noted.now }
    ensures { IfOk result (λ before. before ≡ made.regressed (lent changes.now) form.now) }
{
    match form {
        Form::True => Ok(Form::True),
        Form::False => Ok(Form::False),
        Form::Atom(atom) => atom_before(alloc, changes, noted, *atom),
        Form::Not(part) => {
            let part = form_before(alloc, changes, noted, part.get())?;
            Form::negation(alloc, part)
        }
        Form::And(parts) => Ok(Form::And(forms_before(alloc, changes, noted, parts.items())?)),
        Form::Or(parts) => Ok(Form::Or(forms_before(alloc, changes, noted, parts.items())?)),
    }
}

/// The forms before the changes in place of these after them.
#[cycle(forms)]
fn forms_before(
    alloc: Global,
    changes: &[&Change],
    noted: &[Noted],
    forms: &[Form],
) -> Result<List<Form>, NoMemory>
    requires rising { IsRising changes.now }
    requires right { AreNoted (lent changes.now) noted.now }
    ensures { IfOk result (λ befores.
        befores ≡ map (made.regressed (lent changes.now)) forms.now) }
{
    let mut befores = Vec::with_capacity(alloc, forms.len())?;
    for form in forms {
        befores.push(form_before(alloc, changes, noted, form)?)?;
    }
    Ok(List::from(befores))
}
