//! Forms that are made of others.

ghost use Rattle.std.specs.Prelude.{◌≡◌, IfOk};
ghost use Rattle.p3_formula.specs.Simplified as made;

use p3_base::{List, NoMemory};
use p3_formula::{Form, copied};
use std::alloc::Global;

/// The constant of that value.
pub(crate) fn constant(value: bool) -> Form
    ensures { result ≡ made.constant value }
{
    if value { Form::True } else { Form::False }
}

/// Whether the form is the constant of that value.
pub(crate) fn is_value(form: &Form, value: bool) -> bool
    ensures { result ≡ made.is_value value form.now }
{
    match form {
        Form::True => value,
        Form::False => !value,
        Form::Atom(_) | Form::Not(_) | Form::And(_) | Form::Or(_) => false,
    }
}

/// The opposite, with no negation of a constant or of a negation.
#[tactic(auto, using(p3_formula::proofs::SimplifiedLemmas::negated_laws))]
pub(crate) fn negated(alloc: Global, form: Form) -> Result<Form, NoMemory>
    ensures { IfOk result (λ opposite. opposite ≡ made.negated form) }
{
    match form {
        Form::True => Ok(Form::False),
        Form::False => Ok(Form::True),
        Form::Not(part) => Ok(part.into_inner()),
        Form::Atom(atom) => Form::negation(alloc, Form::Atom(atom)),
        Form::And(parts) => Form::negation(alloc, Form::And(parts)),
        Form::Or(parts) => Form::negation(alloc, Form::Or(parts)),
    }
}

/// The same form once more.
pub(crate) fn form_copied(alloc: Global, form: &Form) -> Result<Form, NoMemory>
    ensures { IfOk result (λ copy. copy ≡ form.now) }
{
    match form {
        Form::True => Ok(Form::True),
        _ => copied(alloc, form),
    }
}

/// A conjunction of the parts, or else their disjunction.
fn together(parts: List<Form>, every: bool) -> Form
    ensures { result ≡ made.together every parts }
{
    if every {
        Form::And(parts)
    } else {
        Form::Or(parts)
    }
}

/// The conjunction of the parts, or else their disjunction, where there are two or more.
pub(crate) fn joined(parts: List<Form>, every: bool) -> Form
    ensures { result ≡ made.joined every parts }
{
    let mut parts = parts.into_items();
    if parts.len() > 1 {
        parts.shrink_to_fit();
        return together(List::from(parts), every);
    }
    match parts.pop() {
        Some(part) => part,
        None => constant(every),
    }
}
