//! Whether two forms are the same.

ghost use Rattle.std.specs.Prelude.{◌≡◌, ◌↔◌, true, false, map};
ghost use Rattle.p3_formula.specs.Same as same;

use crate::Form;

/// Tells whether two forms are the same: of one kind, with the same parts in the same order.
pub fn same_form(form: &Form, other: &Form) -> bool
    ensures { (result ≡ true) ↔ (form.now ≡ other.now) }
{
    is_same(form, other)
}

/// Compares two forms part by part.
#[cycle(same)]
#[tactic(auto, using(crate::proofs::SameLemmas::same_laws))]
fn is_same(form: &Form, other: &Form) -> bool
    ensures { result ≡ same.same_form form.now other.now }
{
    match form {
        Form::True => matches!(other, Form::True),
        Form::False => matches!(other, Form::False),
        Form::Atom(atom) => is_atom(*atom, other),
        Form::Not(part) => match other {
            Form::Not(against) => is_same(part.get(), against.get()),
            Form::True | Form::False | Form::Atom(_) | Form::And(_) | Form::Or(_) => false,
        },
        Form::And(parts) => match other {
            Form::And(others) => are_same(parts.items(), others.items()),
            Form::True | Form::False | Form::Atom(_) | Form::Not(_) | Form::Or(_) => false,
        },
        Form::Or(parts) => match other {
            Form::Or(others) => are_same(parts.items(), others.items()),
            Form::True | Form::False | Form::Atom(_) | Form::Not(_) | Form::And(_) => false,
        },
    }
}

/// Compares forms in turn, where there are as many.
#[cycle(same)]
fn are_same(parts: &[Form], others: &[Form]) -> bool
    ensures { result ≡ same.each_passes (map same.same_form parts.now) others.now }
{
    if parts.len() != others.len() {
        return false;
    }
    for (place, part) in parts.iter().enumerate() {
        if !is_same(part, &others[place]) {
            return false;
        }
    }
    true
}

/// Tells whether a form is that atom.
fn is_atom(atom: usize, form: &Form) -> bool
    ensures { result ≡ same.is_atom atom form.now }
{
    match form {
        Form::Atom(other) => atom == *other,
        Form::True | Form::False | Form::Not(_) | Form::And(_) | Form::Or(_) => false,
    }
}
