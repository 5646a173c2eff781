//! Forms that do not hold together, as far as their looks tell.

ghost use Rattle.std.specs.Prelude.{◌≡◌, IsTrue};
ghost use Rattle.p3_flat.specs.Splitting.{AreAgainst, IsAgainst, IsExcluded, forms_in};

use p3_formula::{Form, same_form};

/// A conjunction with more parts is not looked into part by part, so that what is compared does not
/// grow with the product of two conjunctions.
const MOST_PARTS: usize = 16;

/// Tells whether the form is the negation of the other one.
fn is_negation_of(form: &Form, other: &Form) -> bool
    ensures { IsTrue result → form.now ≡ Form.Not other.now }
{
    match form {
        Form::Not(part) => same_form(part.get(), other),
        Form::True | Form::False | Form::Atom(_) | Form::And(_) | Form::Or(_) => false,
    }
}

/// Tells whether one of the forms is the negation of the other.
fn is_opposite(form: &Form, other: &Form) -> bool
    ensures { IsTrue result → IsAgainst form.now other.now }
{
    is_negation_of(form, other) || is_negation_of(other, form)
}

/// Tells whether the other form does not hold where the form does: the form never holds, or it or a
/// part of it is the opposite.
#[cycle(against)]
fn is_against(form: &Form, other: &Form) -> bool
    ensures { IsTrue result → IsAgainst form.now other.now }
{
    match form {
        Form::False => true,
        Form::And(parts) => is_opposite(form, other) || are_against(parts.items(), other),
        Form::True | Form::Atom(_) | Form::Not(_) | Form::Or(_) => is_opposite(form, other),
    }
}

/// Tells whether the other form does not hold where all these do.
#[cycle(against)]
fn are_against(forms: &[Form], other: &Form) -> bool
    ensures { IsTrue result → AreAgainst forms.now other.now }
{
    for form in forms {
        if is_against(form, other) {
            return true;
        }
    }
    false
}

/// Tells whether the other form does not hold where the parts do.
fn some_is_against(parts: &[&Form], other: &Form) -> bool
    ensures { IsTrue result → AreAgainst (forms_in parts.now) other.now }
{
    for part in parts {
        if is_against(part, other) {
            return true;
        }
    }
    false
}

/// Tells whether the other form does not hold where the precondition and all the parts do.
fn is_excluded_whole(pre: &Form, parts: &[&Form], other: &Form) -> bool
    ensures { IsTrue result → IsExcluded pre.now (forms_in parts.now) other.now }
{
    is_against(pre, other) || some_is_against(parts, other)
}

/// Tells whether one of the forms does not hold where the precondition and all the parts do.
fn some_is_excluded(pre: &Form, parts: &[&Form], others: &[Form]) -> bool
    ensures { IsTrue result → IsExcluded pre.now (forms_in parts.now) (Form.And others.now) }
{
    for other in others {
        if is_excluded_whole(pre, parts, other) {
            return true;
        }
    }
    false
}

/// Tells whether the other form does not hold where the precondition and all the parts do, as far
/// as pairs of a form and its negation show.
pub(crate) fn is_excluded(pre: &Form, parts: &[&Form], other: &Form) -> bool
    ensures { IsTrue result → IsExcluded pre.now (forms_in parts.now) other.now }
{
    if is_excluded_whole(pre, parts, other) {
        return true;
    }
    match other {
        Form::False => true,
        Form::And(others) => {
            others.len() <= MOST_PARTS && some_is_excluded(pre, parts, others.items())
        }
        Form::True | Form::Atom(_) | Form::Not(_) | Form::Or(_) => false,
    }
}
