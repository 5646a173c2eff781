//! Forms that are seen at once to be as simple as they can be.

ghost use Rattle.std.specs.Prelude.{◌≡◌, nat_le, ◌&&◌, IsTrue, length};
ghost use Rattle.std.specs.List.{list_all};
ghost use Rattle.p3_formula.specs.Tidy.{is_tidy, is_tidy_part};

use crate::Form;
use crate::gathered::own_literal;

/// The most parts that are compared with one another.
const MOST_PARTS: usize = 8;

/// Whether the form is a constant, a literal, or a conjunction or a disjunction of a few literals of
/// different atoms, so that nothing of it is to be simplified.
#[tactic(auto, using(crate::proofs::TidyLaws::simple_laws))]
pub(crate) fn is_simple(form: &Form) -> bool
    ensures { IsTrue result → IsTrue (is_tidy form.now) }
{
    match form {
        Form::True | Form::False | Form::Atom(_) => true,
        Form::Not(_) => is_literal(form),
        Form::And(parts) | Form::Or(parts) => are_different(parts.items()),
    }
}

/// Whether the form is an atom or the negation of one.
fn is_literal(form: &Form) -> bool
    ensures { IsTrue result → IsTrue (is_tidy_part form.now) }
{
    match own_literal(form) {
        Some(_) => true,
        None => false,
    }
}

/// Whether the forms are a few literals, two at least, of different atoms.
fn are_different(parts: &[Form]) -> bool
    ensures { IsTrue result → IsTrue (nat_le 2 (length parts.now)
        && list_all is_tidy_part parts.now) }
{
    parts.len() >= 2 && parts.len() <= MOST_PARTS && are_literals(parts) && !share_atoms(parts)
}

/// Whether each of the forms is a literal.
fn are_literals(parts: &[Form]) -> bool
    ensures { IsTrue result → IsTrue (list_all is_tidy_part parts.now) }
{
    for part in parts {
        if !is_literal(part) {
            return false;
        }
    }
    true
}

/// Whether two of the literals are of one atom. To miss that would only leave more to be read.
fn share_atoms(parts: &[Form]) -> bool {
    for (place, part) in parts.iter().enumerate() {
        if let Some(literal) = own_literal(part)
            && parts[..place]
                .iter()
                .any(|other| is_of(other, literal.atom))
        {
            return true;
        }
    }
    false
}

/// Whether the form is a literal of the atom.
fn is_of(form: &Form, atom: usize) -> bool {
    match own_literal(form) {
        Some(literal) => literal.atom == atom,
        None => false,
    }
}
