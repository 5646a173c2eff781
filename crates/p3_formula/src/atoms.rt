//! The atoms that stand in a form.

ghost use Rattle.std.specs.Prelude.{◌≡◌};
ghost use Rattle.std.specs.List.{list_all};
ghost use Rattle.p3_formula.specs.Forms.{has_atoms, is_other};

use crate::Form;

/// Whether the atom stands nowhere in the form. It takes no memory.
#[cycle(atoms)]
#[tactic(auto, using(crate::proofs::FormLemmas::atom_laws))]
pub fn is_free_of(form: &Form, atom: usize) -> bool
    ensures { result ≡ has_atoms (is_other atom) form.now }
{
    match form {
        Form::True | Form::False => true,
        Form::Atom(one) => *one != atom,
        Form::Not(part) => is_free_of(part.get(), atom),
        Form::And(parts) | Form::Or(parts) => all_are_free_of(parts.items(), atom),
    }
}

/// Whether the atom stands nowhere in the forms.
#[cycle(atoms)]
fn all_are_free_of(forms: &[Form], atom: usize) -> bool
    ensures { result ≡ list_all (has_atoms (is_other atom)) forms.now }
{
    for form in forms {
        if !is_free_of(form, atom) {
            return false;
        }
    }
    true
}
