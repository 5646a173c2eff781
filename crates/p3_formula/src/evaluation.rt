//! Whether a form holds in a state.

ghost use Rattle.std.specs.Prelude.{◌≡◌, ◌<◌, length, slice_index_or, false};
ghost use Rattle.std.specs.List.{list_any, list_all};
ghost use Rattle.p3_formula.specs.Forms.{truth, IsBelow, AreBelow};

use crate::{Bits, Form};

/// Whether the form holds in the state. It takes no memory.
#[cycle(eval)]
#[tactic(auto, using(crate::proofs::FormLemmas::truth_laws, crate::proofs::FormLemmas::below_laws))]
pub fn eval(form: &Form, state: &Bits) -> bool
    requires { IsBelow (length state.now) form.now }
    ensures { result ≡ truth state.now form.now }
{
    match form {
        Form::True => true,
        Form::False => false,
        Form::Atom(atom) => state.get(*atom),
        Form::Not(part) => !eval(part.get(), state),
        Form::And(parts) => all_hold(parts.items(), state),
        Form::Or(parts) => some_holds(parts.items(), state),
    }
}

/// Whether every part holds.
#[cycle(eval)]
fn all_hold(parts: &[Form], state: &Bits) -> bool
    requires { AreBelow (length state.now) parts.now }
    ensures { result ≡ list_all (truth state.now) parts.now }
{
    for part in parts {
        if !eval(part, state) {
            return false;
        }
    }
    true
}

/// Whether some part holds.
#[cycle(eval)]
fn some_holds(parts: &[Form], state: &Bits) -> bool
    requires { AreBelow (length state.now) parts.now }
    ensures { result ≡ list_any (truth state.now) parts.now }
{
    for part in parts {
        if eval(part, state) {
            return true;
        }
    }
    false
}
