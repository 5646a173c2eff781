//! Whether a form may hold, or fail, where only some atoms may ever be set.

ghost use Rattle.std.specs.Prelude.{◌≡◌, length};
ghost use Rattle.std.specs.List.{list_any, list_all};
ghost use Rattle.p3_formula.specs.Forms.{IsBelow, AreBelow};
ghost use Rattle.p3_reach.specs.May as may;

use p3_formula::{Bits, Form};

/// Whether the form may hold, or else whether it may fail. It takes no memory.
#[cycle(may)]
#[tactic(auto, using(crate::proofs::MayLemmas::may_laws, p3_formula::proofs::FormLemmas::below_laws))]
fn may_be(form: &Form, marks: &Bits, holds: bool) -> bool
    requires { IsBelow (length marks.now) form.now }
    ensures { result ≡ may.may_be holds marks.now form.now }
{
    match form {
        Form::True => holds,
        Form::False => !holds,
        Form::Atom(atom) => !holds || marks.get(*atom),
        Form::Not(part) => may_be(part.get(), marks, !holds),
        Form::And(parts) => {
            if holds {
                all_may_be(parts.items(), marks, true)
            } else {
                some_may_be(parts.items(), marks, false)
            }
        }
        Form::Or(parts) => {
            if holds {
                some_may_be(parts.items(), marks, true)
            } else {
                all_may_be(parts.items(), marks, false)
            }
        }
    }
}

/// Whether every part may hold, or else whether every part may fail.
#[cycle(may)]
fn all_may_be(parts: &[Form], marks: &Bits, holds: bool) -> bool
    requires { AreBelow (length marks.now) parts.now }
    ensures { result ≡ list_all (may.may_be holds marks.now) parts.now }
{
    for part in parts {
        if !may_be(part, marks, holds) {
            return false;
        }
    }
    true
}

/// Whether some part may hold, or else whether some part may fail.
#[cycle(may)]
fn some_may_be(parts: &[Form], marks: &Bits, holds: bool) -> bool
    requires { AreBelow (length marks.now) parts.now }
    ensures { result ≡ list_any (may.may_be holds marks.now) parts.now }
{
    for part in parts {
        if may_be(part, marks, holds) {
            return true;
        }
    }
    false
}

/// Whether the form may hold. It takes no memory.
pub fn may_hold(form: &Form, marks: &Bits) -> bool
    requires { IsBelow (length marks.now) form.now }
    ensures { result ≡ may.may_hold marks.now form.now }
{
    may_be(form, marks, true)
}
