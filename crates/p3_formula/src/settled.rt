//! Forms simplified where something is known of atoms.

ghost use Rattle.std.specs.Prelude.{◌≡◌, ◌≤◌, ◌++◌, ◌∷◌, [], true, map, IfOk, OnOk, IsTrue};
ghost use Rattle.std.specs.List.{list_all};
ghost use Rattle.p3_formula.specs.Forms.{State, truth, HasAtomsOf, nodes};
ghost use Rattle.p3_formula.specs.Literals.{is_met, said_of};
ghost use Rattle.p3_formula.specs.Simplified.{negated};
ghost use Rattle.p3_formula.specs.Tidy.{is_tidy};
ghost use Rattle.p3_formula.specs.Settled as made;

use crate::Form;
use crate::copy::copied;
use crate::gathered::gathered;
use crate::known::Known;
use crate::literals::Literal;
use crate::simpler::{constant, negated, push_all, push_one, push_spread};
use p3_base::NoMemory;
use std::alloc::Global;

/// A tidy form that holds in the same ones of the states in which what is known of atoms is so. It
/// reads no other atoms and is no greater, and what always holds stays as it is.
pub fn simplify_under(alloc: Global, form: &Form, known: &Known) -> Result<Form, NoMemory>
    ensures truth { IfOk result (λ simple. (state : State)
        → IsTrue (list_all (is_met state) known.now)
        → truth state simple ≡ truth state form.now) }
    ensures tidy { IfOk result (λ simple. IsTrue (is_tidy simple)) }
    ensures size { IfOk result (λ simple. nodes simple ≤ nodes form.now) }
    ensures atoms { IfOk result (λ simple. HasAtomsOf simple form.now) }
    ensures stays { form.now ≡ Form.True → IfOk result (λ simple. simple ≡ Form.True) }
    ensures value { IfOk result (λ simple. simple ≡ made.settled (said_of known.now) form.now) }
{
    simplified_under(alloc, copied(alloc, form)?, known)
}

/// Makes what `simplify_under` makes of a form, which it takes.
#[tactic(auto, using(crate::proofs::SettledTruth::settled_met, crate::proofs::SettledLaws::settled_atoms_of, crate::proofs::SettledLaws::settled_nodes, crate::proofs::SettledLaws::settled_tidy, crate::proofs::SettledLaws::settled_laws))]
pub fn simplified_under(alloc: Global, form: Form, known: &Known) -> Result<Form, NoMemory>
    ensures truth { IfOk result (λ simple. (state : State)
        → IsTrue (list_all (is_met state) known.now)
        → truth state simple ≡ truth state form) }
    ensures tidy { IfOk result (λ simple. IsTrue (is_tidy simple)) }
    ensures size { IfOk result (λ simple. nodes simple ≤ nodes form) }
    ensures atoms { IfOk result (λ simple. HasAtomsOf simple form) }
    ensures stays { form ≡ Form.True → IfOk result (λ simple. simple ≡ Form.True) }
    ensures value { IfOk result (λ simple. simple ≡ made.settled (said_of known.now) form) }
{
    settled(alloc, form, known, None)
}

/// Gathers the pieces of two forms into their conjunction, each literal once. It settles neither of
/// them again.
#[tactic(auto, using(crate::proofs::SettledLaws::both_laws))]
pub fn gathered_both(alloc: Global, first: Form, second: Form) -> Result<Form, NoMemory>
    ensures value { IfOk result (λ whole.
        whole ≡ made.gathered_parts true (first ∷ second ∷ [])) }
{
    let mut all = Vec::with_capacity(alloc, 2)?;
    push_spread(&mut all, first)?;
    push_spread(&mut all, second)?;
    gathered(alloc, all, true)
}

/// The form with the known atoms as constants, one literal more among them, flattened, and each
/// literal once.
#[cycle(settle)]
#[tactic(auto, using(crate::proofs::SettledLaws::settled_laws))]
pub(crate) fn settled(
    alloc: Global,
    form: Form,
    known: &Known,
    own: Option<Literal>,
) -> Result<Form, NoMemory>
    ensures { IfOk result (λ simple. simple
        ≡ made.settled (made.also own (said_of known.now)) form) }
{
    match form {
        Form::True => Ok(Form::True),
        Form::False => Ok(Form::False),
        Form::Atom(atom) => Ok(settled_atom(atom, said(known, own, atom))),
        Form::Not(part) => {
            if stays(part.get(), known, own) {
                return Ok(Form::Not(part));
            }
            negated(alloc, settled(alloc, part.into_inner(), known, own)?)
        }
        Form::And(parts) => gathered_parts(alloc, parts.into_items(), true, known, own),
        Form::Or(parts) => gathered_parts(alloc, parts.into_items(), false, known, own),
    }
}

/// Whether the form is an atom of which nothing is known, whose negation stays as it is.
#[tactic(auto, using(crate::proofs::SettledLaws::settled_laws))]
fn stays(form: &Form, known: &Known, own: Option<Literal>) -> bool
    ensures { IsTrue result
        → negated (made.settled (made.also own (said_of known.now)) form.now) ≡ Form.Not form.now }
{
    match form {
        Form::Atom(atom) => said(known, own, *atom).is_none(),
        Form::True | Form::False | Form::Not(_) | Form::And(_) | Form::Or(_) => false,
    }
}

/// What is known of the atom, with one literal more.
fn said(known: &Known, own: Option<Literal>, atom: usize) -> Option<bool>
    ensures { result ≡ made.also own (said_of known.now) atom }
{
    match own {
        Some(one) => {
            if atom == one.atom {
                return Some(one.holds);
            }
            known.of(atom)
        }
        None => known.of(atom),
    }
}

/// The constant that is said of the atom, or the atom.
fn settled_atom(atom: usize, said: Option<bool>) -> Form
    ensures { result ≡ made.settled_atom atom said }
{
    match said {
        Some(value) => constant(value),
        None => Form::Atom(atom),
    }
}

/// The conjunction of the parts, or else their disjunction, each of them settled.
#[cycle(settle)]
fn gathered_parts(
    alloc: Global,
    parts: Vec<Form>,
    every: bool,
    known: &Known,
    own: Option<Literal>,
) -> Result<Form, NoMemory>
    ensures { IfOk result (λ simple. simple ≡ made.gathered_parts every
        (map (made.settled (made.also own (said_of known.now))) parts.items)) }
{
    let mut all = Vec::with_capacity(alloc, parts.len())?;
    for part in parts {
        push_pieces(&mut all, settled(alloc, part, known, own)?, every)?;
    }
    gathered(alloc, all, every)
}

/// What the part of a conjunction or a disjunction consists of stands behind the others.
fn push_pieces(all: &mut Vec<Form>, part: Form, every: bool) -> Result<(), NoMemory>
    ensures { OnOk result (all.new.items ≡ all.old.items ++ made.pieces every part) }
{
    if every {
        return push_spread(all, part);
    }
    push_spread_or(all, part)
}

/// What a part of a disjunction consists of stands behind the others.
#[tactic(auto, using(crate::proofs::SettledLaws::spread_or_laws))]
fn push_spread_or(all: &mut Vec<Form>, part: Form) -> Result<(), NoMemory>
    ensures { OnOk result (all.new.items ≡ all.old.items ++ made.spread_or part) }
{
    match part {
        Form::True => push_one(all, Form::True),
        Form::False => Ok(()),
        Form::Atom(atom) => push_one(all, Form::Atom(atom)),
        Form::Not(part) => push_one(all, Form::Not(part)),
        Form::And(parts) => push_one(all, Form::And(parts)),
        Form::Or(parts) => push_all(all, parts),
    }
}
