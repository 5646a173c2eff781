//! Negated and simplified forms.

ghost use Rattle.std.specs.Prelude.{◌≡◌, ◌≤◌, ◌+◌, ◌++◌, ◌∷◌, IfOk, OnOk, IsTrue, [], map};
ghost use Rattle.p3_formula.specs.Forms.{HasAtomsOf, HasSameTruth, IsOpposite, nodes};
ghost use Rattle.p3_formula.specs.Tidy.{is_tidy};
ghost use Rattle.p3_formula.specs.Simplified as made;

use crate::Form;
use crate::copy::copied;
use crate::known::Known;
use crate::settled::simplified_under;
use crate::simple::is_simple;
use p3_base::{List, NoMemory};
use std::alloc::Global;

/// The opposite of a form: it holds in a state exactly where the form does not. It has at most one
/// node more.
#[tactic(auto, using(crate::proofs::TruthLaws::negated_truth, crate::proofs::AtomLaws::negated_atoms, crate::proofs::AtomLaws::negated_nodes))]
pub fn negate(alloc: Global, form: &Form) -> Result<Form, NoMemory>
    ensures truth { IfOk result (λ opposite. IsOpposite opposite form.now) }
    ensures size { IfOk result (λ opposite. nodes opposite ≤ 1 + nodes form.now) }
    ensures atoms { IfOk result (λ opposite. HasAtomsOf opposite form.now) }
    ensures value { IfOk result (λ opposite. opposite ≡ made.negated form.now) }
{
    negated(alloc, copied(alloc, form)?)
}

/// A tidy form that holds in the same states. It reads no other atoms and is no greater, and what
/// always holds stays as it is.
pub fn simplify(alloc: Global, form: &Form) -> Result<Form, NoMemory>
    ensures truth { IfOk result (λ simple. HasSameTruth simple form.now) }
    ensures tidy { IfOk result (λ simple. IsTrue (is_tidy simple)) }
    ensures size { IfOk result (λ simple. nodes simple ≤ nodes form.now) }
    ensures atoms { IfOk result (λ simple. HasAtomsOf simple form.now) }
    ensures stays { form.now ≡ Form.True → IfOk result (λ simple. simple ≡ Form.True) }
{
    tidied(alloc, copied(alloc, form)?)
}

/// Makes what `simplify` makes of a form, which it takes.
pub fn tidied(alloc: Global, form: Form) -> Result<Form, NoMemory>
    ensures truth { IfOk result (λ simple. HasSameTruth simple form) }
    ensures tidy { IfOk result (λ simple. IsTrue (is_tidy simple)) }
    ensures size { IfOk result (λ simple. nodes simple ≤ nodes form) }
    ensures atoms { IfOk result (λ simple. HasAtomsOf simple form) }
    ensures stays { form ≡ Form.True → IfOk result (λ simple. simple ≡ Form.True) }
{
    if is_simple(&form) {
        return Ok(form);
    }
    simplified_under(alloc, form, &Known::new(alloc))
}

/// The opposite, with no negation of a constant or of a negation.
#[tactic(auto, using(crate::proofs::SimplifiedLemmas::negated_laws))]
pub(crate) fn negated(alloc: Global, form: Form) -> Result<Form, NoMemory>
    ensures { IfOk result (λ opposite. opposite ≡ made.negated form) }
{
    match form {
        Form::True => Ok(Form::False),
        Form::False => Ok(Form::True),
        Form::Not(part) => Ok(part.into_inner()),
        Form::Atom(atom) => Form::negation(alloc, Form::Atom(atom)),
        Form::And(parts) => Form::negation(alloc, Form::And(parts)),
        Form::Or(parts) => Form::negation(alloc, Form::Or(parts)),
    }
}

/// The constant of that value.
pub(crate) fn constant(value: bool) -> Form
    ensures { result ≡ made.constant value }
{
    if value { Form::True } else { Form::False }
}

/// Whether the form is the constant of that value.
pub(crate) fn is_value(form: &Form, value: bool) -> bool
    ensures { result ≡ made.is_value value form.now }
{
    match form {
        Form::True => value,
        Form::False => !value,
        Form::Atom(_) | Form::Not(_) | Form::And(_) | Form::Or(_) => false,
    }
}

/// The conjunction of the parts, or else their disjunction, where there are two or more.
pub(crate) fn joined(mut parts: Vec<Form>, every: bool) -> Form
    ensures { result ≡ made.joined every parts.items }
{
    if parts.len() > 1 {
        parts.shrink_to_fit();
        return together(List::from(parts), every);
    }
    match parts.pop() {
        Some(part) => part,
        None => constant(every),
    }
}

/// A conjunction of the parts, or else their disjunction.
fn together(parts: List<Form>, every: bool) -> Form
    ensures { result ≡ made.together every parts }
{
    if every {
        Form::And(parts)
    } else {
        Form::Or(parts)
    }
}

/// The parts stand behind the others.
pub(crate) fn push_all(kept: &mut Vec<Form>, parts: List<Form>) -> Result<(), NoMemory>
    ensures { OnOk result (kept.new.items ≡ kept.old.items ++ parts) }
{
    let mut parts = parts.into_items();
    kept.append(&mut parts)?;
    Ok(())
}

/// The part stands behind the others.
pub(crate) fn push_one(kept: &mut Vec<Form>, part: Form) -> Result<(), NoMemory>
    ensures { OnOk result (kept.new.items ≡ kept.old.items ++ part ∷ []) }
{
    kept.push(part)?;
    Ok(())
}

/// What a part of a conjunction consists of stands behind the others.
#[tactic(auto, using(crate::proofs::SimplifiedLemmas::spread_laws))]
pub fn push_spread(kept: &mut Vec<Form>, part: Form) -> Result<(), NoMemory>
    ensures { OnOk result (kept.new.items ≡ kept.old.items ++ made.spread part) }
{
    match part {
        Form::True => Ok(()),
        Form::False => push_one(kept, Form::False),
        Form::Atom(atom) => push_one(kept, Form::Atom(atom)),
        Form::Not(part) => push_one(kept, Form::Not(part)),
        Form::And(parts) => push_all(kept, parts),
        Form::Or(parts) => push_one(kept, Form::Or(parts)),
    }
}

/// The conjunction of the parts and of one more, behind them.
pub(crate) fn with_last(kept: Vec<Form>, part: Form) -> Result<Form, NoMemory>
    ensures { IfOk result (λ form. form ≡ made.with_last kept.items part) }
{
    let mut kept = kept;
    if is_value(&part, false) {
        return Ok(constant(false));
    }
    push_spread(&mut kept, part)?;
    Ok(joined(kept, true))
}
