//! What of a form the changes of a step may turn, and when they do.

ghost use Rattle.std.specs.Prelude.{◌≡◌, ◌++◌, ◌∷◌, [], IfOk, OnOk, filter, map, not};
ghost use Rattle.std.specs.List.{list_any};
ghost use Rattle.std.specs.List.Sorted.{IsNonDecreasing};
ghost use Rattle.p3_formula.specs.Simplified as simplified;
ghost use Rattle.p3_regress.specs.Often.{AreNoted};
ghost use Rattle.p3_regress.specs.Parts.{HasTurning, IndexesParts, ListsParts};
ghost use Rattle.p3_regress.specs.Regressed as made;
ghost use Rattle.p3_regress.specs.Sorted.{lent, IsRising};
ghost use Rattle.p3_regress.specs.Turned as turned;

use crate::changed::is_named;
use crate::forms::form_before;
use crate::often::Noted;
use crate::readers::PartsByAtom;
use crate::sorted::changes_of;
use p3_base::{List, NoMemory};
use p3_formula::{Change, Form};
use std::alloc::Global;

/// How many changes are looked through before those of an atom are looked up.
const FEW: usize = 8;

/// Whether some change sets the atom, or else whether some clears it.
fn may_turn_atom(changes: &[&Change], atom: usize, up: bool) -> bool
    requires { IsRising changes.now }
    ensures { result ≡ list_any (made.is_of up atom) (lent changes.now) }
{
    if changes.len() <= FEW {
        return is_named(changes, atom, up);
    }
    is_named(changes_of(changes, atom), atom, up)
}

/// Whether the changes may turn the form true, or else false. It takes no memory.
#[cycle(turning)]
#[tactic(auto, using(crate::proofs::TurnedLaws::turn_laws))]
pub(crate) fn may_turn(changes: &[&Change], form: &Form, up: bool) -> bool
    requires { IsRising changes.now }
    ensures { result ≡ turned.may_turn (lent changes.now) up form.now }
{
    match form {
        Form::True | Form::False => false,
        Form::Atom(atom) => may_turn_atom(changes, *atom, up),
        Form::Not(part) => may_turn(changes, part.get(), !up),
        Form::And(parts) | Form::Or(parts) => may_turn_some(changes, parts.items(), up),
    }
}

/// Whether they may turn one of the forms.
#[cycle(turning)]
fn may_turn_some(changes: &[&Change], parts: &[Form], up: bool) -> bool
    requires { IsRising changes.now }
    ensures { result ≡ list_any (turned.may_turn (lent changes.now) up) parts.now }
{
    for part in parts {
        if may_turn(changes, part, up) {
            return true;
        }
    }
    false
}

/// Whether they may turn one of the parts, where those that they may turn stand at these places.
fn may_turn_at(changes: &[&Change], parts: &[Form], up: bool, places: &[usize]) -> bool
    requires rising { IsRising changes.now }
    requires all { HasTurning (turned.may_turn (lent changes.now) up) parts.now places.now }
    ensures { result ≡ list_any (turned.may_turn (lent changes.now) up) parts.now }
{
    for place in places {
        if *place < parts.len() && may_turn(changes, &parts[*place], up) {
            return true;
        }
    }
    false
}

/// Whether they may turn one of the parts, of which those that read an atom are looked up.
fn may_turn_part(
    alloc: Global,
    changes: &[&Change],
    parts: &[Form],
    up: bool,
    by_atom: &PartsByAtom,
) -> Result<bool, NoMemory>
    requires rising { IsRising changes.now }
    requires parts { ListsParts parts.now by_atom.now }
    ensures { IfOk result (λ may.
        may ≡ list_any (turned.may_turn (lent changes.now) up) parts.now) }
{
    if !by_atom.listed {
        return Ok(may_turn_some(changes, parts, up));
    }
    let places = by_atom.places_read(alloc, changes)?;
    Ok(may_turn_at(changes, parts, up, &places))
}

/// Whether the changes may turn the form true, or else false.
#[tactic(auto, using(crate::proofs::TurnedLaws::turn_laws, crate::proofs::PartLaws::parts_laws))]
pub(crate) fn may_turn_by(
    alloc: Global,
    changes: &[&Change],
    form: &Form,
    up: bool,
    by_atom: &PartsByAtom,
) -> Result<bool, NoMemory>
    requires rising { IsRising changes.now }
    requires parts { IndexesParts form.now by_atom.now }
    ensures { IfOk result (λ may. may ≡ turned.may_turn (lent changes.now) up form.now) }
{
    match form {
        Form::And(parts) | Form::Or(parts) => {
            may_turn_part(alloc, changes, parts.items(), up, by_atom)
        }
        Form::True | Form::False | Form::Atom(_) | Form::Not(_) => Ok(may_turn(changes, form, up)),
    }
}

/// The part before the changes stands behind the others, where they may turn it.
fn push_turned(
    alloc: Global,
    kept: &mut Vec<Form>,
    changes: &[&Change],
    noted: &[Noted],
    part: &Form,
    up: bool,
) -> Result<(), NoMemory>
    requires rising { IsRising changes.now }
    requires right { AreNoted (lent changes.now) noted.now }
    ensures { OnOk result (kept.new.items
        ≡ kept.old.items ++ turned.turned_parts (lent changes.now) up (part.now ∷ [])) }
{
    if may_turn(changes, part, up) {
        kept.push(form_before(alloc, changes, noted, part)?)?;
    }
    Ok(())
}

/// The parts that they may turn, before the changes.
fn turned_all(
    alloc: Global,
    changes: &[&Change],
    noted: &[Noted],
    parts: &[Form],
    up: bool,
) -> Result<Vec<Form>, NoMemory>
    requires rising { IsRising changes.now }
    requires right { AreNoted (lent changes.now) noted.now }
    ensures { IfOk result (λ kept. kept.items
        ≡ turned.turned_parts (lent changes.now) up parts.now) }
{
    let mut kept = Vec::new(alloc);
    for part in parts {
        push_turned(alloc, &mut kept, changes, noted, part, up)?;
    }
    Ok(kept)
}

/// The same, where the parts that they may turn stand at these places, which rise. One may stand
/// several times.
fn turned_at(
    alloc: Global,
    changes: &[&Change],
    noted: &[Noted],
    parts: &[Form],
    up: bool,
    places: &[usize],
) -> Result<Vec<Form>, NoMemory>
    requires rising { IsRising changes.now }
    requires right { AreNoted (lent changes.now) noted.now }
    requires sorted { IsNonDecreasing places.now }
    requires all { HasTurning (turned.may_turn (lent changes.now) up) parts.now places.now }
    ensures { IfOk result (λ kept. kept.items
        ≡ turned.turned_parts (lent changes.now) up parts.now) }
{
    let mut kept = Vec::new(alloc);
    let mut next = 0;
    for place in places {
        if *place >= next && *place < parts.len() {
            push_turned(alloc, &mut kept, changes, noted, &parts[*place], up)?;
            next = *place + 1;
        }
    }
    Ok(kept)
}

/// The parts that they may turn, before the changes. Those that read an atom are looked up.
fn turned_parts(
    alloc: Global,
    changes: &[&Change],
    noted: &[Noted],
    parts: &[Form],
    up: bool,
    by_atom: &PartsByAtom,
) -> Result<Vec<Form>, NoMemory>
    requires rising { IsRising changes.now }
    requires right { AreNoted (lent changes.now) noted.now }
    requires parts { ListsParts parts.now by_atom.now }
    ensures { IfOk result (λ kept. kept.items
        ≡ turned.turned_parts (lent changes.now) up parts.now) }
{
    if !by_atom.listed {
        return turned_all(alloc, changes, noted, parts, up);
    }
    let places = by_atom.places_read(alloc, changes)?;
    turned_at(alloc, changes, noted, parts, up, &places)
}

/// The constant of that value.
fn constant(value: bool) -> Form
    ensures { result ≡ simplified.constant value }
{
    if value { Form::True } else { Form::False }
}

/// The conjunction of the parts, or else their disjunction, where there are two or more.
fn joined(mut parts: Vec<Form>, every: bool) -> Form
    ensures { result ≡ simplified.joined every parts.items }
{
    if parts.len() > 1 {
        return together(List::from(parts), every);
    }
    match parts.pop() {
        Some(part) => part,
        None => constant(every),
    }
}

/// A conjunction of the parts, or else their disjunction.
fn together(parts: List<Form>, every: bool) -> Form
    ensures { result ≡ simplified.together every parts }
{
    if every {
        Form::And(parts)
    } else {
        Form::Or(parts)
    }
}

/// The form before the changes, or where they cannot turn it the constant that says so.
fn turned_whole(
    alloc: Global,
    changes: &[&Change],
    noted: &[Noted],
    form: &Form,
    up: bool,
    by_atom: &PartsByAtom,
) -> Result<Form, NoMemory>
    requires rising { IsRising changes.now }
    requires right { AreNoted (lent changes.now) noted.now }
    requires parts { IndexesParts form.now by_atom.now }
    ensures { IfOk result (λ before. before
        ≡ turned.turned_whole (lent changes.now) up form.now) }
{
    if !may_turn_by(alloc, changes, form, up, by_atom)? {
        return Ok(constant(!up));
    }
    form_before(alloc, changes, noted, form)
}

/// What of the form to look at after the changes, where it is not yet turned, before them: of a
/// conjunction that may turn false, and of a disjunction that may turn true, the parts that may do
/// so alone.
#[tactic(auto, using(crate::proofs::PartLaws::parts_laws, crate::proofs::PartLaws::turned_laws))]
pub(crate) fn turned(
    alloc: Global,
    changes: &[&Change],
    noted: &[Noted],
    form: &Form,
    up: bool,
    by_atom: &PartsByAtom,
) -> Result<Form, NoMemory>
    requires rising { IsRising changes.now }
    requires right { AreNoted (lent changes.now) noted.now }
    requires parts { IndexesParts form.now by_atom.now }
    ensures { IfOk result (λ before. before ≡ turned.turned (lent changes.now) up form.now) }
{
    match form {
        Form::And(parts) => {
            if up {
                return turned_whole(alloc, changes, noted, form, true, by_atom);
            }
            let kept = turned_parts(alloc, changes, noted, parts.items(), false, by_atom)?;
            Ok(joined(kept, true))
        }
        Form::Or(parts) => {
            if up {
                let kept = turned_parts(alloc, changes, noted, parts.items(), true, by_atom)?;
                return Ok(joined(kept, false));
            }
            turned_whole(alloc, changes, noted, form, false, by_atom)
        }
        Form::True | Form::False | Form::Atom(_) | Form::Not(_) => {
            turned_whole(alloc, changes, noted, form, up, by_atom)
        }
    }
}
