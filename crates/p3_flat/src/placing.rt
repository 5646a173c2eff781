//! The places of the conditions of changes among the different ones.

ghost use Rattle.std.specs.Prelude.{◌≡◌, true, IfOk};
ghost use Rattle.p3_formula.specs.Simplified.{is_value};
ghost use Rattle.p3_flat.specs.Conditions.{with_form};
ghost use Rattle.p3_flat.specs.Splitting.{FindsForm, HasPlace, IsPlacing};

use p3_base::{List, NoMemory};
use p3_formula::{Effects, Form, copied, same_form};
use std::alloc::Global;

/// The most different conditions that an action may have.
const MOST_CONDITIONS: usize = 12;

/// A change, and where its condition stands among the different ones.
#[derive(Debug, Drop)]
pub(crate) struct Placed {
    /// The atom.
    pub(crate) atom: usize,
    /// Whether the atom is set, else it is cleared.
    pub(crate) add: bool,
    /// The place of its condition, where it has one that does not always hold.
    pub(crate) place: Option<usize>,
}

/// The different conditions of some changes, and each change with the place of its own.
#[derive(Debug, Drop)]
pub(crate) struct Placing {
    /// The conditions, in the order of their first uses.
    pub(crate) conditions: List<Form>,
    /// The changes.
    pub(crate) changes: List<Placed>,
}

/// Tells whether the form always holds, by its looks.
fn is_true(form: &Form) -> bool
    ensures { result ≡ is_value true form.now }
{
    match form {
        Form::True => true,
        Form::False | Form::Atom(_) | Form::Not(_) | Form::And(_) | Form::Or(_) => false,
    }
}

/// Finds the form among others.
fn place_among(forms: &[Form], form: &Form) -> Option<usize>
    ensures { FindsForm forms.now form.now result }
{
    for (place, other) in forms.iter().enumerate() {
        if same_form(other, form) {
            return Some(place);
        }
    }
    None
}

/// Gives the place of the condition, which stands behind the others where it is new.
fn place_of(
    alloc: Global,
    conditions: &mut List<Form>,
    condition: &Form,
) -> Result<Option<usize>, NoMemory>
    ensures forms { IfOk result (λ _. conditions.new ≡ with_form conditions.old condition.now) }
    ensures place { IfOk result (HasPlace conditions.new condition.now) }
{
    if is_true(condition) {
        return Ok(None);
    }
    if let Some(place) = place_among(conditions.items(), condition) {
        return Ok(Some(place));
    }
    let place = conditions.len();
    conditions.push(copied(alloc, condition)?)?;
    Ok(Some(place))
}

/// Gives all conditions their places, where there are not too many different ones.
pub(crate) fn place_all(alloc: Global, effects: &Effects) -> Result<Option<Placing>, NoMemory>
    ensures { IfOk result (IsPlacing effects.now) }
{
    let mut conditions = List::new(alloc);
    let mut changes = Vec::with_capacity(alloc, effects.len())?;
    for change in effects.items() {
        let place = place_of(alloc, &mut conditions, &change.cond)?;
        if conditions.len() > MOST_CONDITIONS {
            return Ok(None);
        }
        changes.push(Placed {
            atom: change.atom,
            add: change.add,
            place,
        })?;
    }
    Ok(Some(Placing {
        conditions,
        changes: List::from(changes),
    }))
}
