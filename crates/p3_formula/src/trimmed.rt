//! Changes whose conditions are simplified by what is known where they are made.

ghost use Rattle.std.specs.Prelude.{◌≡◌, ◌≤◌, ◌&&◌, ◌++◌, ℕ, Bool, [], length, is_some, IfOk, OnOk, IsTrue};
ghost use Rattle.std.specs.List.{list_all};
ghost use Rattle.p3_formula.specs.Forms.{State, has_atoms};
ghost use Rattle.p3_formula.specs.Literals.{is_met, said_of, with_all};
ghost use Rattle.p3_formula.specs.Next.{after};
ghost use Rattle.p3_formula.specs.Tidy.{is_tidy};
ghost use Rattle.p3_formula.specs.Trimmed as made;
ghost use Rattle.p3_formula.specs.declared.form.Change.{Change as Made};

use crate::known::Known;
use crate::literals::Literal;
use crate::settled::settled;
use crate::simpler::is_value;
use crate::{Change, Effects};
use p3_base::{List, NoMemory};
use std::alloc::Global;

/// Changes that do the same in each state in which what is known of atoms is so, under conditions that
/// are simplified by it, and by what each change takes for granted of its own atom: one that clears it
/// matters only where it is set, and one that sets it only where it is not, if none beside it may
/// clear it. What is never made is left out.
#[tactic(auto, using(crate::proofs::TrimmedLaws::trimmed_met, crate::proofs::TrimmedLaws::trimmed_is, crate::proofs::TrimmedLaws::trimmed_tidy, crate::proofs::TrimmedLaws::trimmed_atoms, crate::proofs::TrimmedLaws::trimmed_no_more))]
pub fn effects_trimmed(alloc: Global, effects: Effects, known: &Known) -> Result<Effects, NoMemory>
    ensures value { IfOk result (λ simple. simple ≡ made.trimmed (said_of known.now) effects) }
    ensures does { IfOk result (λ simple. (state : State)
        → IsTrue (list_all (is_met state) known.now)
        → after state simple ≡ after state effects) }
    ensures tidy { IfOk result (λ simple.
        IsTrue (list_all (λ (change : Made). is_tidy change.cond) simple)) }
    ensures atoms { IfOk result (λ simple. (allowed : ℕ → Bool)
        → IsTrue (list_all (λ (change : Made).
        allowed change.atom && has_atoms allowed change.cond) effects)
        → IsTrue (list_all (λ (change : Made).
        allowed change.atom && has_atoms allowed change.cond) simple)) }
    ensures fewer { IfOk result (λ simple. length simple ≤ length effects) }
{
    let cleared = cleared(alloc, effects.items())?;
    trimmed_beside(alloc, effects.into_items(), known, &cleared)
}

/// The atoms that the changes may clear.
fn cleared(alloc: Global, effects: &[Change]) -> Result<Known, NoMemory>
    ensures { IfOk result (λ cleared. cleared ≡ with_all [] (made.clearings effects.now)) }
{
    let mut cleared = Known::new(alloc);
    for change in effects {
        if !change.add {
            cleared.note_once(Literal {
                atom: change.atom,
                holds: false,
            })?;
        }
    }
    Ok(cleared)
}

/// The changes, beside some that may clear those atoms.
#[tactic(auto, using(crate::proofs::TrimmedLaws::none_left))]
fn trimmed_beside(
    alloc: Global,
    effects: Vec<Change>,
    known: &Known,
    cleared: &Known,
) -> Result<Effects, NoMemory>
    ensures { IfOk result (λ simple. simple
        ≡ made.trimmed_beside (said_of known.now) cleared.now effects.items) }
{
    let mut all = Vec::with_capacity(alloc, effects.len())?;
    for change in effects {
        let own = granted(&change, cleared);
        push_settled(alloc, &mut all, change, known, own)?;
    }
    Ok(List::from(all))
}

/// What the change takes for granted of its own atom.
fn granted(change: &Change, cleared: &Known) -> Option<Literal>
    ensures { result ≡ made.granted_to change.now.add
        (is_some (said_of cleared.now change.now.atom)) change.now.atom }
{
    let atom = change.atom;
    if !change.add {
        return Some(Literal { atom, holds: true });
    }
    if cleared.of(atom).is_some() {
        return None;
    }
    Some(Literal { atom, holds: false })
}

/// The change under its simplified condition stands behind the others, where it may be made.
fn push_settled(
    alloc: Global,
    all: &mut Vec<Change>,
    change: Change,
    known: &Known,
    own: Option<Literal>,
) -> Result<(), NoMemory>
    ensures { OnOk result (all.new.items ≡ all.old.items
        ++ made.unless_never (made.settled_change (said_of known.now) own change)) }
{
    let Change { cond, atom, add } = change;
    let cond = settled(alloc, cond, known, own)?;
    if is_value(&cond, false) {
        drop(cond);
        return Ok(());
    }
    all.push(Change { cond, atom, add })?;
    Ok(())
}
