//! The operators of a constraint at objects.

ghost use Rattle.std.specs.Prelude.{◌≡◌, [], ◌∷◌, ◌++◌, map, flat_map, OnOk, IfOk};
ghost use Rattle.p3_numbers.specs.Constraints.{constraint_of, modal_of};
ghost use Rattle.p3_numbers.specs.Slots.{bound};
ghost use Rattle.p3_scenes.specs.Lent.{lent_words};
ghost use Rattle.p3_scenes.specs.Scenes.{scene_of, scenes};
ghost use Rattle.p3_scenes.specs.Seen.{seen};

use crate::bindings::{Bindings, scope_with};
use crate::first_word::modal_word;
use crate::parts::{body_in, constraints_in, modal_in, ranges_in};
use crate::scene::{OperatorScene, lent};
use p3_base::{List, Name, NoMemory, Role};
use p3_expansion::{choice_count, place_choice};
use p3_numbers::{NumberedConstraint, NumberedModal, Numbers};
use p3_task::{Constraint, Modal};
use std::alloc::Global;

/// A half of a task, and what its numbers stand for.
#[derive(Clone, Copy, Drop)]
pub(crate) struct Half<'t> {
    pub(crate) alloc: Global,
    pub(crate) numbers: &'t Numbers,
    pub(crate) role: Role,
}

/// An operator at the objects in the slots.
fn operator_scene<'t>(
    half: &Half<'_>,
    modal: &Modal,
    numbered: &'t NumberedModal,
    scope: &[&'t Name],
    slots: &[u32],
) -> Result<OperatorScene<'t>, NoMemory>
    ensures { IfOk result (λ scene. seen scene
        ≡ scene_of half.now.role modal.now numbered.now (lent_words scope.now) slots.now) }
{
    let bindings = Bindings::of(half.alloc, scope, slots)?;
    Ok(OperatorScene {
        role: half.role,
        word: modal_word(modal),
        operator: lent(numbered),
        bindings,
    })
}

/// Puts the operators of a constraint at the objects in the slots behind those found, in order:
/// those outside preferences, or else all.
#[cycle(operators)]
pub(crate) fn push_operators<'t>(
    half: &Half<'_>,
    within: bool,
    constraint: &'t Constraint,
    numbered: &'t NumberedConstraint,
    scope: &[&'t Name],
    slots: &[u32],
    found: &mut List<OperatorScene<'t>>,
) -> Result<(), NoMemory>
    requires { numbered.now
        ≡ constraint_of half.now.numbers.now constraint.now (lent_words scope.now) }
    ensures { OnOk result (map seen found.new ≡ map seen found.old ++ scenes half.now.numbers.now
        half.now.role within constraint.now (lent_words scope.now) slots.now) }
{
    match constraint {
        Constraint::Both(parts) => {
            let others = constraints_in(numbered);
            push_parts(half, within, parts.items(), others, scope, slots, found)
        }
        Constraint::Each(variables, body) => {
            let (ranges, other) = (ranges_in(numbered), body_in(numbered));
            let inner = scope_with(half.alloc, scope, variables.items())?;
            let inner = inner.as_slice();
            push_bodies(half, within, body.get(), other, inner, ranges, slots, found)
        }
        Constraint::Single(modal) => {
            let Some(other) = modal_in(numbered) else {
                unreachable!()
            };
            let scene = operator_scene(half, modal, other, scope, slots)?;
            found.push(scene)?;
            Ok(())
        }
        Constraint::Soft { body, .. } => {
            if within {
                let (body, other) = (body.get(), body_in(numbered));
                return push_operators(half, within, body, other, scope, slots, found);
            }
            Ok(())
        }
    }
}

/// Puts the operators of all parts behind those found.
#[cycle(operators)]
fn push_parts<'t>(
    half: &Half<'_>,
    within: bool,
    parts: &'t [Constraint],
    others: &'t [NumberedConstraint],
    scope: &[&'t Name],
    slots: &[u32],
    found: &mut List<OperatorScene<'t>>,
) -> Result<(), NoMemory>
    requires { others.now ≡ map (λ part. constraint_of half.now.numbers.now part
        (lent_words scope.now)) parts.now }
    ensures { OnOk result (map seen found.new ≡ map seen found.old ++ flat_map
        (λ part. scenes half.now.numbers.now half.now.role within part
        (lent_words scope.now) slots.now) parts.now) }
{
    for place in 0..parts.len() {
        push_operators(
            half,
            within,
            &parts[place],
            &others[place],
            scope,
            slots,
            found,
        )?;
    }
    Ok(())
}

/// Puts the operators of the body at each choice of objects behind those found.
#[cycle(operators)]
fn push_bodies<'t>(
    half: &Half<'_>,
    within: bool,
    body: &'t Constraint,
    other: &'t NumberedConstraint,
    scope: &[&'t Name],
    ranges: &[u32],
    slots: &[u32],
    found: &mut List<OperatorScene<'t>>,
) -> Result<(), NoMemory>
    requires { other.now ≡ constraint_of half.now.numbers.now body.now (lent_words scope.now) }
    ensures { OnOk result (map seen found.new ≡ map seen found.old ++ flat_map
        (scenes half.now.numbers.now half.now.role within body.now (lent_words scope.now))
        (bound half.now.numbers.now slots.now ranges.now)) }
{
    let count = choice_count(half.numbers, ranges)?;
    let mut inner = Vec::from_slice(half.alloc, slots)?;
    for choice in 0..count {
        place_choice(&mut inner, slots.len(), half.numbers, ranges, count, choice)?;
        push_operators(half, within, body, other, scope, inner.as_slice(), found)?;
    }
    Ok(())
}
