//! Targets without conditional effects.

ghost use Rattle.std.specs.Prelude.{◌≡◌, ◌++◌, None, IfErr, IfOk, OnOk};
ghost use Rattle.p3_flat.specs.Flattened.{AreFlattened, CanBeFlattened, IsFlatFail, IsFlattened, first_too_wide};
ghost use Rattle.p3_flat.specs.declared.flattening.FlatFail.TheVariants as fail;

use crate::naming::names_copied;
use crate::splitting::copies_of;
use p3_base::{List, NoMemory};
use p3_formula::{Target, TargetAction, copied};
use std::alloc::Global;
use thiserror::Error;

/// Why a target is not flattened.
#[derive(Clone, Copy, Debug, PartialEq, Eq, Error)]
pub enum FlatFail {
    /// The action of that place is the first one with more than 12 different conditions.
    #[error("action {0} has too many conditions")]
    FlatTooWide(usize),
    /// Memory is wanting.
    #[error("want of memory")]
    NoMemory,
}

impl From<NoMemory> for FlatFail {
    ghost from_gives = { λ _ f. f ≡ fail.NoMemory };

    fn from(_error: NoMemory) -> FlatFail {
        FlatFail::NoMemory
    }
}

/// Puts the actions behind the others.
fn push_all(all: &mut Vec<TargetAction>, more: List<TargetAction>) -> Result<(), NoMemory>
    ensures { OnOk result (all.new.items ≡ all.old.items ++ more) }
{
    let mut more = more.into_items();
    all.append(&mut more)?;
    Ok(())
}

/// Makes the copies of all actions.
fn all_copies(alloc: Global, target: &Target) -> Result<List<TargetAction>, FlatFail>
    ensures flat { IfOk result (AreFlattened target.now.actions) }
    ensures within { OnOk result (first_too_wide target.now ≡ None) }
    ensures fail { IfErr result (IsFlatFail target.now) }
{
    let mut made = Vec::new(alloc);
    for (place, action) in target.actions.items().iter().enumerate() {
        match copies_of(alloc, action)? {
            Some(copies) => push_all(&mut made, copies)?,
            None => return Err(FlatFail::FlatTooWide(place)),
        }
    }
    Ok(List::from(made))
}

/// Copies the target, but for its actions, which are these.
fn with_actions(
    alloc: Global,
    target: &Target,
    actions: List<TargetAction>,
) -> Result<Target, NoMemory>
    ensures { IfOk result (λ new. new ≡ record target.now { actions = actions }) }
{
    let predicates = names_copied(alloc, &target.predicates)?;
    let initial = target.initial.copied(alloc)?;
    let goal = copied(alloc, &target.goal)?;
    Ok(Target {
        predicates,
        initial,
        actions,
        goal,
    })
}

/// Makes the target without conditional effects: in the place of an action with conditions, a copy
/// for each pattern of which of them hold, unless that is seen to be so in no state in which the
/// action fits.
///
/// # Errors
///
/// `FlatTooWide` where an action has more than 12 different conditions, with the place of the first
/// such action, and `NoMemory`.
pub fn flatten(alloc: Global, target: &Target) -> Result<Target, FlatFail>
    requires { CanBeFlattened target.now }
    ensures flat { IfOk result (IsFlattened target.now) }
    ensures within { OnOk result (first_too_wide target.now ≡ None) }
    ensures fail { IfErr result (IsFlatFail target.now) }
{
    let actions = all_copies(alloc, target)?;
    Ok(with_actions(alloc, target, actions)?)
}
