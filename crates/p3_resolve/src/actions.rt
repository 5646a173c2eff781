//! Actions with numbers.

ghost use Rattle.std.specs.Prelude.{◌≡◌, [], map, OnOk, IfOk};
ghost use Rattle.p3_numbers.specs.Tasks.{numbered_action as action_of};
ghost use Rattle.p3_resolve.specs.NumbersOf.{numbers_of};
ghost use Rattle.p3_resolve.specs.Walk.{with_tree, uses_of_action, uses_of_each};

use crate::effects::numbered_effect;
use crate::goals::boxed_goal;
use crate::tables::Tables;
use crate::walk::Walk;
use p3_base::{List, NoMemory};
use p3_numbers::NumberedAction;
use p3_task::Action;
use std::alloc::Global;

/// An action with numbers, outside all variables; what is found in it is noted.
#[tactic(auto, using(crate::proofs::FormLemmas::action_laws, crate::proofs::FormLemmas::word_laws))]
fn numbered_action<'t>(
    alloc: Global,
    tables: &Tables<'t>,
    walk: &mut Walk<'t>,
    action: &'t Action,
) -> Result<NumberedAction, NoMemory>
    requires { walk.old.words ≡ [] }
    ensures walk { OnOk result
        (walk.new ≡ with_tree tables.now.task.now (uses_of_action action.now) walk.old) }
    ensures made { IfOk result (λ made. made ≡ action_of (numbers_of tables.now) action.now) }
{
    let ranges = walk.enter(alloc, tables, action.params.items())?;
    let pre = boxed_goal(alloc, tables, walk, &action.pre.body)?;
    let effect = numbered_effect(alloc, tables, walk, &action.effect.body)?;
    walk.leave(action.params.items());
    Ok(NumberedAction {
        ranges,
        pre: pre.into_inner(),
        effect,
    })
}

/// Each action with numbers, outside all variables.
#[tactic(auto, using(crate::proofs::FormLemmas::more_laws))]
pub(crate) fn numbered_actions<'t>(
    alloc: Global,
    tables: &Tables<'t>,
    walk: &mut Walk<'t>,
    actions: &'t [Action],
) -> Result<List<NumberedAction>, NoMemory>
    requires { walk.old.words ≡ [] }
    ensures walk { OnOk result (walk.new
        ≡ with_tree tables.now.task.now (uses_of_each uses_of_action actions.now) walk.old) }
    ensures made { IfOk result (λ made. made
        ≡ map (action_of (numbers_of tables.now)) actions.now) }
{
    let mut made = List::with_capacity(alloc, actions.len())?;
    for action in actions {
        made.push(numbered_action(alloc, tables, walk, action)?)?;
    }
    Ok(made)
}
