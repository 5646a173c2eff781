//! Actions.

ghost use Rattle.std.specs.Prelude.{◌≡◌, IsSome, Some, IfOk};
ghost use Rattle.std.specs.Option.{option_map};
ghost use Rattle.std.specs.Str.{str_to_ascii_lowercase};
ghost use Rattle.p3_task.specs.Grammar.Halves.{action_in};
ghost use Rattle.p3_outline.specs.Nodes.{expressions_of};
ghost use Rattle.p3_syntax.specs.Reading.{Gives};
ghost use Rattle.p3_syntax.specs.Sections.{named_once};
ghost use Rattle.p3_syntax.specs.Actions.{the_part, the_parts, each_part, parameters_among, precondition_among, effect_among, body_among, action_of};

use crate::tree::effects::effect_or_empty;
use crate::tree::goals::goal_or_empty;
use crate::tree::lists::variables;
use crate::tree::parts::headed;
use crate::tree::sections::is_named;
use crate::tree::words::{TextWord, copied, word};
use p3_base::{List, NoMemory};
use p3_outline::{Parts, View};
use p3_task::{Action, Effect, Part, PreGoal, Ref, Typed};
use std::alloc::Global;

/// A keyword of an action, and the part behind it.
#[derive(Clone, Copy)]
pub struct ActionPart<'o, 'a> {
    /// The keyword.
    pub word: TextWord<'a>,
    /// The part.
    pub body: View<'o, 'a>,
}

/// The keywords and the parts behind them.
fn keyword_parts<'o, 'a>(
    alloc: Global,
    parts: Parts<'o, 'a>,
) -> Result<Vec<ActionPart<'o, 'a>>, NoMemory>
    requires tree { IsSome (each_part parts) }
    ensures { IfOk result (λ found. each_part parts.entry ≡ Some (the_parts found.items)) }
{
    let mut left = parts;
    let mut found = Vec::new(alloc);
    while let Some(key) = left.next() {
        let body = left.next().unwrap();
        let word = word(key);
        found.push(ActionPart { word, body })?;
    }
    Ok(found)
}

/// The part with this keyword, where there is one.
#[tactic(auto, using(crate::proofs::Loops::one_more))]
fn at_most_one<'o, 'a>(keyword: &[u8], parts: &[ActionPart<'o, 'a>]) -> Option<ActionPart<'o, 'a>>
    requires lowered { str_to_ascii_lowercase keyword.now ≡ keyword.now }
    requires tree { IsSome (named_once keyword.now (the_parts parts.now)) }
    ensures { named_once keyword.now (the_parts parts.now) ≡ Some (option_map the_part result) }
{
    for part in parts {
        if is_named(part.word.text, keyword) {
            return Some(*part);
        }
    }
    None
}

/// The parameters. Where the part is absent, there are none.
fn parameters(alloc: Global, parts: &[ActionPart<'_, '_>]) -> Result<List<Typed>, NoMemory>
    requires tree { IsSome (parameters_among (the_parts parts.now)) }
    ensures { Gives result (parameters_among (the_parts parts.now)) }
{
    match at_most_one(b":parameters", parts) {
        None => Ok(List::new(alloc)),
        Some(part) => variables(alloc, part.body),
    }
}

/// The precondition. Where the part is absent, it is empty and stands at the given offset.
fn precondition(
    alloc: Global,
    at: u32,
    parts: &[ActionPart<'_, '_>],
) -> Result<Part<PreGoal>, NoMemory>
    requires tree { IsSome (precondition_among at (the_parts parts.now)) }
    ensures { Gives result (precondition_among at (the_parts parts.now)) }
{
    match at_most_one(b":precondition", parts) {
        None => Ok(Part {
            at,
            body: PreGoal::Both(List::new(alloc)),
        }),
        Some(part) => {
            let body = goal_or_empty(alloc, part.body)?;
            Ok(Part {
                at: part.word.at,
                body,
            })
        }
    }
}

/// The effect. Where the part is absent, it is empty and stands at the given offset.
fn effect(alloc: Global, at: u32, parts: &[ActionPart<'_, '_>]) -> Result<Part<Effect>, NoMemory>
    requires tree { IsSome (effect_among at (the_parts parts.now)) }
    ensures { Gives result (effect_among at (the_parts parts.now)) }
{
    match at_most_one(b":effect", parts) {
        None => Ok(Part {
            at,
            body: Effect::All(List::new(alloc)),
        }),
        Some(part) => {
            let body = effect_or_empty(alloc, part.body)?;
            Ok(Part {
                at: part.word.at,
                body,
            })
        }
    }
}

/// What stands in the parts of an action.
#[derive(Drop)]
pub struct ActionBody {
    /// The parameters.
    pub params: List<Typed>,
    /// The precondition.
    pub pre: Part<PreGoal>,
    /// The effect.
    pub effect: Part<Effect>,
}

fn body_among(alloc: Global, at: u32, parts: &[ActionPart<'_, '_>]) -> Result<ActionBody, NoMemory>
    requires tree { IsSome (body_among at (the_parts parts.now)) }
    ensures { Gives result (body_among at (the_parts parts.now)) }
{
    let params = parameters(alloc, parts)?;
    let effect = effect(alloc, at, parts)?;
    // The precondition comes last, so that none has to be let go of: that is quicker to prove.
    let pre = precondition(alloc, at, parts)?;
    Ok(ActionBody {
        params,
        pre,
        effect,
    })
}

/// The action of a name and a body.
fn action_of(name: Ref, body: ActionBody) -> Action
    ensures { result ≡ action_of name body }
{
    let ActionBody {
        params,
        pre,
        effect,
    } = body;
    Action {
        name,
        params,
        pre,
        effect,
    }
}

/// What stands behind `:action`.
pub fn action(alloc: Global, parts: Parts<'_, '_>) -> Result<Action, NoMemory>
    requires tree { IsSome (action_in (expressions_of parts)) }
    ensures { Gives result (action_in (expressions_of parts.entry)) }
{
    let list = headed(parts);
    let name = copied(alloc, list.word)?;
    let parts = keyword_parts(alloc, list.behind)?;
    let body = body_among(alloc, name.at, parts.as_slice())?;
    Ok(action_of(name, body))
}
