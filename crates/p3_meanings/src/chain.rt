//! The chain atoms of a written task.

ghost use Rattle.std.specs.Prelude.{◌≡◌, ◌++◌, ◌∷◌, [], IfOk, OnOk, length, map};
ghost use Rattle.p3_formula.specs.declared.modal.GroundSoft.{GroundSoft as Soft};
ghost use Rattle.p3_scenes.specs.Seen.{seen_soft};
ghost use Rattle.p3_accounts.specs.Vocabularies.{vocabulary};
ghost use Rattle.p3_unmet.specs.Sources.{texts};
ghost use Rattle.p3_meanings.specs.Chains.{all_settled};
ghost use Rattle.p3_meanings.specs.Heard.{chain_heard, heard, next_heard};

use crate::telling::Telling;
use crate::unnumbered::Unnumbered;
use p3_accounts::{Meant, Settling};
use p3_base::{List, NoMemory};
use p3_formula::GroundSoft;
use p3_scenes::InstanceScene;
use p3_unmet::bindings_of;

/// Tells that an instance of a preference is settled next.
#[tactic(auto, using(crate::proofs::SaidLemmas::bindings_are_told))]
fn next_of(
    telling: &Telling<'_>,
    name: Option<u32>,
    instance: &InstanceScene<'_>,
) -> Result<Unnumbered, NoMemory>
    ensures { IfOk result (λ item. heard (vocabulary telling.now.terms.now) item
        ≡ next_heard (vocabulary telling.now.terms.now) (texts telling.now.sources.now) name
        (seen_soft instance.now)) }
{
    let bindings = bindings_of(telling.alloc, &instance.bindings)?;
    let spot = Some(telling.sources.spot(instance.role, instance.at));
    Ok(Unnumbered {
        spot,
        of: Meant::Chain(Settling::Next { name, bindings }),
    })
}

/// Puts the instances of preferences in the order in which they are settled.
fn push_instances(
    telling: &Telling<'_>,
    softs: &[GroundSoft],
    scenes: &[InstanceScene<'_>],
    found: &mut List<Unnumbered>,
) -> Result<(), NoMemory>
    requires { length softs.now ≡ length scenes.now }
    ensures { OnOk result (map (heard (vocabulary telling.now.terms.now)) found.new
        ≡ map (heard (vocabulary telling.now.terms.now)) found.old
        ++ chain_heard (vocabulary telling.now.terms.now) (texts telling.now.sources.now)
        (map (λ (soft : Soft). soft.name) softs.now) (map seen_soft scenes.now)) }
{
    for place in 0..scenes.len() {
        push_next(telling, softs[place].name, &scenes[place], found)?;
    }
    Ok(())
}

/// Puts behind those found that an instance of a preference is settled next.
fn push_next(
    telling: &Telling<'_>,
    name: Option<u32>,
    instance: &InstanceScene<'_>,
    found: &mut List<Unnumbered>,
) -> Result<(), NoMemory>
    ensures { OnOk result (map (heard (vocabulary telling.now.terms.now)) found.new
        ≡ map (heard (vocabulary telling.now.terms.now)) found.old
        ++ next_heard (vocabulary telling.now.terms.now) (texts telling.now.sources.now) name
        (seen_soft instance.now) ∷ []) }
{
    let item = next_of(telling, name, instance)?;
    found.push(item)?;
    Ok(())
}

/// Tells in which order the instances of preferences are settled, and behind them that all are.
pub(crate) fn chain(
    telling: &Telling<'_>,
    softs: &[GroundSoft],
    scenes: &[InstanceScene<'_>],
) -> Result<List<Unnumbered>, NoMemory>
    requires { length softs.now ≡ length scenes.now }
    ensures { IfOk result (λ found. map (heard (vocabulary telling.now.terms.now)) found
        ≡ chain_heard (vocabulary telling.now.terms.now) (texts telling.now.sources.now)
        (map (λ (soft : Soft). soft.name) softs.now) (map seen_soft scenes.now)
        ++ all_settled ∷ []) }
{
    let mut found = List::new(telling.alloc);
    push_instances(telling, softs, scenes, &mut found)?;
    found.push(Unnumbered {
        spot: None,
        of: Meant::Chain(Settling::Done),
    })?;
    Ok(found)
}
