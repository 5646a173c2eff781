//! The atoms of a written task that watch operators of constraints and preferences.

ghost use Rattle.std.specs.Prelude.{◌≡◌, ◌++◌, OnOk, length, map, option_map, unwrap_or};
ghost use Rattle.p3_formula.specs.declared.modal.GroundSoft.{GroundSoft as Soft};
ghost use Rattle.p3_scenes.specs.Seen.{seen, seen_soft};
ghost use Rattle.p3_accounts.specs.Vocabularies.{vocabulary};
ghost use Rattle.p3_unmet.specs.Sources.{spot_of, texts};
ghost use Rattle.p3_meanings.specs.Heard.{
  constraint_heard,
  hard_heard,
  heard,
  instance_heard,
  part_heard,
  soft_heard,
};

use crate::telling::Telling;
use crate::unnumbered::Unnumbered;
use crate::watch::{Watched, push_watches};
use p3_accounts::Spot;
use p3_base::{List, NoMemory, as_number};
use p3_formula::GroundSoft;
use p3_scenes::{InstanceScene, OperatorScene};

/// Finds where a hard operator stands, where that is known.
fn spot_of_scene(telling: &Telling<'_>, scene: &OperatorScene<'_>) -> Option<Spot>
    ensures { result ≡ option_map (spot_of (texts telling.now.sources.now) scene.now.role)
        scene.now.word }
{
    match scene.word {
        Some(word) => Some(telling.sources.spot(scene.role, word)),
        None => None,
    }
}

/// Puts the atoms that watch hard operators behind those found.
pub(crate) fn push_hard(
    telling: &Telling<'_>,
    scenes: &[OperatorScene<'_>],
    found: &mut List<Unnumbered>,
) -> Result<(), NoMemory>
    ensures { OnOk result (map (heard (vocabulary telling.now.terms.now)) found.new
        ≡ map (heard (vocabulary telling.now.terms.now)) found.old
        ++ hard_heard (vocabulary telling.now.terms.now) (texts telling.now.sources.now) 0
        (map seen scenes.now)) }
{
    for place in 0..scenes.len() {
        push_constraint(telling, place, &scenes[place], found)?;
    }
    Ok(())
}

/// Puts the atoms that watch the hard operator of a number behind those found.
fn push_constraint(
    telling: &Telling<'_>,
    number: usize,
    scene: &OperatorScene<'_>,
    found: &mut List<Unnumbered>,
) -> Result<(), NoMemory>
    ensures { OnOk result (map (heard (vocabulary telling.now.terms.now)) found.new
        ≡ map (heard (vocabulary telling.now.terms.now)) found.old
        ++ constraint_heard (vocabulary telling.now.terms.now) (texts telling.now.sources.now)
        number (seen scene.now)) }
{
    let number = as_number(number)?;
    let spot = spot_of_scene(telling, scene);
    push_watches(telling, Watched::Constraint(number), spot, scene, found)
}

/// Finds where an operator of a preference stands: its first word, or else the preference.
fn spot_of_part(
    telling: &Telling<'_>,
    instance: &InstanceScene<'_>,
    scene: &OperatorScene<'_>,
) -> Spot
    ensures { result ≡ spot_of (texts telling.now.sources.now) instance.now.role
        (unwrap_or scene.now.word instance.now.at) }
{
    match scene.word {
        Some(word) => telling.sources.spot(instance.role, word),
        None => telling.sources.spot(instance.role, instance.at),
    }
}

/// Puts the atoms that watch an operator of a preference behind those found.
fn push_part(
    telling: &Telling<'_>,
    name: Option<u32>,
    instance: &InstanceScene<'_>,
    scene: &OperatorScene<'_>,
    found: &mut List<Unnumbered>,
) -> Result<(), NoMemory>
    ensures { OnOk result (map (heard (vocabulary telling.now.terms.now)) found.new
        ≡ map (heard (vocabulary telling.now.terms.now)) found.old
        ++ part_heard (vocabulary telling.now.terms.now) (texts telling.now.sources.now) name
        (seen_soft instance.now) (seen scene.now)) }
{
    let spot = Some(spot_of_part(telling, instance, scene));
    push_watches(telling, Watched::Preference(name), spot, scene, found)
}

/// Puts the atoms that watch the operators of a preference behind those found.
fn push_instance(
    telling: &Telling<'_>,
    name: Option<u32>,
    instance: &InstanceScene<'_>,
    found: &mut List<Unnumbered>,
) -> Result<(), NoMemory>
    ensures { OnOk result (map (heard (vocabulary telling.now.terms.now)) found.new
        ≡ map (heard (vocabulary telling.now.terms.now)) found.old
        ++ instance_heard (vocabulary telling.now.terms.now) (texts telling.now.sources.now) name
        (seen_soft instance.now)) }
{
    let scenes = instance.operators.items();
    for place in 0..scenes.len() {
        push_part(telling, name, instance, &scenes[place], found)?;
    }
    Ok(())
}

/// Puts the atoms that watch the operators of preferences behind those found.
pub(crate) fn push_soft(
    telling: &Telling<'_>,
    softs: &[GroundSoft],
    scenes: &[InstanceScene<'_>],
    found: &mut List<Unnumbered>,
) -> Result<(), NoMemory>
    requires { length softs.now ≡ length scenes.now }
    ensures { OnOk result (map (heard (vocabulary telling.now.terms.now)) found.new
        ≡ map (heard (vocabulary telling.now.terms.now)) found.old
        ++ soft_heard (vocabulary telling.now.terms.now) (texts telling.now.sources.now)
        (map (λ (soft : Soft). soft.name) softs.now) (map seen_soft scenes.now)) }
{
    for place in 0..scenes.len() {
        push_instance(telling, softs[place].name, &scenes[place], found)?;
    }
    Ok(())
}
