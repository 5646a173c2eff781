//! What is found where names are declared.

ghost use Rattle.std.specs.Prelude.{◌≡◌, [], ◌∷◌, not, map, fold, flat_map, IfOk, OnOk};
ghost use Rattle.p3_task.specs.Names.{has_name};
ghost use Rattle.p3_task.specs.Offences.{repeated, unknown_types};
ghost use Rattle.p3_task.specs.Offences.{unless as unless_passing, declared_types};
ghost use Rattle.p3_task.specs.Uses.{Objects, Variables};
ghost use Rattle.p3_numbers.specs.Names.{Adds};
ghost use Rattle.p3_resolve.specs.Spots.{step, use_step};

use crate::spot::{FirstOffences, Spot, unless};
use crate::tables::Tables;
use crate::worded::{Worded, word_key};
use p3_base::NoMemory;
use p3_numbers::Names;
use p3_task::{Ref, Typed};
use std::alloc::Global;

/// The first unknown type of a list.
#[tactic(auto, using(crate::proofs::WalkLemmas::walk_laws))]
fn kinds_unknown(found: Option<Spot>, tables: &Tables, kinds: &[Ref]) -> Option<Spot>
    ensures { result
        ≡ fold step found
        (flat_map
        (λ kind. unless_passing (has_name (declared_types tables.now.task.now) kind.name) kind)
        kinds.now) }
{
    let mut least = found;
    for kind in kinds {
        least = unless(least, tables.is_type(&kind.name), kind);
    }
    least
}

/// The first unknown type of variables or objects.
#[tactic(auto, using(crate::proofs::WalkLemmas::walk_laws))]
fn types_unknown(found: Option<Spot>, tables: &Tables, items: &[Typed]) -> Option<Spot>
    ensures { result ≡ fold step found (unknown_types tables.now.task.now items.now) }
{
    let mut least = found;
    for item in items {
        least = kinds_unknown(least, tables, item.types.items());
    }
    least
}

/// A word whose name was seen; it is among those seen from then on.
fn word_noted(
    alloc: Global,
    found: Option<Spot>,
    seen: &mut Names,
    word: &Ref,
) -> Result<Option<Spot>, NoMemory>
    ensures least { IfOk result
        (λ least. least ≡ fold step found
        (unless_passing (not (has_name seen.old word.now.name)) word.now)) }
    ensures seen { OnOk result (Adds seen.old (word.now.name ∷ []) seen.new) }
{
    let is_seen = seen.has(word.name.bytes());
    seen.add(alloc, &word.name)?;
    Ok(unless(found, !is_seen, word))
}

/// The first word that stands a second time.
pub(crate) fn words_repeated<T: Worded>(
    alloc: Global,
    found: Option<Spot>,
    items: &[T],
) -> Result<Option<Spot>, NoMemory>
    ensures { IfOk result (λ least. least ≡ fold step found (repeated (map T.word_of items.now))) }
{
    let mut least = found;
    let mut seen = Names::new(alloc, word_key(items));
    for item in items {
        least = word_noted(alloc, least, &mut seen, item.word())?;
    }
    Ok(least)
}

/// Variables are declared.
pub(crate) fn variables_noted(
    alloc: Global,
    found: FirstOffences,
    tables: &Tables,
    variables: &[Typed],
) -> Result<FirstOffences, NoMemory>
    ensures { IfOk result
        (λ after. after ≡ use_step tables.now.task.now found (Variables variables.now)) }
{
    let duplicate = words_repeated(alloc, found.duplicate, variables)?;
    let unknown = types_unknown(found.unknown, tables, variables);
    Ok(FirstOffences {
        duplicate,
        unknown,
        miscount: found.miscount,
        clash: found.clash,
    })
}

/// Objects are declared.
pub(crate) fn objects_noted(
    found: FirstOffences,
    tables: &Tables,
    objects: &[Typed],
) -> FirstOffences
    ensures { result ≡ use_step tables.now.task.now found (Objects objects.now) }
{
    FirstOffences {
        duplicate: found.duplicate,
        unknown: types_unknown(found.unknown, tables, objects),
        miscount: found.miscount,
        clash: found.clash,
    }
}
