//! The names of the types that a task declares.

ghost use Rattle.std.specs.Prelude.{[], flat_map, OnOk, IfOk};
ghost use Rattle.p3_task.specs.Offences.{declared_types, kind_names};
ghost use Rattle.p3_numbers.specs.Names.{Adds};
ghost use Rattle.p3_resolve.specs.Tables.{name_of_word};

use p3_base::{Name, NoMemory};
use p3_numbers::{Names, kind_digest};
use p3_task::{Kind, Ref, Task};
use std::alloc::Global;

/// A name more, where there is one.
#[tactic(auto, using(p3_numbers::proofs::NameLemmas::adds_laws))]
fn add_name(alloc: Global, names: &mut Names, word: &Option<Ref>) -> Result<(), NoMemory>
    ensures { OnOk result (Adds names.old (name_of_word word.now) names.new) }
{
    match word {
        None => Ok(()),
        Some(word) => {
            names.add(alloc, &word.name)?;
            Ok(())
        }
    }
}

/// The names of a declared type more.
#[tactic(auto, using(crate::proofs::TableLemmas::table_laws))]
fn add_kind(alloc: Global, names: &mut Names, kind: &Kind) -> Result<(), NoMemory>
    ensures { OnOk result (Adds names.old (kind_names kind.now) names.new) }
{
    names.add(alloc, &kind.name.name)?;
    add_name(alloc, names, &kind.parent)?;
    Ok(())
}

/// The names of declared types more.
#[tactic(auto, using(p3_numbers::proofs::NameLemmas::adds_laws))]
fn add_kinds(alloc: Global, names: &mut Names, kinds: &[Kind]) -> Result<(), NoMemory>
    ensures { OnOk result (Adds names.old (flat_map kind_names kinds.now) names.new) }
{
    for kind in kinds {
        add_kind(alloc, names, kind)?;
    }
    Ok(())
}

/// The names of the types.
#[tactic(auto, using(crate::proofs::TableLemmas::table_laws))]
pub(crate) fn type_table(alloc: Global, task: &Task) -> Result<Names, NoMemory>
    ensures { IfOk result (λ table. Adds [] (declared_types task.now) table) }
{
    let key = kind_digest(task.domain.kinds.items()).key();
    let mut types = Names::new(alloc, key);
    let object = Name::of(alloc, b"object".as_slice())?;
    types.add(alloc, &object)?;
    add_kinds(alloc, &mut types, task.domain.kinds.items())?;
    Ok(types)
}
