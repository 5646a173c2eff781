//! The numbers of the names of preferences.

ghost use Rattle.std.specs.Prelude.{◌≡◌, [], IfOk};
ghost use Rattle.p3_numbers.specs.Names.{with_names};
ghost use Rattle.p3_scenes.specs.Lent.{lent_name};
ghost use Rattle.p3_unmet.specs.Stages.{number_in};

use p3_base::{Name, NoMemory, as_number};
use p3_numbers::{Names, Numbers, listed_key};
use std::alloc::Global;

/// Makes a table of the names of preferences.
pub(crate) fn preference_names(alloc: Global, numbers: &Numbers) -> Result<Names, NoMemory>
    ensures { IfOk result (λ names. names ≡ with_names [] numbers.now.preferences) }
{
    let listed = numbers.preferences.items();
    let mut names = Names::new(alloc, listed_key(listed));
    for name in listed {
        names.add(alloc, name)?;
    }
    Ok(names)
}

/// Gives the number of a name, where there is one.
pub(crate) fn number_of(names: &Names, name: Option<&Name>) -> Result<Option<u32>, NoMemory>
    ensures { IfOk result (λ number. number ≡ number_in names.now (lent_name name.entry)) }
{
    let Some(name) = name else {
        return Ok(None);
    };
    match names.number_of(name) {
        Some(number) => Ok(Some(as_number(number)?)),
        None => Ok(None),
    }
}
