//! The lists of types that parameters have, by number.

ghost use Rattle.std.specs.Prelude.{◌≡◌, ◌==◌, [], ◌∷◌, ◌++◌, Some, map, length, if◌then◌else◌, slice_get, IfOk, OnOk};
ghost use Rattle.p3_numbers.specs.Names.{with_list};
ghost use Rattle.p3_task.specs.Types.{names_of};
ghost use Rattle.p3_resolve.specs.Numbers.{names_in, Keeps, AreNumbers, NumbersMore};

use p3_base::NoMemory;
use p3_numbers::TypeLists;
use p3_task::{Header, Ref, Typed};
use std::alloc::Global;

/// A list goes last where its number is the next.
fn add_at<'t>(lists: &mut Vec<&'t [Ref]>, number: usize, types: &'t [Ref]) -> Result<(), NoMemory>
    ensures { OnOk result (names_in lists.new.items
        ≡ (if number == length lists.old.items
        then names_in lists.old.items ++ names_of types.now ∷ []
        else names_in lists.old.items)) }
{
    if number == lists.len() {
        lists.push(types)?;
    }
    Ok(())
}

/// The number of a list, which goes last if it is new.
pub(crate) fn number_of<'t>(
    alloc: Global,
    keys: &mut TypeLists<'t>,
    lists: &mut Vec<&'t [Ref]>,
    types: &'t [Ref],
) -> Result<usize, NoMemory>
    requires { keys.old ≡ names_in lists.old.items }
    ensures same { OnOk result (keys.new ≡ names_in lists.new.items) }
    ensures lists { OnOk result (keys.new ≡ with_list keys.old (names_of types.now)) }
    ensures kept { OnOk result (Keeps keys.old keys.new) }
    ensures number { IfOk result
        (λ number. slice_get keys.new number ≡ Some (names_of types.now)) }
{
    let number = keys.number_of(alloc, types)?;
    add_at(lists, number, types)?;
    Ok(number)
}

/// The numbers of the lists of parameters.
fn numbers_of<'t>(
    alloc: Global,
    keys: &mut TypeLists<'t>,
    lists: &mut Vec<&'t [Ref]>,
    parameters: &'t [Typed],
) -> Result<Vec<usize>, NoMemory>
    requires { keys.old ≡ names_in lists.old.items }
    ensures same { OnOk result (keys.new ≡ names_in lists.new.items) }
    ensures kept { OnOk result (Keeps keys.old keys.new) }
    ensures numbers { IfOk result
        (λ numbers. AreNumbers keys.new numbers.items parameters.now) }
{
    let mut numbers = Vec::new(alloc);
    for parameter in parameters {
        let number = number_of(alloc, keys, lists, parameter.types.items())?;
        numbers.push(number)?;
    }
    Ok(numbers)
}

/// The parameters of headers get their numbers.
pub(crate) fn number_headers<'t>(
    alloc: Global,
    keys: &mut TypeLists<'t>,
    lists: &mut Vec<&'t [Ref]>,
    numbers: &mut Vec<Vec<usize>>,
    headers: &'t [Header],
) -> Result<(), NoMemory>
    requires { keys.old ≡ names_in lists.old.items }
    ensures same { OnOk result (keys.new ≡ names_in lists.new.items) }
    ensures numbers { OnOk result (NumbersMore headers.now
        keys.old
        (map (λ one. one.items) numbers.old.items)
        keys.new
        (map (λ one. one.items) numbers.new.items)) }
{
    for header in headers {
        let parameters = numbers_of(alloc, keys, lists, header.params.items())?;
        numbers.push(parameters)?;
    }
    Ok(())
}
