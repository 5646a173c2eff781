//! Variables in scope that mean objects, pair by pair.

ghost use Rattle.std.specs.Prelude.{◌≡◌, IfOk};
ghost use Rattle.p3_scenes.specs.Lent.{lent_words};
ghost use Rattle.p3_unmet.specs.Bindings.{paired_with};

use p3_accounts::Binding;
use p3_base::{List, Name, NoMemory};
use p3_scenes::Bindings;
use std::alloc::Global;

/// Gives each variable with the number of its object, the outermost first.
///
/// # Errors
///
/// Want of memory.
pub fn bindings_of(alloc: Global, bindings: &Bindings<'_>) -> Result<List<Binding>, NoMemory>
    ensures { IfOk result (λ list. list
        ≡ paired_with (lent_words bindings.now.variables) bindings.now.objects) }
{
    let (variables, objects) = (bindings.variables.items(), bindings.objects.items());
    let mut list = List::new(alloc);
    for place in 0..variables.len().min(objects.len()) {
        list.push(binding(alloc, variables[place], objects[place])?)?;
    }
    Ok(list)
}

/// Makes a variable mean an object.
fn binding(alloc: Global, variable: &Name, object: u32) -> Result<Binding, NoMemory>
    ensures { IfOk result
        (λ binding. binding ≡ record { variable = variable.now; object = object }) }
{
    let variable = Name::of(alloc, variable.bytes())?;
    Ok(Binding { variable, object })
}
