//! Variables in scope, and the objects that they mean.

ghost use Rattle.std.specs.Prelude.{◌≡◌, ◌++◌, IfOk};
ghost use Rattle.p3_task.specs.Slots.{words_of};
ghost use Rattle.p3_scenes.specs.Lent.{lent_words};

use p3_base::{List, Name, NoMemory};
use p3_task::Typed;
use std::alloc::Global;

/// Variables in scope, and the objects that they mean.
#[derive(Drop)]
pub struct Bindings<'t> {
    /// The variables, the outermost first.
    pub variables: List<&'t Name>,
    /// The numbers of their objects.
    pub objects: List<u32>,
}

/// The variables in scope, and those of a list behind them.
pub(crate) fn scope_with<'t>(
    alloc: Global,
    scope: &[&'t Name],
    variables: &'t [Typed],
) -> Result<Vec<&'t Name>, NoMemory>
    ensures { IfOk result (λ inner. lent_words inner.items
        ≡ lent_words scope.now ++ words_of variables.now) }
{
    let mut inner = Vec::from_slice(alloc, scope)?;
    for variable in variables {
        inner.push(&variable.name.name)?;
    }
    Ok(inner)
}

impl<'t> Bindings<'t> {
    /// The variables and the objects.
    pub(crate) fn of(
        alloc: Global,
        scope: &[&'t Name],
        slots: &[u32],
    ) -> Result<Bindings<'t>, NoMemory>
        ensures variables { IfOk result (λ bindings. bindings.variables ≡ scope.now) }
        ensures objects { IfOk result (λ bindings. bindings.objects ≡ slots.now) }
    {
        let variables = List::from(Vec::from_slice(alloc, scope)?);
        let objects = List::from(Vec::from_slice(alloc, slots)?);
        Ok(Bindings { variables, objects })
    }

    /// The same once more.
    pub(crate) fn copied(&self, alloc: Global) -> Result<Bindings<'t>, NoMemory>
        ensures variables { IfOk result (λ bindings. bindings.variables ≡ self.now.variables) }
        ensures objects { IfOk result (λ bindings. bindings.objects ≡ self.now.objects) }
    {
        Bindings::of(alloc, self.variables.items(), self.objects.items())
    }
}
