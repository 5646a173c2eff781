//! The declarations of names that are repeated more than a few times.

ghost use Rattle.std.specs.Prelude.{◌≡◌, ◌<◌, ◌∷◌, [], map, flat_map, length, All, IfOk};
ghost use Rattle.p3_numbers.specs.Names.{Adds};
ghost use Rattle.p3_resolve.specs.Fitting.{AreInPlace, AreNamesFitting, name_in};

use p3_base::{Name, NoMemory};
use p3_hierarchy::{Below, Declaration, Declarations};
use p3_numbers::{Key, Names, item_key};
use p3_task::Typed;
use std::alloc::Global;

/// Each declaration with its place as its number.
fn in_place<'t>(alloc: Global, items: &[&'t Typed]) -> Result<Vec<Declaration<'t>>, NoMemory>
    ensures declared { IfOk result (λ entries.
        map (λ entry. entry.declared.now) entries.items ≡ map (λ item. item.now) items.now) }
    ensures numbers { IfOk result (λ entries. AreInPlace entries.items) }
{
    let mut entries = Vec::new(alloc);
    for item in items {
        let number = entries.len();
        entries.push(Declaration {
            declared: *item,
            number,
        })?;
    }
    Ok(entries)
}

/// The declarations of names that are repeated more than a few times, by their types.
#[derive(Drop)]
pub(crate) struct Repeated<'t> {
    declarations: Declarations<'t>,
    /// The key of their names.
    key: Key,
    ghost in_place: { AreInPlace declarations.entries.items },
}

impl<'t> Repeated<'t> {
    /// These declarations.
    pub(crate) fn of(alloc: Global, items: &[&'t Typed]) -> Result<Repeated<'t>, NoMemory>
        ensures { IfOk result (λ repeated.
            map (λ entry. entry.declared.now) repeated.declarations.entries.items
            ≡ map (λ item. item.now) items.now) }
    {
        let entries = in_place(alloc, items)?;
        let declarations = Declarations::of(alloc, entries)?;
        Ok(Repeated {
            declarations,
            key: item_key(items),
        })
    }

    /// The name of the declaration at a place.
    fn name_at(&self, place: usize) -> &'t Name
        requires { place < length self.now.declarations.entries.items }
        ensures { result.now ≡ name_in self.now.declarations.entries.items place }
    {
        let entries = self.declarations.items();
        let entry = entries[place];
        &entry.declared.name.name
    }

    /// The names of the declarations at these places.
    #[tactic(auto, using(p3_numbers::proofs::NameLemmas::adds_laws))]
    fn named(&self, alloc: Global, places: &[usize]) -> Result<Names, NoMemory>
        requires { All (λ place. place < length self.now.declarations.entries.items) places.now }
        ensures { IfOk result (λ names. Adds [] (flat_map
            (λ place. name_in self.now.declarations.entries.items place ∷ []) places.now) names) }
    {
        let mut names = Names::new(alloc, self.key);
        for place in places {
            names.add(alloc, self.name_at(*place))?;
        }
        Ok(names)
    }

    /// The names of those that fit.
    pub(crate) fn fitting(&self, alloc: Global, below: &Below<'t>) -> Result<Names, NoMemory>
        ensures { IfOk result (λ names. AreNamesFitting below.now.task.now below.now.types.now
            (map (λ entry. entry.declared.now) self.now.declarations.entries.items) names) }
    {
        let numbers = below.numbers(alloc, &self.declarations)?;
        let names = self.named(alloc, &numbers)?;
        Ok(names)
    }
}
