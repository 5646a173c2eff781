//! What no step changes.

ghost use Rattle.std.specs.Prelude.{◌≡◌, length, nat_lt, IfOk};
ghost use Rattle.std.specs.List.{list_all};
ghost use Rattle.p3_expansion.specs.NextStates.{TellStaticsOf};
ghost use Rattle.p3_expansion.specs.Statics.{
  AreStatics,
  is_decided as decided_by,
  is_static as unchanged,
};

use crate::Atoms;
use crate::changed::changed_bits;
use crate::start::start_atoms;
use p3_base::NoMemory;
use p3_formula::Bits;
use p3_numbers::{NumberedTask, Numbers};
use std::alloc::Global;

/// Which predicates effects name, and the atoms that hold at the start.
#[derive(Drop)]
pub struct Statics {
    /// Whether some effect names the predicate.
    pub changed: Bits,
    /// The atoms that hold at the start.
    pub facts: Atoms,
}

impl Statics {
    /// What no step of a task changes.
    pub fn of(alloc: Global, task: &NumberedTask) -> Result<Statics, NoMemory>
        ensures are { IfOk result (λ statics. AreStatics task.now statics) }
        ensures tell { IfOk result (TellStaticsOf task.now) }
    {
        let changed = changed_bits(alloc, task)?;
        let facts = start_atoms(alloc, task)?;
        Ok(Statics { changed, facts })
    }

    /// Whether the predicate has a name and no effect names it.
    fn is_static(&self, predicate: u32) -> bool
        ensures { result ≡ unchanged self.now predicate }
    {
        let place = predicate as usize;
        if place >= self.changed.count() {
            return false;
        }
        !self.changed.get(place)
    }

    /// Whether no step changes the atom, whose objects have names.
    pub fn is_decided(&self, numbers: &Numbers, atom: &[u32]) -> bool
        ensures { result ≡ decided_by numbers.now self.now atom.now }
    {
        match atom {
            [] => false,
            [predicate, objects @ ..] => self.is_static(*predicate) && are_named(numbers, objects),
        }
    }
}

/// Whether the object has a name.
fn is_named(numbers: &Numbers, object: u32) -> bool
    ensures { result ≡ nat_lt object (length numbers.now.objects) }
{
    (object as usize) < numbers.objects.len()
}

/// Whether each of the objects has a name.
fn are_named(numbers: &Numbers, objects: &[u32]) -> bool
    ensures { result ≡ list_all (λ object. nat_lt object (length numbers.now.objects)) objects.now }
{
    objects.iter().all(|object| is_named(numbers, *object))
}
