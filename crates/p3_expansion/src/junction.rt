//! Parts that are joined.

ghost use Rattle.std.specs.Prelude.{◌≡◌, true, false, [], OnOk, IfOk, IsTrue};
ghost use Rattle.p3_formula.specs.Tidy.{is_tidy};
ghost use Rattle.p3_expansion.specs.Expansions.{IsJoined, IsSound, junction_form};

use crate::form::{constant, is_value, joined};
use p3_base::{List, NoMemory};
use p3_formula::Form;
use std::alloc::Global;

/// Parts, all of which hold or else some of which does.
#[derive(Drop)]
pub(crate) struct Junction {
    /// Whether all hold.
    pub(crate) every: bool,
    /// The parts that are no constants.
    pub(crate) parts: List<Form>,
    /// Whether a part has decided it.
    pub(crate) is_cut: bool,
}

impl Junction {
    /// No part.
    pub(crate) fn new(alloc: Global, every: bool) -> Junction
        ensures every { result.every ≡ every }
        ensures parts { result.parts ≡ [] }
        ensures cut { result.is_cut ≡ false }
    {
        Junction {
            every,
            parts: List::new(alloc),
            is_cut: false,
        }
    }

    /// No part, with room for so many.
    pub(crate) fn with_room(alloc: Global, every: bool, room: usize) -> Result<Junction, NoMemory>
        ensures every { IfOk result (λ junction. junction.every ≡ every) }
        ensures parts { IfOk result (λ junction. junction.parts ≡ []) }
        ensures cut { IfOk result (λ junction. junction.is_cut ≡ false) }
    {
        let parts = List::from(Vec::with_capacity(alloc, room)?);
        Ok(Junction {
            every,
            parts,
            is_cut: false,
        })
    }

    /// Takes one part more.
    pub(crate) fn take(&mut self, part: Form) -> Result<(), NoMemory>
        requires tidy { IsTrue (is_tidy part) }
        requires sound { IsSound self.old }
        ensures every { OnOk result (self.new.every ≡ self.old.every) }
        ensures sound { OnOk result (IsSound self.new) }
        ensures joined { OnOk result
            (IsJoined self.old.every (junction_form self.old) part (junction_form self.new)) }
    {
        if is_value(&part, self.every) {
            return Ok(());
        }
        if is_value(&part, !self.every) {
            self.is_cut = true;
            return Ok(());
        }
        self.parts.push(part)?;
        Ok(())
    }

    /// The form of the parts.
    pub(crate) fn finish(self) -> Form
        ensures { result ≡ junction_form self }
    {
        let Junction {
            every,
            parts,
            is_cut,
        } = self;
        if is_cut {
            return constant(!every);
        }
        joined(parts, every)
    }
}

/// A form that holds where both do, or else one of them.
fn pair(alloc: Global, every: bool, first: Form, second: Form) -> Result<Form, NoMemory>
    requires first { IsTrue (is_tidy first) }
    requires second { IsTrue (is_tidy second) }
    ensures joined { IfOk result (IsJoined every first second) }
    ensures tidy { IfOk result (λ form. IsTrue (is_tidy form)) }
{
    if is_value(&first, every) {
        return Ok(second);
    }
    let mut gathered = Junction::with_room(alloc, every, 2)?;
    gathered.take(first)?;
    gathered.take(second)?;
    Ok(gathered.finish())
}

/// A form that holds where one of the two does.
pub(crate) fn either(alloc: Global, first: Form, second: Form) -> Result<Form, NoMemory>
    requires first { IsTrue (is_tidy first) }
    requires second { IsTrue (is_tidy second) }
    ensures joined { IfOk result (IsJoined false first second) }
    ensures tidy { IfOk result (λ form. IsTrue (is_tidy form)) }
{
    let form = pair(alloc, false, first, second)?;
    Ok(form)
}

/// A form that holds where both do.
pub(crate) fn both(alloc: Global, first: Form, second: Form) -> Result<Form, NoMemory>
    requires first { IsTrue (is_tidy first) }
    requires second { IsTrue (is_tidy second) }
    ensures joined { IfOk result (IsJoined true first second) }
    ensures tidy { IfOk result (λ form. IsTrue (is_tidy form)) }
{
    let form = pair(alloc, true, first, second)?;
    Ok(form)
}
