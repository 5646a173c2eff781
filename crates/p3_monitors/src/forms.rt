//! The parts of the forms of a constraint by the atoms that they read.

ghost use Rattle.std.specs.Prelude.{IfOk};
ghost use Rattle.p3_formula.specs.GroundModal.{GroundModal};
ghost use Rattle.p3_monitors.specs.FormIndex.{IndexesForms};

use p3_base::NoMemory;
use p3_formula::GroundModal;
use p3_regress::PartsByAtom;
use std::alloc::Global;

/// The parts of the first form and of the second by the atoms that they read, so that a step which
/// touches some of them need not look at all. Of a form with few parts nothing is listed.
#[derive(Drop)]
pub struct FormsByAtom {
    /// Those of the first form.
    pub first: PartsByAtom,
    /// Those of the second, where there is one.
    pub second: PartsByAtom,
}

impl FormsByAtom {
    /// Nothing is listed. It takes no memory.
    #[tactic(auto, using(crate::proofs::FormIndexLaws::none_indexed))]
    pub(crate) fn none(alloc: Global) -> FormsByAtom
        ensures { (modal : GroundModal) → IndexesForms modal result }
    {
        FormsByAtom {
            first: PartsByAtom::none(alloc),
            second: PartsByAtom::none(alloc),
        }
    }

    /// The parts of the forms of the constraint. Where only the last state counts, nothing is
    /// listed.
    pub(crate) fn of(alloc: Global, modal: &GroundModal) -> Result<FormsByAtom, NoMemory>
        ensures { IfOk result (IndexesForms modal.now) }
    {
        match modal {
            GroundModal::AtEnd(_) => Ok(FormsByAtom::none(alloc)),
            GroundModal::Always(form)
            | GroundModal::Sometime(form)
            | GroundModal::AtMostOnce(form) => {
                let first = PartsByAtom::of(alloc, form)?;
                let second = PartsByAtom::none(alloc);
                Ok(FormsByAtom { first, second })
            }
            GroundModal::SometimeAfter(first, second)
            | GroundModal::SometimeBefore(first, second) => {
                let first = PartsByAtom::of(alloc, first)?;
                let second = PartsByAtom::of(alloc, second)?;
                Ok(FormsByAtom { first, second })
            }
        }
    }
}
