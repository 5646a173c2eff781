//! The marks of the operators of a group.

ghost use Rattle.std.specs.Prelude.{◌≡◌, ◌<◌, length, map, IfOk, ◌∷◌, []};
ghost use Rattle.p3_formula.specs.Modals.{IsModalBelow};
ghost use Rattle.p3_marks.specs.Marked.{begun, place_in, renewed};
ghost use Rattle.p3_run.specs.Groups.{AreModalsBelow};

use crate::mark::{Mark, next_mark, no_mark};
use p3_base::NoMemory;
use p3_formula::{Bits, GroundModal};
use std::alloc::Global;
use std::marker::Model;

/// The marks of the hard constraints, or those of an instance of a preference. Contracts see their
/// list.
#[derive(Drop)]
pub(crate) struct Group {
    marks: Vec<Mark>,
}

impl Model for Group {
    ghost use Rattle.std.specs.Prelude.{List};
    ghost use Rattle.p3_marks.specs.declared.mark.Mark.{Mark as Kept};

    ghost Value = { List Kept };

    ghost view = { λ group. group.marks.items };
}

impl Group {
    /// The marks of the operators in the first state.
    pub(crate) fn begin(
        alloc: Global,
        modals: &[GroundModal],
        state: &Bits,
    ) -> Result<Group, NoMemory>
        requires { AreModalsBelow (length state.now) modals.now }
        ensures { IfOk result (λ group. group ≡ map (begun state.now) modals.now) }
    {
        let mut marks = Vec::new(alloc);
        for modal in modals {
            marks.push(next_mark(modal, state, 0, no_mark()))?;
        }
        Ok(Group { marks })
    }

    /// The mark at a place.
    pub(crate) fn at(&self, place: usize) -> Mark
        requires { place < length self.now }
        ensures { result ≡ place_in self.now place }
    {
        self.marks[place]
    }

    /// The operator at the place is in one state more, at the next place.
    pub(crate) fn renew(&mut self, place: usize, modal: &GroundModal, state: &Bits, next: u32)
        requires within { place < length self.old }
        requires below { IsModalBelow (length state.now) modal.now }
        ensures { self.new ≡ renewed next state.now modal.now self.old place }
    {
        let mark = self.marks[place];
        self.marks[place] = next_mark(modal, state, next, mark);
    }
}
