//! Answers that are taken one by one.

ghost use Rattle.std.specs.Prelude.{◌≡◌, drop, slice_get};

use p3_base::List;
use p3_reasons::Decision;
use std::marker::Model;
use std::vec::IntoIter;

/// The answers that are not taken yet, in order.
#[derive(Drop)]
pub(crate) struct Untaken {
    rest: IntoIter<Decision>,
}

impl Model for Untaken {
    ghost use Rattle.std.specs.Prelude.{List};
    ghost use Rattle.std.specs.Vec.Iter.{into_iter_items};
    ghost use Rattle.p3_reasons.specs.declared.decision.Decision.{Decision};

    ghost Value = { List Decision };

    ghost view = { λ untaken. into_iter_items untaken.rest };
}

impl Untaken {
    /// Takes none of them yet.
    pub(crate) fn of(answers: List<Decision>) -> Untaken
        ensures { result ≡ answers }
    {
        Untaken {
            rest: answers.into_items().into_iter(),
        }
    }

    /// Takes the next one.
    pub(crate) fn next(&mut self) -> Option<Decision>
        ensures value { result ≡ slice_get self.old 0 }
        ensures left { self.new ≡ drop 1 self.old }
    {
        self.rest.next()
    }
}
