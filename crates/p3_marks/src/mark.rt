//! What is kept of the visited states for one operator.

ghost use Rattle.std.specs.Prelude.{◌≡◌, ◌-◌, ◌≤◌, length};
ghost use Rattle.p3_formula.specs.Modals.{IsModalBelow};
ghost use Rattle.p3_marks.specs.Marks as kept;

use p3_base::Showing;
use p3_formula::{Bits, Form, GroundModal, eval};

/// What is kept of the states visited so far for one operator: the least places that show whether
/// it is satisfied. What its kind does not need stays false, or none.
#[derive(Clone, Copy, Debug, Drop)]
pub struct Mark {
    /// Whether the formula that is to hold at the end holds in the last state, or whether the one
    /// that is to come first has held.
    pub(crate) holds: bool,
    /// The first place that shows it.
    pub(crate) first: Option<u32>,
    /// The first place behind that one where the formula that is to hold once at most does not.
    pub(crate) gap: Option<u32>,
    /// The first place behind that one where it holds again.
    pub(crate) again: Option<u32>,
}

/// The mark before any state.
pub(crate) fn no_mark() -> Mark
    ensures { result ≡ kept.no_mark }
{
    holding(false)
}

/// A mark without a place.
fn holding(holds: bool) -> Mark
    ensures { result ≡ kept.holding holds }
{
    Mark {
        holds,
        first: None,
        gap: None,
        again: None,
    }
}

/// A mark of which nothing but one place matters.
fn placed(first: Option<u32>) -> Mark
    ensures { result ≡ kept.placed first }
{
    Mark {
        holds: false,
        first,
        gap: None,
        again: None,
    }
}

/// The place that is kept, or else the next one where it passes.
fn noted(place: Option<u32>, next: u32, passes: bool) -> Option<u32>
    ensures { result ≡ kept.noted place next passes }
{
    match place {
        Some(_) => place,
        None if passes => Some(next),
        None => None,
    }
}

/// One state more, at the next place.
pub(crate) fn next_mark(modal: &GroundModal, state: &Bits, next: u32, mark: Mark) -> Mark
    requires { IsModalBelow (length state.now) modal.now }
    ensures { result ≡ kept.next_mark next state.now modal.now mark }
{
    match modal {
        GroundModal::AtEnd(form) => holding(eval(form, state)),
        GroundModal::Always(form) => placed(noted(mark.first, next, !eval(form, state))),
        GroundModal::Sometime(form) => placed(noted(mark.first, next, eval(form, state))),
        GroundModal::AtMostOnce(form) => next_once(eval(form, state), next, mark),
        GroundModal::SometimeAfter(first, second) => next_after(
            eval(first, state),
            eval(second, state),
            next,
            mark,
        ),
        GroundModal::SometimeBefore(first, second) => next_before(
            eval(first, state),
            eval(second, state),
            next,
            mark,
        ),
    }
}

/// A formula that is to hold once at most does so, or does not, in one state more.
fn next_once(holds: bool, next: u32, mark: Mark) -> Mark
    ensures { result ≡ kept.next_once next holds mark }
{
    Mark {
        holds: false,
        first: noted(mark.first, next, holds),
        gap: noted(mark.gap, next, mark.first.is_some() && !holds),
        again: noted(mark.again, next, mark.gap.is_some() && holds),
    }
}

/// A formula that wants another with it or behind it, and that other, in one state more.
fn next_after(holds: bool, other: bool, next: u32, mark: Mark) -> Mark
    ensures { result ≡ kept.next_after next holds other mark }
{
    placed(if other {
        None
    } else {
        noted(mark.first, next, holds)
    })
}

/// A formula that wants another before it, and that other, in one state more.
fn next_before(holds: bool, other: bool, next: u32, mark: Mark) -> Mark
    ensures { result ≡ kept.next_before next holds other mark }
{
    Mark {
        holds: mark.holds || other,
        first: noted(mark.first, next, holds && !mark.holds),
        gap: None,
        again: None,
    }
}

/// What the mark shows of so many states.
pub(crate) fn shown_by(count: u32, modal: &GroundModal, mark: Mark) -> Showing
    requires { 1 ≤ count }
    ensures { result ≡ kept.shown_by count modal.now mark }
{
    match modal {
        GroundModal::AtEnd(_) => at_last(count, mark.holds),
        GroundModal::Sometime(_) => found(mark.first),
        GroundModal::AtMostOnce(_) => returned(mark),
        GroundModal::Always(_)
        | GroundModal::SometimeAfter(_, _)
        | GroundModal::SometimeBefore(_, _) => failing(mark.first),
    }
}

/// It is shown by the last of so many states.
fn at_last(count: u32, holds: bool) -> Showing
    requires { 1 ≤ count }
    ensures { result ≡ kept.at_last count holds }
{
    if holds {
        Showing::HoldsAt(count - 1)
    } else {
        Showing::FailsAt(count - 1)
    }
}

/// It is satisfied, or fails at the place.
fn failing(place: Option<u32>) -> Showing
    ensures { result ≡ kept.failing place }
{
    match place {
        Some(place) => Showing::FailsAt(place),
        None => Showing::Holds,
    }
}

/// It holds at the place, or nowhere.
fn found(place: Option<u32>) -> Showing
    ensures { result ≡ kept.found place }
{
    match place {
        Some(place) => Showing::HoldsAt(place),
        None => Showing::HoldsNowhere,
    }
}

/// It is satisfied, or holds again behind a gap.
fn returned(mark: Mark) -> Showing
    ensures { result ≡ kept.returned mark.first mark.gap mark.again }
{
    match (mark.first, mark.gap, mark.again) {
        (Some(first), Some(gap), Some(again)) => Showing::Again { first, gap, again },
        _ => Showing::Holds,
    }
}
