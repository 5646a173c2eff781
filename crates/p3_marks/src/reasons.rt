//! The reasons that marks show.

ghost use Rattle.std.specs.Prelude.{◌≡◌, ◌++◌, ◌≤◌, OnOk, length};
ghost use Rattle.p3_marks.specs.Marked.{shown_reasons, subject_by};

use crate::group::Group;
use crate::mark::shown_by;
use p3_base::{List, NoMemory, Reason, Subject, as_number};
use p3_formula::GroundModal;

/// Whose operators they are.
#[derive(Clone, Copy, Debug, Drop)]
pub(crate) enum Owner {
    /// The hard constraints, each of which is one operator.
    Hard,
    /// The instance of that number.
    Soft(u32),
}

/// What a reason of the operator of that number is of.
fn subject_of(owner: Owner, number: u32) -> Subject
    ensures { result ≡ subject_by owner number }
{
    match owner {
        Owner::Hard => Subject::Hard(number),
        Owner::Soft(instance) => Subject::Soft {
            instance,
            part: number,
        },
    }
}

/// Puts the reasons of the operators that their marks show of so many states.
pub(crate) fn push_reasons(
    reasons: &mut List<Reason>,
    owner: Owner,
    modals: &[GroundModal],
    group: &Group,
    count: u32,
) -> Result<(), NoMemory>
    requires some { 1 ≤ count }
    requires each { length group.now ≡ length modals.now }
    ensures { OnOk result (reasons.new
        ≡ reasons.old ++ shown_reasons count group.now (subject_by owner) modals.now) }
{
    for place in 0..modals.len() {
        let number = as_number(place)?;
        reasons.push(Reason {
            subject: subject_of(owner, number),
            showing: shown_by(count, &modals[place], group.at(place)),
        })?;
    }
    Ok(())
}
