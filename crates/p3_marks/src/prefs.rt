//! The preferences of a step that are false before it.

ghost use Rattle.std.specs.Prelude.{◌≡◌, ◌++◌, ◌≤◌, length, OnOk};
ghost use Rattle.std.specs.List.{All};
ghost use Rattle.p3_marks.specs.Reasons.{pref_reasons};
ghost use Rattle.p3_run.specs.Steps.{HasBodyBelow};

use p3_base::{List, NoMemory, Reason, Showing, Subject, as_number};
use p3_formula::{Bits, GroundPref, eval};

/// Puts the reasons of the preferences that are false in the state before the step of that number,
/// which counts from 1.
///
/// # Errors
///
/// Want of memory.
pub fn push_false_prefs(
    reasons: &mut List<Reason>,
    prefs: &[GroundPref],
    state: &Bits,
    step: u32,
) -> Result<(), NoMemory>
    requires below { All (HasBodyBelow (length state.now)) prefs.now }
    requires counted { 1 ≤ step }
    ensures { OnOk result
        (reasons.new ≡ reasons.old ++ pref_reasons state.now step prefs.now) }
{
    for place in 0..prefs.len() {
        if !eval(&prefs[place].body, state) {
            let pref = as_number(place)?;
            reasons.push(Reason {
                subject: Subject::Pre { step, pref },
                showing: Showing::FailsAt(step - 1),
            })?;
        }
    }
    Ok(())
}
