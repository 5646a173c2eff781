//! The steps of a written task.

ghost use Rattle.std.specs.Prelude.{◌≡◌, ◌<◌, ◌≤◌, IfErr, IfOk, OnErr, OnOk, slice_get};
ghost use Rattle.std.specs.List.{All};
ghost use Rattle.p3_base.specs.Outside.{IsPartlyPut, IsPut};
ghost use Rattle.p3_task.specs.Limits.{step_count};
ghost use Rattle.p3_task.specs.Sides.{step_count_limit};
ghost use Rattle.p3_formula.specs.declared.task.GroundStep.{GroundStep as Kept};
ghost use Rattle.p3_accounts.specs.Meanings.{meaning_line};
ghost use Rattle.p3_accounts.specs.Vocabularies.{vocabulary};
ghost use Rattle.p3_unmet.specs.Sources.{texts};
ghost use Rattle.p3_meanings.specs.Names.{AreWordsOf, IsFailOf};
ghost use Rattle.p3_meanings.specs.Steps.{action_spot, step_line, step_lines};

use crate::error::NamesFail;
use crate::lines::put_line;
use crate::telling::Telling;
use p3_accounts::{Meaning, Meant, Spot};
use p3_base::{NoMemory, Role, Sink};
use p3_formula::GroundStep;
use p3_scenes::placed_step;
use p3_types::Checked;

/// Finds where the name of the action at a place stands.
fn spot_of_action(telling: &Telling<'_>, place: u32) -> Option<Spot>
    ensures { result ≡ action_spot (texts telling.now.sources.now)
        (slice_get telling.now.terms.now.actions.now place) }
{
    match telling.terms.actions.get(place as usize) {
        Some(action) => Some(telling.sources.spot(Role::Domain, action.name.at)),
        None => None,
    }
}

/// Tells what the name of the step of a number stands for.
fn step_meaning(telling: &Telling<'_>, checked: &Checked, number: u32) -> Result<Meaning, NoMemory>
    requires few { step_count checked.now.task ≤ step_count_limit }
    requires within { number < step_count checked.now.task }
    requires words { AreWordsOf checked.now.task checked.now.numbered
        (vocabulary telling.now.terms.now) }
    ensures { IfOk result (λ meaning. meaning_line (vocabulary telling.now.terms.now) meaning
        ≡ step_line (vocabulary telling.now.terms.now) (texts telling.now.sources.now)
        checked.now.task number) }
{
    let placed = placed_step(telling.alloc, checked, number)?;
    let spot = spot_of_action(telling, placed.action);
    Ok(Meaning {
        spot,
        number,
        of: Meant::Step(placed),
    })
}

/// Puts the line of the step of a number.
fn put_step<S: Sink>(
    telling: &Telling<'_>,
    checked: &Checked,
    number: u32,
    out: &mut S,
) -> Result<(), NamesFail>
    requires few { step_count checked.now.task ≤ step_count_limit }
    requires within { number < step_count checked.now.task }
    requires words { AreWordsOf checked.now.task checked.now.numbered
        (vocabulary telling.now.terms.now) }
    ensures ok { OnOk result (IsPut (step_line (vocabulary telling.now.terms.now)
        (texts telling.now.sources.now) checked.now.task number)
        (S.seen out.old).written (S.seen out.new).written) }
    ensures partly { OnErr result (IsPartlyPut (step_line (vocabulary telling.now.terms.now)
        (texts telling.now.sources.now) checked.now.task number)
        (S.seen out.old).written (S.seen out.new).written) }
    ensures failed { IfErr result (IsFailOf (S.seen out.old).faults (S.seen out.new).faults) }
    ensures faults_grow { (S.seen out.old).faults ≤ (S.seen out.new).faults }
{
    match step_meaning(telling, checked, number) {
        Ok(meaning) => put_line(&meaning, telling.terms, out),
        Err(NoMemory) => Err(NamesFail::NoMemory),
    }
}

/// Puts the lines of the steps that are kept, in order.
pub(crate) fn put_steps<S: Sink>(
    telling: &Telling<'_>,
    checked: &Checked,
    steps: &[GroundStep],
    out: &mut S,
) -> Result<(), NamesFail>
    requires few { step_count checked.now.task ≤ step_count_limit }
    requires within { All (λ (step : Kept). step.number < step_count checked.now.task) steps.now }
    requires words { AreWordsOf checked.now.task checked.now.numbered
        (vocabulary telling.now.terms.now) }
    ensures ok { OnOk result (IsPut (step_lines (vocabulary telling.now.terms.now)
        (texts telling.now.sources.now) checked.now.task steps.now)
        (S.seen out.old).written (S.seen out.new).written) }
    ensures partly { OnErr result (IsPartlyPut (step_lines (vocabulary telling.now.terms.now)
        (texts telling.now.sources.now) checked.now.task steps.now)
        (S.seen out.old).written (S.seen out.new).written) }
    ensures failed { IfErr result (IsFailOf (S.seen out.old).faults (S.seen out.new).faults) }
    ensures faults_grow { (S.seen out.old).faults ≤ (S.seen out.new).faults }
{
    for step in steps {
        put_step(telling, checked, step.number, out)?;
    }
    Ok(())
}
