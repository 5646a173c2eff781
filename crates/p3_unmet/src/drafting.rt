//! Drafts of the headings of all that a plan does not satisfy.

ghost use Rattle.std.specs.Prelude.{◌≡◌, ◌++◌, map, option_map, option_to_list};
ghost use Rattle.std.specs.Prelude.{IfOk, OnOk};
ghost use Rattle.p3_scenes.specs.Seen.{seen_pref};
ghost use Rattle.p3_unmet.specs.Sketches.{seen_draft};
ghost use Rattle.p3_unmet.specs.Stages.{
  AreSketched,
  AreStepScenes,
  IsSketchOf,
  goal_sketches,
  seen_stage,
};
ghost use Rattle.p3_unmet.specs.Unmet.{shows_unmet};

use crate::draft::Draft;
use crate::stage::Stage;
use crate::step_scenes::StepScenes;
use p3_base::{List, NoMemory, Reason, Showing};

/// Tells whether it is shown that something is not satisfied.
fn tells_unmet(showing: Showing) -> bool
    ensures { result ≡ shows_unmet showing }
{
    match showing {
        Showing::Holds => false,
        Showing::HoldsAt(_) => false,
        Showing::HoldsNowhere => true,
        Showing::FailsAt(_) => true,
        Showing::Again { .. } => true,
    }
}

/// Drafts the heading of a reason, where it tells of something that is not satisfied.
fn draft<'t>(
    stage: &Stage<'_, '_, 't>,
    own: &mut StepScenes<'t>,
    reason: &Reason,
) -> Result<Option<Draft<'t>>, NoMemory>
    requires { AreStepScenes (seen_stage stage.now) own.old.step (map seen_pref own.old.scenes) }
    ensures found { IfOk result (λ found. IsSketchOf
        (seen_stage stage.now) reason.now (option_map seen_draft found)) }
    ensures own { OnOk result (AreStepScenes (seen_stage stage.now) own.new.step
        (map seen_pref own.new.scenes)) }
{
    if tells_unmet(reason.showing) {
        stage.subject(own, reason.subject, reason.showing)
    } else {
        Ok(None)
    }
}

/// Puts a draft behind the others, where there is one.
fn keep<'t>(drafts: &mut List<Draft<'t>>, found: Option<Draft<'t>>) -> Result<(), NoMemory>
    ensures { OnOk result (map seen_draft drafts.new
        ≡ map seen_draft drafts.old ++ option_to_list (option_map seen_draft found.entry)) }
{
    if let Some(draft) = found {
        drafts.push(draft)?;
    }
    Ok(())
}

/// Drafts the heading of the goal, where it does not hold.
fn goal_drafts<'t>(stage: &Stage<'_, '_, 't>, holds: bool) -> Result<List<Draft<'t>>, NoMemory>
    ensures { IfOk result
        (λ drafts. map seen_draft drafts ≡ goal_sketches (seen_stage stage.now) holds) }
{
    let mut drafts = List::new(stage.alloc);
    if !holds {
        drafts.push(stage.goal()?)?;
    }
    Ok(drafts)
}

/// Drafts the headings of the goal, where it does not hold, and of the reasons that tell of
/// something that is not satisfied.
pub(crate) fn drafts<'t>(
    stage: &Stage<'_, '_, 't>,
    reasons: &[Reason],
    holds: bool,
) -> Result<List<Draft<'t>>, NoMemory>
    ensures { IfOk result (λ drafts. AreSketched (seen_stage stage.now)
        (goal_sketches (seen_stage stage.now) holds) reasons.now (map seen_draft drafts)) }
{
    let mut drafts = goal_drafts(stage, holds)?;
    let mut own = StepScenes::of(stage, 1)?;
    for reason in reasons {
        let found = draft(stage, &mut own, reason)?;
        keep(&mut drafts, found)?;
    }
    Ok(drafts)
}
