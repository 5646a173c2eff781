//! The preferences of the step at hand, which several reasons in a row may be of.

ghost use Rattle.std.specs.Prelude.{◌≡◌, map, IfOk, OnOk};
ghost use Rattle.p3_scenes.specs.Seen.{seen_pref};
ghost use Rattle.p3_unmet.specs.Stages.{AreStepScenes, seen_stage};

use crate::stage::Stage;
use p3_base::{List, NoMemory};
use p3_scenes::{PreferenceScene, preference_scenes};

/// The preferences of a step.
#[derive(Drop)]
pub(crate) struct StepScenes<'t> {
    /// The step, counted from 1.
    pub(crate) step: u32,
    /// Its preferences, in order.
    pub(crate) scenes: List<PreferenceScene<'t>>,
}

impl<'t> StepScenes<'t> {
    /// Gives the preferences of a step; none where the plan has no such step.
    pub(crate) fn of(stage: &Stage<'_, '_, 't>, step: u32) -> Result<StepScenes<'t>, NoMemory>
        ensures step { IfOk result (λ own. own.step ≡ step) }
        ensures are { IfOk result (λ own. AreStepScenes (seen_stage stage.now) step
            (map seen_pref own.scenes)) }
    {
        let checked = stage.checked;
        let scenes = match stage.steps.get(step.saturating_sub(1) as usize) {
            Some(placed) => {
                preference_scenes(stage.alloc, checked.task(), checked.numbered(), placed)?
            }
            None => List::new(stage.alloc),
        };
        Ok(StepScenes { step, scenes })
    }

    /// Turns to a step. It takes no time where that is the one at hand.
    pub(crate) fn turn_to(&mut self, stage: &Stage<'_, '_, 't>, step: u32) -> Result<(), NoMemory>
        requires { AreStepScenes (seen_stage stage.now) self.old.step
            (map seen_pref self.old.scenes) }
        ensures step { OnOk result (self.new.step ≡ step) }
        ensures are { OnOk result (AreStepScenes (seen_stage stage.now) step
            (map seen_pref self.new.scenes)) }
    {
        if self.step != step {
            *self = StepScenes::of(stage, step)?;
        }
        Ok(())
    }
}
