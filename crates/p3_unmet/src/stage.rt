//! The operators and preferences of a task, from which the headings of a plan are drafted.

ghost use Rattle.std.specs.Prelude.{◌≡◌, ◌-◌, map, option_map, slice_get, IfOk, OnOk};
ghost use Rattle.p3_scenes.specs.Seen.{seen, seen_pref, seen_soft};
ghost use Rattle.p3_unmet.specs.Sketches.{seen_draft};
ghost use Rattle.p3_unmet.specs.Sources.{texts};

use crate::Sources;
use crate::draft::{Concern, Draft, Inquiry, copied, operator_draft};
use crate::names::{number_of, preference_names};
use crate::step_scenes::StepScenes;
use p3_accounts::OperatorKind;
use p3_base::{List, NoMemory, Role, Showing, Subject, as_number};
use p3_numbers::Names;
use p3_reasons::PlacedStep;
use p3_scenes::{
    Asked, Bindings, InstanceScene, OperatorScene, PreferenceScene, hard_scenes, instance_scenes,
};
use p3_types::Checked;
use std::alloc::Global;

/// The operators and preferences of a task, and the steps of a plan.
#[derive(Drop)]
pub(crate) struct Stage<'a, 's, 't> {
    /// Where memory is had from.
    pub(crate) alloc: Global,
    /// The task.
    pub(crate) checked: &'t Checked,
    /// Its texts.
    pub(crate) sources: &'a Sources<'s>,
    /// The steps.
    pub(crate) steps: &'a [PlacedStep],
    /// The operators outside preferences.
    pub(crate) hard: List<OperatorScene<'t>>,
    /// The preferences over the visited states.
    pub(crate) soft: List<InstanceScene<'t>>,
    /// The names of preferences.
    pub(crate) names: Names,
    ghost numbered: { names ≡ checked.now.numbered.numbers.preferences },
}

impl<'a, 's, 't> Stage<'a, 's, 't> {
    ghost use Rattle.p3_unmet.specs.Stages.{
      AreStepScenes,
      IsSketchBy,
      IsStage,
      constraint_at,
      constraint_sketch,
      goal_sketch,
      preference_at,
      preference_in,
      preference_sketch,
      seen_stage,
      step_sketch,
    };

    /// Lists the operators and preferences of a task.
    pub(crate) fn of(
        alloc: Global,
        checked: &'t Checked,
        sources: &'a Sources<'s>,
        steps: &'a [PlacedStep],
    ) -> Result<Stage<'a, 's, 't>, NoMemory>
        ensures stage { IfOk result (λ stage. IsStage (seen_stage stage)) }
        ensures task { IfOk result (λ stage. stage.checked.now ≡ checked.now) }
        ensures texts { IfOk result (λ stage. texts stage.sources.now ≡ texts sources.now) }
        ensures steps { IfOk result (λ stage. stage.steps.now ≡ steps.now) }
    {
        let (task, numbered) = (checked.task(), checked.numbered());
        let hard = hard_scenes(alloc, task, numbered)?;
        let soft = instance_scenes(alloc, task, numbered)?;
        let names = preference_names(alloc, &numbered.numbers)?;
        Ok(Stage {
            alloc,
            checked,
            sources,
            steps,
            hard,
            soft,
            names,
        })
    }

    /// Drafts the heading of the goal.
    pub(crate) fn goal(&self) -> Result<Draft<'t>, NoMemory>
        ensures { IfOk result (λ draft. seen_draft draft ≡ goal_sketch (seen_stage self.now)) }
    {
        let state = as_number(self.steps.len())?;
        let inquiry = Inquiry {
            state,
            operand: None,
            asked: Asked::HardPart(&self.checked.numbered().goal),
        };
        let mut inquiries = List::new(self.alloc);
        inquiries.push(inquiry)?;
        let bindings = Bindings {
            variables: List::new(self.alloc),
            objects: List::new(self.alloc),
        };
        Ok(Draft {
            spot: None,
            concern: Concern::Goal,
            bindings,
            nowhere: false,
            inquiries,
        })
    }

    /// Drafts the heading of a hard constraint, where the task has one of the number.
    fn constraint(&self, number: u32, showing: Showing) -> Result<Option<Draft<'t>>, NoMemory>
        ensures { IfOk result (λ found. option_map seen_draft found
            ≡ constraint_at (seen_stage self.now) number showing) }
    {
        match self.hard.get(number as usize) {
            Some(scene) => Ok(Some(self.constraint_of(scene, number, showing)?)),
            None => Ok(None),
        }
    }

    /// Drafts the heading of a hard constraint.
    fn constraint_of(
        &self,
        scene: &OperatorScene<'t>,
        number: u32,
        showing: Showing,
    ) -> Result<Draft<'t>, NoMemory>
        ensures { IfOk result (λ draft. seen_draft draft
            ≡ constraint_sketch (seen_stage self.now) number showing (seen scene.now)) }
    {
        let operator = OperatorKind::of(&scene.operator);
        let concern = Concern::Constraint { number, operator };
        let spot = self.sources.spot_at(scene.role, scene.word);
        operator_draft(self.alloc, concern, spot, scene, showing)
    }

    /// Drafts the heading of an operator of a preference, where the task has it.
    fn preference(
        &self,
        instance: u32,
        part: u32,
        showing: Showing,
    ) -> Result<Option<Draft<'t>>, NoMemory>
        ensures { IfOk result (λ found. option_map seen_draft found
            ≡ preference_at (seen_stage self.now) instance part showing) }
    {
        match self.soft.get(instance as usize) {
            Some(soft) => self.part(soft, part, showing),
            None => Ok(None),
        }
    }

    /// Drafts the heading of an operator of a preference, where the preference has it.
    fn part(
        &self,
        soft: &InstanceScene<'t>,
        part: u32,
        showing: Showing,
    ) -> Result<Option<Draft<'t>>, NoMemory>
        ensures { IfOk result (λ found. option_map seen_draft found
            ≡ preference_in (seen_stage self.now) part showing (seen_soft soft.now)) }
    {
        match soft.operators.get(part as usize) {
            Some(scene) => Ok(Some(self.preference_of(soft, scene, showing)?)),
            None => Ok(None),
        }
    }

    /// Drafts the heading of an operator of a preference.
    fn preference_of(
        &self,
        soft: &InstanceScene<'t>,
        scene: &OperatorScene<'t>,
        showing: Showing,
    ) -> Result<Draft<'t>, NoMemory>
        ensures { IfOk result (λ draft. seen_draft draft ≡ preference_sketch
            (seen_stage self.now) (seen_soft soft.now) showing (seen scene.now)) }
    {
        let name = number_of(&self.names, soft.name)?;
        let operator = OperatorKind::of(&scene.operator);
        let concern = Concern::Preference { name, operator };
        let spot = self.sources.spot(soft.role, scene.word.unwrap_or(soft.at));
        operator_draft(self.alloc, concern, Some(spot), scene, showing)
    }

    /// Drafts the heading of a preference of a step, where the step has it.
    fn step_preference(
        &self,
        own: &mut StepScenes<'t>,
        step: u32,
        pref: u32,
    ) -> Result<Option<Draft<'t>>, NoMemory>
        requires { AreStepScenes (seen_stage self.now) own.old.step
            (map seen_pref own.old.scenes) }
        ensures found { IfOk result (λ found. option_map seen_draft found
            ≡ option_map (step_sketch (seen_stage self.now) step)
            (slice_get (map seen_pref own.new.scenes) pref)) }
        ensures step { OnOk result (own.new.step ≡ step) }
        ensures own { OnOk result (AreStepScenes (seen_stage self.now) step
            (map seen_pref own.new.scenes)) }
    {
        own.turn_to(self, step)?;
        match own.scenes.get(pref as usize) {
            Some(scene) => Ok(Some(self.step_preference_of(scene, step)?)),
            None => Ok(None),
        }
    }

    /// Drafts the heading of a preference of a step.
    fn step_preference_of(
        &self,
        scene: &PreferenceScene<'t>,
        step: u32,
    ) -> Result<Draft<'t>, NoMemory>
        ensures { IfOk result (λ draft. seen_draft draft
            ≡ step_sketch (seen_stage self.now) step (seen_pref scene.now)) }
    {
        let name = number_of(&self.names, scene.name)?;
        let inquiry = Inquiry {
            state: step.saturating_sub(1),
            operand: None,
            asked: Asked::Condition(scene.condition),
        };
        let mut inquiries = List::new(self.alloc);
        inquiries.push(inquiry)?;
        let bindings = copied(self.alloc, &scene.bindings)?;
        Ok(Draft {
            spot: Some(self.sources.spot(Role::Domain, scene.at)),
            concern: Concern::StepPreference { name, step },
            bindings,
            nowhere: false,
            inquiries,
        })
    }

    /// Drafts the heading of what a reason is of, where the task and the plan have it.
    pub(crate) fn subject(
        &self,
        own: &mut StepScenes<'t>,
        subject: Subject,
        showing: Showing,
    ) -> Result<Option<Draft<'t>>, NoMemory>
        requires { AreStepScenes (seen_stage self.now) own.old.step
            (map seen_pref own.old.scenes) }
        ensures found { IfOk result (λ found. IsSketchBy
            (seen_stage self.now) subject showing (option_map seen_draft found)) }
        ensures own { OnOk result (AreStepScenes (seen_stage self.now) own.new.step
            (map seen_pref own.new.scenes)) }
    {
        match subject {
            Subject::Hard(number) => self.constraint(number, showing),
            Subject::Soft { instance, part } => self.preference(instance, part, showing),
            Subject::Pre { step, pref } => self.step_preference(own, step, pref),
        }
    }
}
