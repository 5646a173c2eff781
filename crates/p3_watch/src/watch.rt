//! A run of a task whose steps come as lines.

ghost use Rattle.std.specs.Prelude.{◌≡◌, ◌≤◌, [], ◌∷◌, None, length, IfOk, IsTrue};
ghost use Rattle.p3_base.specs.declared.refusal.Code.TheVariants.{TooManySteps};
ghost use Rattle.p3_task.specs.Limits.{step_count};
ghost use Rattle.p3_task.specs.PlanTexts.{IsPlanText, refusal};
ghost use Rattle.p3_task.specs.Refusals.First.{task_refusal};
ghost use Rattle.p3_task.specs.Sides.{plan_byte_limit, step_count_limit};
ghost use Rattle.p3_task.specs.declared.task.Step.{Step};
ghost use Rattle.p3_ground.specs.StandsFor.{StandsIn};
ghost use Rattle.p3_metric.specs.Weighed.{HasWeights};
ghost use Rattle.p3_run.specs.Runs.{begun};
ghost use Rattle.p3_eval.specs.Accepted.{is_accepted};
ghost use Rattle.p3_eval.specs.Judging.{IsRunOf};
ghost use Rattle.p3_eval.specs.Runs.{BelongTogether};
ghost use Rattle.p3_watch.specs.Watching.{IsAnswered, IsTried, IsUnchanged, IsWithin};

use p3_base::{Code, NoMemory, Pos, Refusal, Role};
use p3_eval::{Grounded, PlanFault, Run, Whole};
use p3_plans::{LineStep, line_step};
use p3_types::Checked;
use std::alloc::Global;

/// As many steps are done at most.
const MOST_STEPS: u32 = 1_000_000;

/// What a line comes to.
#[derive(Clone, Copy, Debug)]
pub enum Line {
    /// It has no step.
    Blank,
    /// Its step is done.
    Done,
    /// Its step does not fit. The fault is that of the step behind those done.
    Invalid(PlanFault),
    /// It is refused. The offset counts from the start of the line.
    Refused(Refusal),
}

/// A run of a task whose steps come as lines.
#[derive(Drop)]
pub struct Watch<'a> {
    checked: &'a Checked,
    run: Run<'a>,
    pub ghost standing: { ∥ StandsIn checked.now.task run.task ∥₁ },
    pub ghost weighing: { ∥ HasWeights checked.now.task run.weights ∥₁ },
    pub ghost accepted: { IsTrue (is_accepted checked.now.side checked.now.task) },
}

impl<'a> Watch<'a> {
    /// Opens a run of no step. All memory that following needs is taken here.
    ///
    /// # Errors
    ///
    /// Want of memory.
    pub fn open(alloc: Global, whole: &'a Whole) -> Result<Watch<'a>, NoMemory>
        ensures whole { IfOk result (λ watch. watch.checked.now ≡ whole.now.checked) }
        ensures begun { IfOk result (λ watch. watch.run.plan ≡ []) }
        ensures of { IfOk result (λ watch. IsRunOf whole.now.checked.task watch.run) }
    {
        // The steps of the task are few enough to be found.
        let _checked = whole.checked();
        let grounded = whole.grounded();
        let watch = Watch::over(alloc, &grounded)?;
        Ok(watch)
    }

    /// Opens a run of no step of a task with some of its steps: the lines are to have no others.
    ///
    /// # Errors
    ///
    /// Want of memory.
    pub fn over(alloc: Global, grounded: &Grounded<'a>) -> Result<Watch<'a>, NoMemory>
        ensures checked { IfOk result (λ watch. watch.checked.now ≡ grounded.now.checked.now) }
        ensures run { IfOk result (λ watch. watch.run
            ≡ begun grounded.now.ground_task.now grounded.now.weights.now) }
        ensures together { BelongTogether grounded.now.checked.now.task
            grounded.now.ground_task.now grounded.now.weights.now }
    {
        let run = grounded.begin(alloc)?;
        Ok(Watch {
            checked: grounded.checked(),
            run,
        })
    }

    /// Tells what a line comes to behind the steps done. Its step is done where it fits; else
    /// nothing has changed. It takes no memory.
    pub fn line(&mut self, line: &[u8]) -> Line
        requires short { length line.now ≤ plan_byte_limit }
        ensures answer { IsAnswered self.old.checked.now.task line.now
            self.old.run self.new.run result }
        ensures unchanged { IsUnchanged self.old.run self.new.run result }
        ensures within { IsWithin (length line.now) result }
        ensures checked { self.new.checked.now ≡ self.old.checked.now }
        ensures task { self.new.run.task ≡ self.old.run.task }
    {
        match line_step(line) {
            LineStep::Blank => Line::Blank,
            LineStep::Step(step) => self.step(step.offset, step.text),
            LineStep::Bad(refusal) => Line::Refused(refusal),
        }
    }

    /// Tries the step of a text that begins at an offset of a line.
    fn step(&mut self, offset: u32, text: &[u8]) -> Line
        requires short { length text.now ≤ plan_byte_limit }
        ensures answer { (step : Step) → IsPlanText text.now (step ∷ [])
            → IsTried self.old.checked.now.task offset step
            self.old.run self.new.run result }
        ensures unchanged { IsUnchanged self.old.run self.new.run result }
        ensures within { IsWithin offset result }
        ensures checked { self.new.checked.now ≡ self.old.checked.now }
        ensures task { self.new.run.task ≡ self.old.run.task }
    {
        if self.run.steps() >= MOST_STEPS {
            return Line::Refused(too_many(offset));
        }
        let found = self.checked().find_text(text);
        match self.run.follow(found) {
            None => Line::Done,
            Some(fault) => Line::Invalid(fault),
        }
    }

    /// Gives the run of the steps done.
    pub fn run(&self) -> &Run<'a>
        ensures { result.now ≡ self.now.run }
    {
        &self.run
    }

    /// Gives the task.
    pub(crate) fn checked(&self) -> &'a Checked
        ensures checked { result.now ≡ self.now.checked.now }
        ensures accepted { task_refusal result.now.side result.now.task ≡ None }
        ensures few { step_count result.now.task ≤ step_count_limit }
        ensures together { BelongTogether result.now.task self.now.run.task self.now.run.weights }
    {
        self.checked
    }
}

/// Refuses a step behind as many as are done at most.
fn too_many(offset: u32) -> Refusal
    ensures { result ≡ refusal TooManySteps offset 1 }
{
    Refusal {
        code: Code::TooManySteps,
        pos: Pos {
            role: Role::Plan,
            offset,
        },
        len: 1,
    }
}
