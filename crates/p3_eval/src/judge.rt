//! Plans judged step by step, as what each step is found.

ghost use Rattle.std.specs.Prelude.{◌≡◌, ◌+◌, ◌<◌, ◌≤◌, [], length, option_map, IfSome};
ghost use Rattle.p3_task.specs.Validity.{first_fault};
ghost use Rattle.p3_run.specs.Runs.{most_steps};
ghost use Rattle.p3_eval.specs.Judged.{
  HasItsStep,
  IsJudged,
  NamesMisfitOfFound,
  TellsOfFound,
  fault_in,
  fault_of_step,
  ran_with,
};
ghost use Rattle.p3_eval.specs.Runs.{OfItsPlan};
ghost use Rattle.p3_eval.specs.Steps.{OfItsSteps};

use crate::{FaultKind, PlanFault, Run, Steps};
use p3_run::{Stepped, Verdict};
use p3_types::Found;

/// The fault of a step that was tried, if it has one.
fn fault_of(step: u32, stepped: Stepped) -> Option<PlanFault>
    requires { 1 ≤ step }
    ensures told { result ≡ fault_of_step step stepped }
    ensures placed { IfSome result HasItsStep }
    ensures counted { IfSome result (λ fault. fault.step ≡ step) }
{
    match stepped {
        Stepped::Done => None,
        Stepped::Precondition => Some(PlanFault {
            step,
            kind: FaultKind::Precondition,
        }),
        Stepped::NoCost => Some(PlanFault {
            step,
            kind: FaultKind::NoCost,
        }),
    }
}

impl<'a> Run<'a> {
    /// Does the step that is found so, where it fits. Where it does not, nothing has changed, and
    /// the answer says why, by the number of the step behind those done: it is the first fault of
    /// each plan that goes on with it.
    pub fn follow(&mut self, found: Found) -> Option<PlanFault>
        requires { length self.old.plan < most_steps }
        ensures told { TellsOfFound self.old found result }
        ensures misfit { NamesMisfitOfFound self.old found result }
        ensures placed { IfSome result HasItsStep }
        ensures counted { IfSome result (λ fault. fault.step ≡ length self.old.plan + 1) }
        ensures ran { self.new ≡ ran_with self.old found result }
    {
        let step = self.steps() + 1;
        match found {
            Found::Number(number) => fault_of(step, self.step(number)),
            Found::UnknownAction => Some(PlanFault {
                step,
                kind: FaultKind::UnknownAction,
            }),
            Found::Arguments => Some(PlanFault {
                step,
                kind: FaultKind::Arguments,
            }),
        }
    }

    /// The first fault of the plan of the steps done, if it has one: it is valid where it has none.
    pub fn judge(&self) -> Option<PlanFault>
        ensures fault { OfItsPlan self.now
            (λ T plan. first_fault T plan ≡ option_map fault_in result) }
        ensures placed { IfSome result HasItsStep }
    {
        match self.finish() {
            Verdict::Valid => None,
            Verdict::Goal => Some(PlanFault {
                step: 0,
                kind: FaultKind::Goal,
            }),
            Verdict::Unmet(place) => Some(PlanFault {
                step: 0,
                kind: FaultKind::Unmet(place),
            }),
        }
    }

    /// Does the steps of a plan until one does not fit: the first fault of the plan, if it has one.
    pub fn judge_steps(&mut self, steps: &Steps) -> Option<PlanFault>
        requires { self.old.plan ≡ [] }
        ensures judged { OfItsSteps self.old steps.now
            (λ T plan. IsJudged T plan self.old self.new result) }
        ensures placed { IfSome result HasItsStep }
    {
        for number in steps.numbers.as_slice() {
            if let Some(fault) = self.follow(Found::Number(*number)) {
                return Some(fault);
            }
        }
        match steps.rest {
            Some(found) => self.follow(found),
            None => self.judge(),
        }
    }
}
