//! A target whose steps have no actions yet.

ghost use Rattle.std.specs.Prelude.{◌≡◌, ◌<◌, ◌+◌, ◌^◌, ◌∷◌, ◌++◌, [], length, slice_index_or, codes, IfOk, OnOk};
ghost use Rattle.p3_formula.specs.Conditions.{IsReady};
ghost use Rattle.p3_formula.specs.Forms.{IsBelow};
ghost use Rattle.std.specs.List.{All};
ghost use Rattle.p3_formula.specs.Weighted.{AreNamedBelow};
ghost use Rattle.p3_formula.specs.declared.task.GroundStep.{GroundStep};
ghost use Rattle.p3_endphase.specs.Ends.{Settles};
ghost use Rattle.p3_endphase.specs.declared.phase.SoftEnd.{SoftEnd};
ghost use Rattle.p3_simulation.specs.Naming.{question_names, wide_steps};
ghost use Rattle.p3_compile.specs.Compiling.{IsReadyTask, IsFrameOf, IsFramed, IsEnding, IsBegun, HasNamedEnds, HasEnds, with_goal, without_goal};
ghost use Rattle.p3_compile.specs.Parts.{actions_of};
ghost use Rattle.p3_compile.specs.Stepping.{current_names, IsNextStep, HasNextActions};

use crate::bits::initial_bits;
use crate::ending::{finish_form, soft_ends};
use crate::monitor_readers::{all_by_atom, readers};
use crate::monitoring::monitors;
use crate::names::{numbered, push_numbered};
use crate::parts::StepParts;
use crate::stepping::{Frame, has_wide, push_all, step_parts};
use crate::weighing::is_wide;
use p3_base::{List, Name, NoMemory};
use p3_endphase::{SoftEnd, finishing, push_settling, settling};
use p3_formula::{Bits, Form, GroundStep, GroundTask, Target, TargetAction, Weights, copied};
use std::alloc::Global;
use std::mem::replace;

/// A target whose steps have no actions yet: its atoms, its initial state, how its end phase
/// begins, what is settled in it, and its goal.
#[derive(Drop)]
pub struct BegunTarget {
    names: List<Name>,
    initial: Bits,
    frame: Frame,
    /// The first current atom.
    current: usize,
    begin: List<TargetAction>,
    instances: List<SoftEnd>,
    goal: Form,
}

/// What a begun target has of its end phase.
#[derive(Drop)]
struct EndParts {
    begin: List<TargetAction>,
    instances: List<SoftEnd>,
    goal: Form,
}

/// The name of the running atom.
fn running_name(alloc: Global) -> Result<Name, NoMemory>
    ensures { IfOk result (λ name. name ≡ codes "go") }
{
    Name::of(alloc, b"go".as_slice())
}

/// Names the atoms of the task, those of its monitors, the running atom and those of the end phase,
/// in this order, and finds which monitors read an atom.
fn framed(alloc: Global, names: &mut List<Name>, task: &GroundTask) -> Result<Frame, NoMemory>
    requires ready { IsReadyTask task.now }
    requires new { names.old ≡ [] }
    ensures { IfOk result (IsFramed task.now names.new) }
{
    push_numbered(alloc, names, "f", 0, task.atoms)?;
    let monitors = monitors(alloc, names, task)?;
    let readers = readers(alloc, monitors.items())?;
    let by_atom = all_by_atom(alloc, monitors.items())?;
    let go = names.len();
    names.push(running_name(alloc)?)?;
    let chain = names.len();
    push_numbered(alloc, names, "e", chain, task.soft.len() + 1)?;
    let first = names.len();
    let hard = task.hard.len();
    Ok(Frame {
        monitors,
        hard,
        readers,
        by_atom,
        go,
        first,
    })
}

/// Makes how the end phase of a task with that goal begins, what is settled in it, and the goal that
/// stands behind it.
fn ending(
    alloc: Global,
    frame: &Frame,
    task: &GroundTask,
    goal: Form,
    weights: &Weights,
) -> Result<EndParts, NoMemory>
    requires ready { IsReady task.now weights.now }
    requires goal { IsBelow task.now.atoms goal }
    requires framed { IsFrameOf task.now frame.now }
    ensures { IfOk result (λ end. IsEnding (with_goal goal task.now) weights.now
        frame.now end.begin end.instances end.goal) }
{
    let (hard, soft) = frame.monitors.items().split_at(task.hard.len());
    let finish = finish_form(alloc, goal, hard)?;
    let instances = soft_ends(alloc, &weights.by_name, &task.soft, soft)?;
    let begin = finishing(alloc, finish, frame.go)?;
    let goal = Form::Atom(frame.go + 1 + instances.len());
    Ok(EndParts {
        begin,
        instances,
        goal,
    })
}

/// Names the question atoms, where some step is wide.
fn push_questions(
    alloc: Global,
    names: &mut List<Name>,
    task: &GroundTask,
    weights: &Weights,
) -> Result<(), NoMemory>
    requires { All (λ (step : GroundStep). AreNamedBelow (length weights.now.by_name) step.prefs)
        task.now.steps }
    ensures { OnOk result (names.new
        ≡ names.old ++ question_names (wide_steps weights.now.by_name task.now.steps)) }
{
    let first = names.len();
    if has_wide(&weights.by_name, task.steps.items()) {
        push_numbered(alloc, names, "h", first, 201)?;
    }
    Ok(())
}

/// Names the current atoms of the wide steps.
fn push_currents(
    alloc: Global,
    names: &mut List<Name>,
    by_name: &List<u64>,
    steps: &[GroundStep],
) -> Result<(), NoMemory>
    requires { All (λ (step : GroundStep). AreNamedBelow (length by_name.now) step.prefs)
        steps.now }
    ensures { OnOk result (names.new ≡ names.old ++ current_names by_name.now steps.now) }
{
    for step in steps {
        push_current(alloc, names, by_name, step)?;
    }
    Ok(())
}

/// Names the current atom of a step, where it is wide.
fn push_current(
    alloc: Global,
    names: &mut List<Name>,
    by_name: &List<u64>,
    step: &GroundStep,
) -> Result<(), NoMemory>
    requires { AreNamedBelow (length by_name.now) step.now.prefs }
    ensures { OnOk result (names.new ≡ names.old ++ current_names by_name.now (step.now ∷ [])) }
{
    if is_wide(by_name, step) {
        names.push(numbered(alloc, "c", step.number as usize)?)?;
    }
    Ok(())
}

/// Names the atoms of wide steps: those of questions, and behind them the current atoms, of which
/// it finds the first.
fn push_asked(
    alloc: Global,
    names: &mut List<Name>,
    task: &GroundTask,
    weights: &Weights,
) -> Result<usize, NoMemory>
    requires { All (λ (step : GroundStep). AreNamedBelow (length weights.now.by_name) step.prefs)
        task.now.steps }
    ensures named { OnOk result (names.new ≡ names.old
        ++ question_names (wide_steps weights.now.by_name task.now.steps)
        ++ current_names weights.now.by_name task.now.steps) }
    ensures first { IfOk result (λ current. current ≡ length names.old
        + length (question_names (wide_steps weights.now.by_name task.now.steps))) }
{
    push_questions(alloc, names, task, weights)?;
    let current = names.len();
    push_currents(alloc, names, &weights.by_name, task.steps.items())?;
    Ok(current)
}

/// The count of a task's steps is a number of 32 bits.
fn counts_in_32_bits(task: &GroundTask)
    ensures { task.now.step_count < 2 ^ 32 }
{
    let _count: u32 = task.step_count;
}

impl BegunTarget {
    /// Names all atoms of the target of a task, and makes its initial state and what its end phase
    /// is made from.
    ///
    /// The monitors of all constraints are made once.
    pub(crate) fn of(
        alloc: Global,
        task: &GroundTask,
        weights: &Weights,
    ) -> Result<BegunTarget, NoMemory>
        requires { IsReady task.now weights.now }
        ensures { IfOk result (IsBegun task.now weights.now) }
    {
        let goal = copied(alloc, &task.goal)?;
        BegunTarget::with_goal(alloc, task, goal, weights)
    }

    /// Begins the target of a task as `compile` does, and takes the task's goal.
    pub fn taking_goal(
        alloc: Global,
        task: &mut GroundTask,
        weights: &Weights,
    ) -> Result<BegunTarget, NoMemory>
        requires { IsReady task.old weights.now }
        ensures begun { IfOk result (IsBegun task.old weights.now) }
        ensures left { task.new ≡ without_goal task.old }
    {
        let goal = replace(&mut task.goal, Form::True);
        BegunTarget::with_goal(alloc, task, goal, weights)
    }

    /// Begins the target of the task that has that goal in the place of its own.
    fn with_goal(
        alloc: Global,
        task: &GroundTask,
        goal: Form,
        weights: &Weights,
    ) -> Result<BegunTarget, NoMemory>
        requires ready { IsReady task.now weights.now }
        requires goal { IsBelow task.now.atoms goal }
        ensures { IfOk result (IsBegun (with_goal goal task.now) weights.now) }
    {
        counts_in_32_bits(task);
        let mut names = List::new(alloc);
        let frame = framed(alloc, &mut names, task)?;
        let end = ending(alloc, &frame, task, goal, weights)?;
        let current = push_asked(alloc, &mut names, task, weights)?;
        let idle = names.len() - frame.go - 1;
        let initial = initial_bits(alloc, &task.initial, frame.monitors.items(), idle)?;
        let EndParts {
            begin,
            instances,
            goal,
        } = end;
        Ok(BegunTarget {
            names,
            initial,
            frame,
            current,
            begin,
            instances,
            goal,
        })
    }

    /// The names of all atoms.
    pub fn names(&self) -> &[Name]
        ensures { result.now ≡ self.now.names }
    {
        self.names.items()
    }

    /// The initial state.
    pub fn initial(&self) -> &Bits
        ensures { result.now ≡ self.now.initial }
    {
        &self.initial
    }

    /// The first current atom: that of the first wide step.
    pub fn first_current(&self) -> usize
        ensures { result ≡ self.now.current }
    {
        self.current
    }

    /// What the actions of a step are made from. Its changes are regressed once, for the monitors
    /// that read an atom which the step may change. Where the step is wide, the current atom is its
    /// own, and the next one is that of the next such step.
    pub fn step_parts(
        &self,
        alloc: Global,
        weights: &Weights,
        step: GroundStep,
        current: &mut usize,
    ) -> Result<StepParts, NoMemory>
        requires { IsNextStep self.now weights.now step current.old }
        ensures { IfOk result (λ parts. HasNextActions self.now weights.now step
            current.old current.new (actions_of parts)) }
    {
        step_parts(alloc, current, &self.frame, weights, step)
    }

    /// Gives the actions with which the end phase begins. They stand behind those of the steps.
    pub fn begin(&self) -> &[TargetAction]
        ensures { result.now ≡ self.now.begin }
    {
        self.begin.items()
    }

    /// Counts the instances that are settled behind them.
    pub fn instance_count(&self) -> usize
        ensures { result ≡ length self.now.instances }
    {
        self.instances.len()
    }

    /// Makes the actions that settle the instance of that number.
    pub fn settling(&self, alloc: Global, number: usize) -> Result<List<TargetAction>, NoMemory>
        requires within { number < length self.now.instances }
        requires room { HasNamedEnds self.now }
        ensures { (instance : SoftEnd) → IfOk result (Settles self.now.frame.go number
            (slice_index_or self.now.instances number instance ∷ [])) }
    {
        settling(
            alloc,
            &self.instances.items()[number],
            number,
            self.frame.go,
        )
    }

    /// The goal.
    pub fn goal(&self) -> &Form
        ensures { result.now ≡ self.now.goal }
    {
        &self.goal
    }

    /// Makes the target of which these are the actions of the steps.
    pub(crate) fn target(
        self,
        alloc: Global,
        actions: List<TargetAction>,
    ) -> Result<Target, NoMemory>
        requires { HasNamedEnds self }
        ensures { IfOk result (HasEnds self actions) }
    {
        let BegunTarget {
            names,
            initial,
            frame,
            begin,
            instances,
            goal,
            ..
        } = self;
        let mut all = actions;
        push_all(&mut all, begin)?;
        push_settling(alloc, &mut all, &instances, frame.go)?;
        Ok(Target {
            predicates: names,
            initial,
            actions: all,
            goal,
        })
    }
}
