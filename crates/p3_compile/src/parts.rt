//! What a step comes to in a target, before its actions are made.

ghost use Rattle.std.specs.Prelude.{◌≡◌, ◌++◌, IfOk, OnOk, true};
ghost use Rattle.p3_base.specs.Copies.{copy_name};
ghost use Rattle.p3_formula.specs.Simplified.{joined};
ghost use Rattle.p3_compile.specs.Parts.{actions_of, behind_atom, copied_action, copied_actions};
ghost use Rattle.p3_simulation.specs.Naming.{pattern};

use crate::changes::part_count;
use itoa::Buffer;
use p3_base::{List, Name, NoMemory};
use p3_formula::{Effects, Form, TargetAction, push_spread};
use std::alloc::Global;

/// A copy of a step in a target.
#[derive(Drop)]
pub struct TargetCopy {
    /// Whether each weighted preference is violated, in order.
    pub violated: List<bool>,
    /// What holds where it fits, beside the running atom.
    pub pre: Form,
    /// What it changes, simplified by what its precondition fixes.
    pub effects: Effects,
    /// What it costs.
    pub cost: u64,
}

/// The copies of a step in a target, each of which is an action.
#[derive(Drop)]
pub struct StepCopies {
    /// The number of the step.
    pub number: u32,
    /// The running atom.
    pub go: usize,
    /// The copies.
    pub copies: List<TargetCopy>,
}

/// What a step comes to in a target.
#[derive(Drop)]
pub enum StepParts {
    /// The actions of its chain, or none where it has no cost.
    Actions(List<TargetAction>),
    /// Its copies.
    Copies(StepCopies),
}

/// Behind the text a digit for each preference: 1 where it is violated, and else 0.
fn push_pattern(text: &mut Vec<u8>, violated: &List<bool>) -> Result<(), NoMemory>
    ensures { OnOk result (text.new.items ≡ text.old.items ++ pattern violated.now) }
{
    for one in violated.items() {
        text.push(if *one { b'1' } else { b'0' })?;
    }
    Ok(())
}

/// The bytes of the name of a copy: `s`, the number, `v` and the digits.
fn copy_text(alloc: Global, number: u32, violated: &List<bool>) -> Result<Vec<u8>, NoMemory>
    ensures { IfOk result (λ text. text.items ≡ copy_name number (pattern violated.now)) }
{
    let mut text = Vec::with_capacity(alloc, 24)?;
    text.push(b's')?;
    text.extend_from_slice(Buffer::new().format(number).as_bytes())?;
    text.push(b'v')?;
    push_pattern(&mut text, violated)?;
    Ok(text)
}

/// The name of a copy.
#[tactic(auto, using(crate::proofs::CopyNames::lowered_copy))]
fn name_of_copy(alloc: Global, number: u32, violated: &List<bool>) -> Result<Name, NoMemory>
    ensures { IfOk result (λ name. name ≡ copy_name number (pattern violated.now)) }
{
    let text = copy_text(alloc, number, violated)?;
    Name::of(alloc, &text)
}

/// The conjunction of the parts, where there are two or more.
fn all_of(mut parts: Vec<Form>) -> Form
    ensures { result ≡ joined true parts.items }
{
    if parts.len() > 1 {
        return Form::And(List::from(parts));
    }
    match parts.pop() {
        Some(part) => part,
        None => Form::True,
    }
}

/// The form that holds where the atom is set and the form holds.
fn behind_atom(alloc: Global, atom: usize, form: Form) -> Result<Form, NoMemory>
    ensures { IfOk result (λ whole. whole ≡ behind_atom atom form) }
{
    let mut parts = Vec::with_capacity(alloc, part_count(&form).saturating_add(1))?;
    parts.push(Form::Atom(atom))?;
    push_spread(&mut parts, form)?;
    Ok(all_of(parts))
}

/// The action of a copy.
fn copied_action(
    alloc: Global,
    number: u32,
    go: usize,
    copy: TargetCopy,
) -> Result<TargetAction, NoMemory>
    ensures { IfOk result (λ action. action ≡ copied_action number go copy) }
{
    let TargetCopy {
        violated,
        pre,
        effects,
        cost,
    } = copy;
    let name = name_of_copy(alloc, number, &violated)?;
    let pre = behind_atom(alloc, go, pre)?;
    Ok(TargetAction {
        name,
        pre,
        effects,
        cost,
    })
}

/// An action for each copy.
fn copied_actions(alloc: Global, step: StepCopies) -> Result<List<TargetAction>, NoMemory>
    ensures { IfOk result (λ actions. actions ≡ copied_actions step) }
{
    let StepCopies { number, go, copies } = step;
    let mut actions = List::with_capacity(alloc, copies.len())?;
    for copy in copies.into_items() {
        actions.push(copied_action(alloc, number, go, copy)?)?;
    }
    Ok(actions)
}

impl StepParts {
    /// The actions of the step.
    pub fn into_actions(self, alloc: Global) -> Result<List<TargetAction>, NoMemory>
        ensures { IfOk result (λ actions. actions ≡ actions_of self) }
    {
        match self {
            StepParts::Actions(actions) => Ok(actions),
            StepParts::Copies(copies) => copied_actions(alloc, copies),
        }
    }
}
