//! The parts of a target's texts, and the text of its problem half.

ghost use Rattle.std.specs.Prelude.{◌≡◌, ◌∷◌, ◌++◌, ◌<◌, ◌^◌, [], length, map, slice_index_or, IsTrue, IfOk, OnOk};
ghost use Rattle.std.specs.List.{list_all};
ghost use Rattle.std.specs.Fmt.{decimal};
ghost use Rattle.p3_base.specs.Words.{is_name, is_predicate_name};
ghost use Rattle.p3_formula.specs.Forms.{IsBelow, AreBelow};
ghost use Rattle.p3_formula.specs.declared.target.Target.{Target};
ghost use Rattle.p3_formula.specs.Targets.{IsSized, action_names, is_sized_change, is_sized_action};
ghost use Rattle.p3_writer.specs.Layout.{atom_text, negated_text, form_text, joined_text, spaced, literal_text, change_text, changes_text, cost_text, action_text, actions_text, is_small, set_atom, set_atoms, problem_layout, problem_text};
ghost use Rattle.p3_writer.specs.AtomTexts.{action_end, action_start};
ghost use Rattle.p3_writer.specs.TaskOf.{task_of};
ghost use Rattle.p3_writer.specs.Texts.{AreSpelled, CanBeWritten, HasProblem, IsProblemTextOf};

use crate::atom_texts::{AtomTexts, push_atom};
use itoa::Buffer;
use p3_base::{Name, NoMemory};
use p3_formula::{Bits, Change, Form, Target, TargetAction};
use std::alloc::Global;

/// The text of the problem half of the target's task.
pub fn write_problem(alloc: Global, target: &Target) -> Result<Vec<u8>, NoMemory>
    requires sized { IsSized target.now }
    requires predicates { IsTrue (list_all is_predicate_name target.now.predicates) }
    requires actions { IsTrue (list_all is_name (action_names target.now)) }
    requires spelled { AreSpelled (target.now.predicates ++ action_names target.now) }
    ensures layout { IfOk result (λ text. text.items ≡ problem_layout target.now) }
    ensures text { IfOk result (λ text. IsProblemTextOf text.items (task_of target.now).problem) }
{
    write_problem_of(
        alloc,
        target.predicates.items(),
        &target.initial,
        &target.goal,
    )
}

/// The text of the problem half of the task of each target that has these predicates, this initial
/// state and this goal.
pub fn write_problem_of(
    alloc: Global,
    names: &[Name],
    initial: &Bits,
    goal: &Form,
) -> Result<Vec<u8>, NoMemory>
    requires bits { length initial.now ≡ length names.now }
    requires goal { IsBelow (length names.now) goal.now }
    ensures layout { IfOk result (λ text.
        text.items ≡ problem_text names.now initial.now goal.now) }
    ensures text { (X : Target) → HasProblem X names.now initial.now goal.now → CanBeWritten X
        → IfOk result (λ text. IsProblemTextOf text.items (task_of X).problem) }
{
    let mut out = Vec::new(alloc);
    push(
        &mut out,
        "(define (problem compiled)\n(:domain compiled)\n(:init (= (total-cost) 0)",
    )?;
    push_set_atoms(&mut out, initial, names)?;
    push(&mut out, ")\n(:goal")?;
    let atoms = AtomTexts::of(alloc, names)?;
    push_form(&mut out, &atoms, goal)?;
    push(&mut out, ")\n(:metric minimize (total-cost)))\n")?;
    Ok(out)
}

pub(crate) fn push(out: &mut Vec<u8>, text: &str) -> Result<(), NoMemory>
    ensures { OnOk result (out.new.items ≡ out.old.items ++ text.now) }
{
    out.extend_from_slice(text.as_bytes())?;
    Ok(())
}

pub(crate) fn push_bytes(out: &mut Vec<u8>, bytes: &[u8]) -> Result<(), NoMemory>
    ensures { OnOk result (out.new.items ≡ out.old.items ++ bytes.now) }
{
    out.extend_from_slice(bytes)?;
    Ok(())
}

/// A form with a space before it, by a recursion as deep as the form.
#[cycle(forms)]
#[tactic(auto, using(crate::proofs::LayoutLemmas::text_laws, p3_formula::proofs::FormLemmas::below_laws))]
pub(crate) fn push_form(
    out: &mut Vec<u8>,
    atoms: &AtomTexts<'_>,
    form: &Form,
) -> Result<(), NoMemory>
    requires { IsBelow (length atoms.now) form.now }
    ensures { OnOk result (out.new.items ≡ out.old.items ++ (32 ∷ form_text atoms.now form.now)) }
{
    match form {
        Form::True => push(out, " (and)"),
        Form::False => push(out, " (or)"),
        Form::Atom(atom) => push_bytes(out, atoms.spaced(*atom)),
        Form::Not(part) => push_negated(out, atoms, part.get()),
        Form::And(parts) => push_joined(out, atoms, " (and", parts.items()),
        Form::Or(parts) => push_joined(out, atoms, " (or", parts.items()),
    }
}

#[cycle(forms)]
#[tactic(auto, using(crate::proofs::LayoutLemmas::negated_pushed))]
fn push_negated(out: &mut Vec<u8>, atoms: &AtomTexts<'_>, part: &Form) -> Result<(), NoMemory>
    requires { IsBelow (length atoms.now) part.now }
    ensures { OnOk result
        (out.new.items ≡ out.old.items ++ (32 ∷ negated_text (form_text atoms.now part.now))) }
{
    push(out, " (not")?;
    push_form(out, atoms, part)?;
    push(out, ")")
}

/// The parts behind a space, an opening parenthesis and a word, each with a space before it.
#[cycle(forms)]
fn push_joined(
    out: &mut Vec<u8>,
    atoms: &AtomTexts<'_>,
    head: &str,
    parts: &[Form],
) -> Result<(), NoMemory>
    requires { AreBelow (length atoms.now) parts.now }
    ensures { OnOk result
        (out.new.items ≡ out.old.items ++ joined_text atoms.now head.now parts.now) }
{
    push(out, head)?;
    push_forms(out, atoms, parts)?;
    push(out, ")")
}

/// The forms, each with a space before it.
#[cycle(forms)]
pub(crate) fn push_forms(
    out: &mut Vec<u8>,
    atoms: &AtomTexts<'_>,
    forms: &[Form],
) -> Result<(), NoMemory>
    requires { AreBelow (length atoms.now) forms.now }
    ensures { OnOk result (out.new.items
        ≡ out.old.items ++ spaced (map (form_text atoms.now) forms.now)) }
{
    for form in forms {
        push_form(out, atoms, form)?;
    }
    Ok(())
}

/// An atom that is set, or else its negation, with a space before it.
#[tactic(auto, using(crate::proofs::LayoutLemmas::negated_pushed))]
fn push_literal(
    out: &mut Vec<u8>,
    atoms: &AtomTexts<'_>,
    is_set: bool,
    atom: usize,
) -> Result<(), NoMemory>
    requires { atom < length atoms.now }
    ensures { OnOk result (out.new.items
        ≡ out.old.items ++ (32 ∷ literal_text is_set (slice_index_or atoms.now atom []))) }
{
    if is_set {
        push_bytes(out, atoms.spaced(atom))
    } else {
        push(out, " (not")?;
        push_bytes(out, atoms.spaced(atom))?;
        push(out, ")")
    }
}

/// A change with a space before it.
#[tactic(auto, using(crate::proofs::LayoutLemmas::when_pushed))]
fn push_change(out: &mut Vec<u8>, atoms: &AtomTexts<'_>, change: &Change) -> Result<(), NoMemory>
    requires { IsTrue (is_sized_change (length atoms.now) change.now) }
    ensures { OnOk result
        (out.new.items ≡ out.old.items ++ (32 ∷ change_text atoms.now change.now)) }
{
    match &change.cond {
        Form::True => push_literal(out, atoms, change.add, change.atom),
        condition => {
            push(out, " (when")?;
            push_form(out, atoms, condition)?;
            push_literal(out, atoms, change.add, change.atom)?;
            push(out, ")")
        }
    }
}

/// The changes, each with a space before it.
fn push_changes(
    out: &mut Vec<u8>,
    atoms: &AtomTexts<'_>,
    changes: &[Change],
) -> Result<(), NoMemory>
    requires { IsTrue (list_all (is_sized_change (length atoms.now)) changes.now) }
    ensures { OnOk result (out.new.items ≡ out.old.items ++ changes_text atoms.now changes.now) }
{
    for change in changes {
        push_change(out, atoms, change)?;
    }
    Ok(())
}

fn push_cost(out: &mut Vec<u8>, cost: u64) -> Result<(), NoMemory>
    ensures layout { OnOk result (out.new.items ≡ out.old.items ++ cost_text cost) }
    ensures small { OnOk result (cost < 2 ^ 64) }
{
    if cost == 0 {
        return Ok(());
    }
    push(out, " (increase (total-cost) ")?;
    push_number(out, cost)?;
    push(out, ")")
}

pub(crate) fn push_number(out: &mut Vec<u8>, number: u64) -> Result<(), NoMemory>
    ensures { OnOk result (out.new.items ≡ out.old.items ++ decimal number) }
{
    push(out, Buffer::new().format(number))
}

#[tactic(auto, using(crate::proofs::LayoutLemmas::action_laid))]
fn push_action(
    out: &mut Vec<u8>,
    atoms: &AtomTexts<'_>,
    action: &TargetAction,
) -> Result<(), NoMemory>
    requires { IsTrue (is_sized_action (length atoms.now) action.now) }
    ensures layout { OnOk result
        (out.new.items ≡ out.old.items ++ action_text atoms.now action.now) }
    ensures small { OnOk result (action.now.cost < 2 ^ 64) }
{
    push_action_head(out, &action.name)?;
    push_form(out, atoms, &action.pre)?;
    push_effect(out, atoms, action.effects.items(), action.cost)
}

fn push_action_head(out: &mut Vec<u8>, name: &Name) -> Result<(), NoMemory>
    ensures { OnOk result (out.new.items ≡ out.old.items ++ action_start name.now) }
{
    push(out, "(:action ")?;
    out.extend_from_slice(name.bytes())?;
    push(out, " :parameters ()\n :precondition")
}

/// What stands behind the precondition of an action.
pub(crate) fn push_effect(
    out: &mut Vec<u8>,
    atoms: &AtomTexts<'_>,
    changes: &[Change],
    cost: u64,
) -> Result<(), NoMemory>
    requires { IsTrue (list_all (is_sized_change (length atoms.now)) changes.now) }
    ensures layout { OnOk result
        (out.new.items ≡ out.old.items ++ action_end atoms.now changes.now cost) }
    ensures small { OnOk result (cost < 2 ^ 64) }
{
    push(out, "\n :effect (and")?;
    push_changes(out, atoms, changes)?;
    push_cost(out, cost)?;
    push(out, "))\n")
}

pub(crate) fn push_actions(
    out: &mut Vec<u8>,
    atoms: &AtomTexts<'_>,
    actions: &[TargetAction],
) -> Result<(), NoMemory>
    requires { IsTrue (list_all (is_sized_action (length atoms.now)) actions.now) }
    ensures layout { OnOk result
        (out.new.items ≡ out.old.items ++ actions_text atoms.now actions.now) }
    ensures small { OnOk result (IsTrue (list_all is_small actions.now)) }
{
    for action in actions {
        push_action(out, atoms, action)?;
    }
    Ok(())
}

fn push_set_atoms(out: &mut Vec<u8>, bits: &Bits, names: &[Name]) -> Result<(), NoMemory>
    requires { length bits.now ≡ length names.now }
    ensures { OnOk result (out.new.items ≡ out.old.items ++ set_atoms bits.now names.now) }
{
    for atom in 0..names.len() {
        push_set_atom(out, bits.get(atom), &names[atom])?;
    }
    Ok(())
}

fn push_set_atom(out: &mut Vec<u8>, is_set: bool, name: &Name) -> Result<(), NoMemory>
    ensures { OnOk result (out.new.items ≡ out.old.items ++ set_atom is_set name.now) }
{
    if is_set {
        push_atom(out, name)?;
    }
    Ok(())
}
