//! The text of the domain half of a task, which may be written while its actions are made.

ghost use Rattle.std.specs.Prelude.{◌≡◌, ◌∷◌, ◌++◌, [], length, IsTrue, IfOk, OnOk};
ghost use Rattle.std.specs.List.{list_all};
ghost use Rattle.p3_base.specs.Words.{is_name, is_predicate_name};
ghost use Rattle.p3_formula.specs.Targets.{IsSized, action_names, is_sized_action};
ghost use Rattle.p3_formula.specs.declared.target.Target.{Target};
ghost use Rattle.p3_writer.specs.CopyText.{copied_action};
ghost use Rattle.p3_writer.specs.DomainText.{HasAllActions, first_text, with_actions};
ghost use Rattle.p3_writer.specs.Layout.{domain_layout, is_small};
ghost use Rattle.p3_writer.specs.TaskOf.{task_of};
ghost use Rattle.p3_writer.specs.Texts.{AreSpelled, CanBeWritten, IsDomainTextOf};

use crate::atom_texts::AtomTexts;
use crate::copy_text::{CopyParts, push_copy};
use crate::layout::{push, push_actions, push_bytes};
use p3_base::{Name, NoMemory};
use p3_formula::{Target, TargetAction};
use std::alloc::Global;
use std::marker::Model;

/// The text of a domain of which some actions are written.
#[derive(Drop)]
pub struct DomainText<'n> {
    atoms: AtomTexts<'n>,
    text: Vec<u8>,
}

impl<'n> Model for DomainText<'n> {
    ghost use Rattle.p3_writer.specs.DomainText.{BegunDomain};

    ghost Value = { BegunDomain };

    ghost view = { λ domain. record { names = domain.atoms; text = domain.text.items } };
}

impl<'n> DomainText<'n> {
    /// Writes all that stands before the first action of a domain with these predicates.
    pub fn begin(alloc: Global, names: &'n [Name]) -> Result<DomainText<'n>, NoMemory>
        ensures { IfOk result (λ domain. domain ≡ first_text names.now) }
    {
        let mut text = Vec::new(alloc);
        push(
            &mut text,
            "(define (domain compiled)\n(:requirements :adl :action-costs)\n(:predicates",
        )?;
        let atoms = AtomTexts::of(alloc, names)?;
        push_bytes(&mut text, atoms.all())?;
        push(&mut text, ")\n(:functions (total-cost) - number)\n")?;
        Ok(DomainText { atoms, text })
    }

    /// Writes actions behind those before.
    pub fn push(&mut self, actions: &[TargetAction]) -> Result<(), NoMemory>
        requires { IsTrue (list_all (is_sized_action (length self.old.names)) actions.now) }
        ensures layout { OnOk result (self.new ≡ with_actions self.old actions.now) }
        ensures small { OnOk result (IsTrue (list_all is_small actions.now)) }
    {
        push_actions(&mut self.text, &self.atoms, actions)
    }

    /// Writes the action of a copy of a step behind those before.
    pub fn push_copy(&mut self, copy: &CopyParts<'_>) -> Result<(), NoMemory>
        requires { IsTrue (is_sized_action (length self.old.names) (copied_action copy.now)) }
        ensures layout { OnOk result
            (self.new ≡ with_actions self.old (copied_action copy.now ∷ [])) }
        ensures small { OnOk result (IsTrue (is_small (copied_action copy.now))) }
    {
        push_copy(&mut self.text, &self.atoms, copy)
    }

    /// Writes what stands behind the last action, and gives the whole text.
    pub fn finish(self) -> Result<Vec<u8>, NoMemory>
        ensures layout { (X : Target) → HasAllActions X self.entry
            → IfOk result (λ text. text.items ≡ domain_layout X) }
        ensures text { (X : Target) → HasAllActions X self.entry → CanBeWritten X
            → IfOk result (λ text. IsDomainTextOf text.items (task_of X).domain) }
    {
        let DomainText { atoms, text } = self;
        drop(atoms);
        let mut text = text;
        push(&mut text, ")\n")?;
        Ok(text)
    }
}

/// The text of the domain half of the target's task.
pub fn write_domain(alloc: Global, target: &Target) -> Result<Vec<u8>, NoMemory>
    requires sized { IsSized target.now }
    requires predicates { IsTrue (list_all is_predicate_name target.now.predicates) }
    requires actions { IsTrue (list_all is_name (action_names target.now)) }
    requires spelled { AreSpelled (target.now.predicates ++ action_names target.now) }
    ensures layout { IfOk result (λ text. text.items ≡ domain_layout target.now) }
    ensures text { IfOk result (λ text. IsDomainTextOf text.items (task_of target.now).domain) }
{
    let mut domain = DomainText::begin(alloc, target.predicates.items())?;
    domain.push(target.actions.items())?;
    domain.finish()
}
