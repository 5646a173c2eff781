//! Monitors, and what rides on a step for them.

ghost use Rattle.std.specs.Prelude.{◌≡◌, ◌≤◌, ◌+◌, ◌*◌, ◌-◌, ◌^◌, ℕ, Bool, List, length, IfOk, true, false, ◌++◌};
ghost use Rattle.p3_formula.specs.Forms.{State, truth, is_set, nodes};
ghost use Rattle.p3_formula.specs.Next.{after};
ghost use Rattle.p3_formula.specs.declared.form.Change.{Change};
ghost use Rattle.p3_formula.specs.Kept.{atom_count, accepts, is_own};
ghost use Rattle.p3_formula.specs.Lasting.{stays_broken};
ghost use Rattle.p3_formula.specs.Modals.{IsModalBelow, modal_nodes, touches};
ghost use Rattle.p3_monitors.specs.Guards.{HasGuard, IsGuard, IsGuarding, may_break};
ghost use Rattle.p3_monitors.specs.KeepsOn.{HasNone, KeepsOn, AreOwn, HasConditions, HasAccept, condition_nodes, LeavesOthers, most_nodes};
ghost use Rattle.p3_monitors.specs.Updates.{IsTurned, IsUpdate, awaits};
ghost use Rattle.p3_monitors.specs.FormIndex.{IndexesForms};
ghost use Rattle.p3_regress.specs.Memory.{Extends};
ghost use Rattle.p3_regress.specs.Parts.{IndexesParts};
ghost use Rattle.p3_regress.specs.Turned.{may_turn};

use crate::constraint_atoms::reads;
use crate::forms::FormsByAtom;
use crate::guards::{not_back, not_early};
use crate::updates::{always, at_most_once, awaits, sometime, sometime_after, sometime_before};
use p3_base::{List, NoMemory};
use p3_formula::{Effects, Form, GroundModal, Table};
use p3_regress::{PartsByAtom, Regressed};
use std::alloc::Global;

/// A monitor of a trajectory constraint (the PDDL3 report). Its own atoms are those from the base
/// on, one for each initial bit.
#[derive(Debug, Drop)]
pub struct Monitor {
    /// The first of its own atoms.
    pub base: usize,
    /// Its bits at the initial state.
    pub initial: List<bool>,
    /// It holds exactly where the constraint is satisfied by the states visited so far.
    pub accept: Form,
    /// The constraint.
    pub modal: GroundModal,
    pub ghost below: { IsModalBelow base modal },
    pub ghost room: { base + atom_count modal ≤ 2 ^ 64 - 1 },
    pub ghost entries: { length initial ≡ atom_count modal },
    pub ghost accepting: { ∥ ((state : State) → truth state accept ≡ accepts base modal state) ∥₁ },
    pub ghost atoms: { ∥ HasAccept base modal accept ∥₁ },
}

impl Monitor {
    /// The changes of its own atoms that ride on a step.
    #[tactic(auto, using(crate::proofs::ChangeLaws::others_stay))]
    pub fn effects(&self, alloc: Global, step: &Effects) -> Result<Effects, NoMemory>
        requires apart { HasNone (is_own self.now.base self.now.modal) step.now }
        // With the step's changes and those of other monitors they keep the bits over one state
        // more.
        ensures kept { IfOk result (KeepsOn self.now.base self.now.modal step.now) }
        // They are of its own atoms.
        ensures own { IfOk result (AreOwn self.now.base self.now.modal) }
        // The other atoms are as without them.
        ensures others { IfOk result (LeavesOthers self.now.base self.now.modal step.now) }
        // They read no atoms but its own and those of the constraint and of the step's conditions.
        ensures atoms { IfOk result (HasConditions self.now.base self.now.modal step.now) }
        // They are few and small.
        ensures few { IfOk result (λ effects. length effects ≤ 2) }
        ensures size { IfOk result (λ effects.
            condition_nodes effects ≤ most_nodes step.now self.now.modal) }
    {
        let mut regressed = Regressed::open(alloc, Table::new(alloc), step)?;
        self.effects_in(alloc, &mut regressed)
    }

    /// The changes of its own atoms that ride on the step of a regression. Monitors that share the
    /// regression share what it answers.
    #[tactic(auto, using(crate::proofs::ChangeLaws::others_stay))]
    pub fn effects_in(&self, alloc: Global, regressed: &mut Regressed) -> Result<Effects, NoMemory>
        requires apart { HasNone (is_own self.now.base self.now.modal) regressed.old.effects }
        // With the step's changes and those of other monitors they keep the bits over one state
        // more.
        ensures kept { IfOk result (KeepsOn self.now.base self.now.modal regressed.old.effects) }
        // They are of its own atoms.
        ensures own { IfOk result (AreOwn self.now.base self.now.modal) }
        // The other atoms are as without them.
        ensures others { IfOk result
            (LeavesOthers self.now.base self.now.modal regressed.old.effects) }
        // They read no atoms but its own and those of the constraint and of the step's conditions.
        ensures atoms { IfOk result
            (HasConditions self.now.base self.now.modal regressed.old.effects) }
        // They are few and small.
        ensures few { IfOk result (λ effects. length effects ≤ 2) }
        ensures size { IfOk result (λ effects.
            condition_nodes effects ≤ most_nodes regressed.old.effects self.now.modal) }
        // The regression keeps its step, its nodes and its answers.
        ensures extends { Extends regressed.old regressed.new }
    {
        self.effects_by(alloc, regressed, &FormsByAtom::none(alloc))
    }

    /// The parts of the forms of its constraint by the atoms that they read, where they are many.
    pub fn by_atom(&self, alloc: Global) -> Result<FormsByAtom, NoMemory>
        ensures { IfOk result (IndexesForms self.now.modal) }
    {
        FormsByAtom::of(alloc, &self.modal)
    }

    /// Makes what `effects_in` makes, where the parts of the constraint's forms are looked up by
    /// atom.
    #[tactic(auto, using(crate::proofs::ChangeLaws::others_stay))]
    pub fn effects_by(
        &self,
        alloc: Global,
        regressed: &mut Regressed,
        by_atom: &FormsByAtom,
    ) -> Result<Effects, NoMemory>
        requires apart { HasNone (is_own self.now.base self.now.modal) regressed.old.effects }
        requires indexed { IndexesForms self.now.modal by_atom.now }
        ensures kept { IfOk result (KeepsOn self.now.base self.now.modal regressed.old.effects) }
        ensures own { IfOk result (AreOwn self.now.base self.now.modal) }
        ensures others { IfOk result
            (LeavesOthers self.now.base self.now.modal regressed.old.effects) }
        ensures atoms { IfOk result
            (HasConditions self.now.base self.now.modal regressed.old.effects) }
        ensures few { IfOk result (λ effects. length effects ≤ 2) }
        ensures size { IfOk result (λ effects.
            condition_nodes effects ≤ most_nodes regressed.old.effects self.now.modal) }
        ensures extends { Extends regressed.old regressed.new }
    {
        updates(alloc, &self.modal, self.base, regressed, by_atom)
    }

    /// Makes the form that holds before the step of a regression exactly where the step does not
    /// break the constraint. For a constraint that can be satisfied again later it always holds.
    pub fn guard(&self, alloc: Global, regressed: &mut Regressed) -> Result<Form, NoMemory>
        // While the constraint is satisfied, the form tells whether it is so after the step, too.
        ensures guards { IfOk result
            (IsGuard self.now.base self.now.modal regressed.old.effects) }
        // A constraint that can be satisfied again later needs no guard.
        ensures free { stays_broken self.now.modal ≡ false
            → IfOk result (λ guard. guard ≡ Form.True) }
        // Nor does one that the step cannot break.
        ensures still { may_break self.now.modal regressed.old.effects ≡ false
            → IfOk result (λ guard. guard ≡ Form.True) }
        // It reads no atoms but its own and those of the constraint and of the step's conditions.
        ensures atoms { IfOk result
            (HasGuard self.now.base self.now.modal regressed.old.effects) }
        // It is small.
        ensures size { IfOk result (λ guard.
            nodes guard ≤ most_nodes regressed.old.effects self.now.modal) }
        // The regression keeps its step, its nodes and its answers.
        ensures extends { Extends regressed.old regressed.new }
    {
        self.guard_by(alloc, regressed, &FormsByAtom::none(alloc))
    }

    /// Makes what `guard` makes, where the parts of the constraint's forms are looked up by atom.
    pub fn guard_by(
        &self,
        alloc: Global,
        regressed: &mut Regressed,
        by_atom: &FormsByAtom,
    ) -> Result<Form, NoMemory>
        requires indexed { IndexesForms self.now.modal by_atom.now }
        ensures guards { IfOk result
            (IsGuard self.now.base self.now.modal regressed.old.effects) }
        ensures free { stays_broken self.now.modal ≡ false
            → IfOk result (λ guard. guard ≡ Form.True) }
        ensures still { may_break self.now.modal regressed.old.effects ≡ false
            → IfOk result (λ guard. guard ≡ Form.True) }
        ensures atoms { IfOk result
            (HasGuard self.now.base self.now.modal regressed.old.effects) }
        ensures size { IfOk result (λ guard.
            nodes guard ≤ most_nodes regressed.old.effects self.now.modal) }
        ensures extends { Extends regressed.old regressed.new }
    {
        guard(alloc, &self.modal, self.base, regressed, by_atom)
    }

    /// Whether an atom that some change of the step names stands in a form of the constraint. It
    /// takes no memory. Where it does not, the monitor rides on the step with no changes.
    pub fn touched(&self, step: &Effects) -> bool
        ensures { result ≡ touches self.now.modal step.now }
    {
        step.items()
            .iter()
            .any(|change| reads(&self.modal, change.atom))
    }
}

/// The changes of the atoms from the base on, for that constraint.
fn updates(
    alloc: Global,
    modal: &GroundModal,
    base: usize,
    regressed: &mut Regressed,
    by_atom: &FormsByAtom,
) -> Result<Effects, NoMemory>
    requires below { IsModalBelow base modal.now }
    requires room { base + atom_count modal.now ≤ 2 ^ 64 - 1 }
    requires indexed { IndexesForms modal.now by_atom.now }
    ensures update { IfOk result (IsUpdate base modal.now regressed.old.effects) }
    ensures extends { Extends regressed.old regressed.new }
{
    let parts = &by_atom.first;
    match modal {
        GroundModal::AtEnd(_) => Ok(List::new(alloc)),
        GroundModal::Always(form) => {
            always(alloc, base, turned(alloc, regressed, form, false, parts)?)
        }
        GroundModal::Sometime(form) => {
            sometime(alloc, base, turned(alloc, regressed, form, true, parts)?)
        }
        GroundModal::AtMostOnce(form) => {
            at_most_once(
                alloc,
                base,
                form,
                turned(alloc, regressed, form, true, parts)?,
            )
        }
        GroundModal::SometimeAfter(first, second) => {
            let (met, awaited) = met_and_awaited(alloc, regressed, first, second, by_atom)?;
            sometime_after(alloc, base, met, awaited)
        }
        GroundModal::SometimeBefore(first, second) => {
            let (first, second) = both_turned(alloc, regressed, first, second, by_atom)?;
            sometime_before(alloc, base, first, second)
        }
    }
}

/// Makes the form that holds where the step does not break that constraint.
fn guard(
    alloc: Global,
    modal: &GroundModal,
    base: usize,
    regressed: &mut Regressed,
    by_atom: &FormsByAtom,
) -> Result<Form, NoMemory>
    requires below { IsModalBelow base modal.now }
    requires indexed { IndexesForms modal.now by_atom.now }
    ensures guarding { IfOk result (IsGuarding base modal.now regressed.old.effects) }
    ensures extends { Extends regressed.old regressed.new }
{
    let parts = &by_atom.first;
    match modal {
        GroundModal::Always(form) => turned(alloc, regressed, form, false, parts),
        GroundModal::AtMostOnce(form) => {
            not_back(
                alloc,
                base,
                form,
                turned(alloc, regressed, form, true, parts)?,
            )
        }
        GroundModal::SometimeBefore(first, _) => {
            not_early(alloc, base, turned(alloc, regressed, first, true, parts)?)
        }
        GroundModal::AtEnd(_) | GroundModal::Sometime(_) | GroundModal::SometimeAfter(_, _) => {
            Ok(Form::True)
        }
    }
}

/// The form that tells before the step where it turns this one true, or else false. What the
/// monitor's atoms say of the state before accounts for where it does not.
fn turned(
    alloc: Global,
    regressed: &mut Regressed,
    form: &Form,
    up: bool,
    by_atom: &PartsByAtom,
) -> Result<Form, NoMemory>
    requires { IndexesParts form.now by_atom.now }
    ensures made { IfOk result (IsTurned up regressed.old.effects form.now) }
    ensures extends { Extends regressed.old regressed.new }
{
    regressed.turned_by(alloc, form, up, by_atom)
}

/// The forms that tell before the step where it turns these true.
#[tactic(auto, using(p3_regress::proofs::MemoryLemmas::extends_trans))]
fn both_turned(
    alloc: Global,
    regressed: &mut Regressed,
    first: &Form,
    second: &Form,
    by_atom: &FormsByAtom,
) -> Result<(Form, Form), NoMemory>
    requires first { IndexesParts first.now by_atom.now.first }
    requires second { IndexesParts second.now by_atom.now.second }
    ensures first { IfOk result (λ both. IsTurned true regressed.old.effects first.now both.0) }
    ensures second { IfOk result (λ both. IsTurned true regressed.old.effects second.now both.1) }
    ensures extends { Extends regressed.old regressed.new }
{
    let first = turned(alloc, regressed, first, true, &by_atom.first)?;
    let second = turned(alloc, regressed, second, true, &by_atom.second)?;
    Ok((first, second))
}

/// Whether the step may make the first hold without the second, where it does not so far.
#[tactic(auto, using(crate::proofs::PossibleLaws::awaits_turn))]
fn may_await(
    alloc: Global,
    regressed: &Regressed,
    first: &Form,
    second: &Form,
    by_atom: &FormsByAtom,
) -> Result<bool, NoMemory>
    requires first { IndexesParts first.now by_atom.now.first }
    requires second { IndexesParts second.now by_atom.now.second }
    ensures { IfOk result (λ may.
        may ≡ may_turn regressed.now.effects true (awaits first.now second.now)) }
{
    if regressed.may_turn_by(alloc, first, true, &by_atom.first)? {
        return Ok(true);
    }
    regressed.may_turn_by(alloc, second, false, &by_atom.second)
}

/// The form that tells before the step where it makes the first hold without the second.
#[tactic(auto, using(crate::proofs::PossibleLaws::still_turned))]
fn awaited(
    alloc: Global,
    regressed: &mut Regressed,
    first: &Form,
    second: &Form,
    by_atom: &FormsByAtom,
) -> Result<Form, NoMemory>
    requires first { IndexesParts first.now by_atom.now.first }
    requires second { IndexesParts second.now by_atom.now.second }
    ensures made { IfOk result
        (IsTurned true regressed.old.effects (awaits first.now second.now)) }
    ensures extends { Extends regressed.old regressed.new }
{
    if !may_await(alloc, regressed, first, second, by_atom)? {
        return Ok(Form::False);
    }
    let unmet = awaits(alloc, first, second)?;
    turned(alloc, regressed, &unmet, true, &PartsByAtom::none(alloc))
}

/// The forms that tell before the step where it makes the second hold, and where it makes the first
/// hold without the second.
#[tactic(auto, using(p3_regress::proofs::MemoryLemmas::extends_trans))]
fn met_and_awaited(
    alloc: Global,
    regressed: &mut Regressed,
    first: &Form,
    second: &Form,
    by_atom: &FormsByAtom,
) -> Result<(Form, Form), NoMemory>
    requires first { IndexesParts first.now by_atom.now.first }
    requires second { IndexesParts second.now by_atom.now.second }
    ensures met { IfOk result (λ both. IsTurned true regressed.old.effects second.now both.0) }
    ensures awaited { IfOk result (λ both.
        IsTurned true regressed.old.effects (awaits first.now second.now) both.1) }
    ensures extends { Extends regressed.old regressed.new }
{
    let met = turned(alloc, regressed, second, true, &by_atom.second)?;
    let awaited = awaited(alloc, regressed, first, second, by_atom)?;
    Ok((met, awaited))
}
