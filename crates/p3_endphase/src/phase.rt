//! The actions of the end phase (Keyder and Geffner).

ghost use Rattle.std.specs.Prelude.{◌≡◌, ◌≤◌, ◌+◌, ◌^◌, ◌-◌, codes, length, not, [], ◌∷◌, IfOk, OnOk, ◌++◌, string_bytes};
ghost use Rattle.std.specs.Str.{str_to_ascii_lowercase};
ghost use Rattle.p3_base.specs.Limits.{instance_limit};
ghost use Rattle.p3_formula.specs.Forms.{IsBelow, truth};
ghost use Rattle.p3_formula.specs.Guards.{AllAreTidy};
ghost use Rattle.p3_endphase.specs.Ends.{AreBelow, collect_name, forgo_name, IsMove, Settles, AreActions, HasSettling, IsEndPhase, EndsOneWay, EndsNoWay, OneFits, MovesOn, IsGuarded, AllMoveForward, AllAreAllowed};

use p3_base::{List, Name, NoMemory};
use p3_formula::{Form, TargetAction, copied, guarding, negate, turned};
use std::alloc::Global;

/// A preference instance at the end of a plan.
#[derive(Debug, Drop)]
pub struct SoftEnd {
    /// It is satisfied where this holds.
    pub accept: Form,
    /// What its violation costs.
    pub weight: u64,
}

/// The end phase: its own atoms, its actions and its goal.
#[derive(Debug, Drop)]
pub struct EndPhase {
    /// How many atoms are its own: the running atom, and the chain.
    pub atoms: usize,
    /// `finish`, and `collect<k>` and `forgo<k>` for each instance k.
    pub actions: List<TargetAction>,
    /// The last chain atom.
    pub goal: Form,
}

/// The end phase of some instances, where a plan may end as the form says. Its own atoms begin with
/// the first one: the running atom, and behind it the chain.
pub fn end_phase(
    alloc: Global,
    finish: &Form,
    instances: &List<SoftEnd>,
    first_atom: usize,
) -> Result<EndPhase, NoMemory>
    requires finish { IsBelow first_atom finish.now }
    requires accept { AreBelow first_atom instances.now }
    requires room { first_atom + length instances.now + 2 ≤ 2 ^ 64 - 1 }
    requires few { length instances.now ≤ instance_limit }
    // What its actions are.
    ensures actions { IfOk result (IsEndPhase finish.now instances.now first_atom) }
    // From a running state where the plan may end, one list of actions leads to the goal, at the
    // weights of what is violated. From another none does.
    ensures one_end { IfOk result (EndsOneWay first_atom finish.now instances.now) }
    ensures no_end { IfOk result (EndsNoWay first_atom finish.now) }
    // The atom that is set moves on, and one action at most fits.
    ensures one_fits { IfOk result (OneFits first_atom) }
    ensures moves_on { IfOk result (MovesOn first_atom) }
    // Where they may fit, what they change, and what they read.
    ensures guarded { IfOk result (λ phase. IsGuarded first_atom phase.atoms phase.actions) }
    ensures changes { IfOk result (AllMoveForward first_atom) }
    ensures atoms { IfOk result (AllAreAllowed finish.now instances.now first_atom) }
    ensures tidy { IfOk result (λ phase. AllAreTidy phase.actions) }
{
    let finish = copied(alloc, finish)?;
    end_phase_taking(alloc, finish, instances, first_atom)
}

/// The same, where it takes the form, so that a large goal is not in memory twice. That its actions
/// are these is all that `end_phase` says of it; the other clauses follow.
fn end_phase_taking(
    alloc: Global,
    finish: Form,
    instances: &List<SoftEnd>,
    first_atom: usize,
) -> Result<EndPhase, NoMemory>
    requires { first_atom + length instances.now + 2 ≤ 2 ^ 64 - 1 }
    ensures { IfOk result (IsEndPhase finish instances.now first_atom) }
{
    let mut actions = finishing(alloc, finish, first_atom)?;
    push_settling(alloc, &mut actions, instances, first_atom)?;
    Ok(EndPhase {
        atoms: instances.len() + 2,
        actions,
        goal: Form::Atom(first_atom + 1 + instances.len()),
    })
}

/// Makes the actions of an end phase that settles nothing: `finish` alone. It takes the form, so
/// that a large goal is not in memory twice.
pub fn finishing(
    alloc: Global,
    finish: Form,
    first_atom: usize,
) -> Result<List<TargetAction>, NoMemory>
    requires { first_atom + 1 ≤ 2 ^ 64 - 1 }
    ensures { IfOk result (AreActions first_atom finish []) }
{
    let mut actions = List::with_capacity(alloc, 1)?;
    actions.push(finish_action(alloc, finish, first_atom)?)?;
    Ok(actions)
}

/// Makes the actions that settle the instance of that number: `collect<k>` and `forgo<k>`.
pub fn settling(
    alloc: Global,
    instance: &SoftEnd,
    number: usize,
    first_atom: usize,
) -> Result<List<TargetAction>, NoMemory>
    requires { first_atom + number + 2 ≤ 2 ^ 64 - 1 }
    ensures { IfOk result (Settles first_atom number (instance.now ∷ [])) }
{
    let mut actions = List::with_capacity(alloc, 2)?;
    actions.push(collect_action(alloc, instance, number, first_atom)?)?;
    actions.push(forgo_action(alloc, instance, number, first_atom)?)?;
    Ok(actions)
}

/// Puts the actions that settle the instances behind the others.
pub fn push_settling(
    alloc: Global,
    actions: &mut List<TargetAction>,
    instances: &List<SoftEnd>,
    first_atom: usize,
) -> Result<(), NoMemory>
    requires { first_atom + length instances.now + 2 ≤ 2 ^ 64 - 1 }
    ensures { OnOk result (HasSettling first_atom instances.now actions.old actions.new) }
{
    for number in 0..instances.len() {
        let own = settling(alloc, &instances.items()[number], number, first_atom)?;
        push_all(actions, own)?;
    }
    Ok(())
}

/// Puts more actions behind the others.
fn push_all(actions: &mut List<TargetAction>, more: List<TargetAction>) -> Result<(), NoMemory>
    ensures { OnOk result (actions.new ≡ actions.old ++ more) }
{
    for action in more.into_items() {
        actions.push(action)?;
    }
    Ok(())
}

/// The plan ends: the running atom gives way to the first of the chain.
fn finish_action(alloc: Global, finish: Form, first_atom: usize) -> Result<TargetAction, NoMemory>
    requires { first_atom + 1 ≤ 2 ^ 64 - 1 }
    ensures { IfOk result
        (IsMove first_atom finish (λ state. truth state finish) (codes "finish") 0) }
{
    let name = Name::of(alloc, b"finish".as_slice())?;
    moving(alloc, name, first_atom, finish, 0)
}

#[tactic(auto, using(crate::proofs::ActionLemmas::lowered_collect))]
fn collect_name(alloc: Global, number: usize) -> Result<String, NoMemory>
    ensures name { IfOk result (λ name. string_bytes name ≡ collect_name number) }
    ensures lowered { str_to_ascii_lowercase (collect_name number) ≡ collect_name number }
{
    Ok(format!(in alloc; "collect{number}")?)
}

#[tactic(auto, using(crate::proofs::ActionLemmas::lowered_forgo))]
fn forgo_name(alloc: Global, number: usize) -> Result<String, NoMemory>
    ensures name { IfOk result (λ name. string_bytes name ≡ forgo_name number) }
    ensures lowered { str_to_ascii_lowercase (forgo_name number) ≡ forgo_name number }
{
    Ok(format!(in alloc; "forgo{number}")?)
}

/// The instance is satisfied.
fn collect_action(
    alloc: Global,
    instance: &SoftEnd,
    number: usize,
    first_atom: usize,
) -> Result<TargetAction, NoMemory>
    requires { first_atom + number + 2 ≤ 2 ^ 64 - 1 }
    ensures { IfOk result
        (IsMove (first_atom + (number + 1)) instance.now.accept (λ state.
        truth state instance.now.accept) (collect_name number) 0) }
{
    let name = Name::of(alloc, collect_name(alloc, number)?.as_bytes())?;
    let condition = copied(alloc, &instance.accept)?;
    moving(alloc, name, first_atom + (number + 1), condition, 0)
}

/// The instance is not satisfied, which costs its weight.
fn forgo_action(
    alloc: Global,
    instance: &SoftEnd,
    number: usize,
    first_atom: usize,
) -> Result<TargetAction, NoMemory>
    requires { first_atom + number + 2 ≤ 2 ^ 64 - 1 }
    ensures { IfOk result
        (IsMove (first_atom + (number + 1)) instance.now.accept (λ state.
        not (truth state instance.now.accept)) (forgo_name number) instance.now.weight) }
{
    let condition = negate(alloc, &instance.accept)?;
    let name = Name::of(alloc, forgo_name(alloc, number)?.as_bytes())?;
    moving(
        alloc,
        name,
        first_atom + (number + 1),
        condition,
        instance.weight,
    )
}

/// An action that moves the set atom on where a condition holds.
fn moving(
    alloc: Global,
    name: Name,
    atom: usize,
    condition: Form,
    cost: u64,
) -> Result<TargetAction, NoMemory>
    requires { atom + 1 ≤ 2 ^ 64 - 1 }
    ensures { IfOk result
        (IsMove atom condition (λ state. truth state condition) name cost) }
{
    let pre = guarding(alloc, [atom].as_slice(), condition)?;
    let effects = turned(List::new(alloc), [atom].as_slice(), [atom + 1].as_slice())?;
    Ok(TargetAction {
        name,
        pre,
        effects,
        cost,
    })
}
