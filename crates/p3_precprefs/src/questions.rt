//! The chain of a wide step: one question after another takes the place of copies.

ghost use Rattle.std.specs.Prelude.{◌≡◌, ◌≤◌, ◌<◌, ◌+◌, ◌^◌, ◌++◌, true, false, length, sum_by, codes, decimal, string_bytes, IfOk, OnOk, IsSome};
ghost use Rattle.std.specs.List.{list_all};
ghost use Rattle.std.specs.Str.{str_to_ascii_lowercase};
ghost use Rattle.p3_base.specs.Copies as named;
ghost use Rattle.p3_base.specs.Copies.{copy_prefix};
ghost use Rattle.p3_formula.specs.Conditions.{is_step_below, width_limit, weight_bound};
ghost use Rattle.p3_formula.specs.Guards.{AllAreTidy};
ghost use Rattle.p3_formula.specs.Targets.{is_sized_change};
ghost use Rattle.p3_formula.specs.Weighted as weigh;
ghost use Rattle.p3_precprefs.specs.Questions as made;

use crate::weighing::{weight_of, weighted_cost};
use p3_base::{List, Name, NoMemory};
use p3_formula::{
    Effects, Form, GroundStep, TargetAction, Weights, copied, effects_copied, guarded, turned,
};
use std::alloc::Global;

/// The chain of a step with many weighted preferences, in the place of its copies: `s<i>v` begins,
/// `q<i>y<k>` and `q<i>n<k>` answer whether weighted preference k holds, and `q<i>end` ends with
/// the effects. The question atoms stand from the first one on.
pub fn ask(
    alloc: Global,
    step: &GroundStep,
    effects: &Effects,
    weights: &Weights,
    go: usize,
    first: usize,
    current: usize,
) -> Result<List<TargetAction>, NoMemory>
    requires cost { IsSome step.now.cost }
    requires names { weigh.AreNamedBelow (length weights.now.by_name) step.now.prefs }
    requires wide { 9 ≤ weigh.width_of weights.now.by_name step.now }
    requires few { weigh.width_of weights.now.by_name step.now ≤ width_limit }
    requires room { weigh.weighted_cost weights.now step.now + sum_by
        (weigh.weight_of weights.now.by_name) step.now.prefs < weight_bound }
    requires step { is_step_below go step.now ≡ true }
    requires effects { list_all (is_sized_change go) effects.now ≡ true }
    requires questions { go < first }
    requires current { first + width_limit < current }
    // What its actions are.
    ensures actions { IfOk result (made.IsChain go first current weights.now step.now effects.now) }
    // From open bits where the step fits, one list of them leads back to open bits; else none fits.
    ensures one_way { IfOk result
        (made.LeadsOneWay go first current weights.now step.now effects.now) }
    ensures no_way { IfOk result (made.LeadsNoWay go first current step.now) }
    // Where they may fit, and that one at most does.
    ensures guarded { IfOk result (made.IsGuarded go current) }
    ensures one_fits { IfOk result (made.OneFits go first current) }
    ensures stays_proper { IfOk result (made.StaysProper go first current) }
    // What they change and read.
    ensures changes { IfOk result (made.AllChangeOwn go first current effects.now) }
    ensures atoms { IfOk result (made.AllAreAllowed go first current step.now effects.now) }
    ensures tidy { IfOk result AllAreTidy }
{
    chain(alloc, step, effects, weights, go, first, current)
}

/// The chain.
fn chain(
    alloc: Global,
    step: &GroundStep,
    effects: &Effects,
    weights: &Weights,
    go: usize,
    first: usize,
    current: usize,
) -> Result<List<TargetAction>, NoMemory>
    requires names { weigh.AreNamedBelow (length weights.now.by_name) step.now.prefs }
    requires few { weigh.width_of weights.now.by_name step.now ≤ width_limit }
    requires room { weigh.weighted_cost weights.now step.now < weight_bound }
    requires current { first + width_limit < current }
    ensures { IfOk result (made.IsChain go first current weights.now step.now effects.now) }
{
    let mut actions = List::new(alloc);
    actions.push(begin_action(alloc, step, go, first, current)?)?;
    let count = push_questions(alloc, &mut actions, step, &weights.by_name, first, current)?;
    let cost = weighted_cost(weights.total_cost, step.cost);
    let ending = end_action(
        alloc,
        step.number,
        effects,
        go,
        first + count,
        current,
        cost,
    )?;
    actions.push(ending)?;
    Ok(actions)
}

/// The answers to all questions stand behind the others. Answers how many questions there are.
fn push_questions(
    alloc: Global,
    actions: &mut List<TargetAction>,
    step: &GroundStep,
    by_name: &List<u64>,
    first: usize,
    current: usize,
) -> Result<usize, NoMemory>
    requires names { weigh.AreNamedBelow (length by_name.now) step.now.prefs }
    requires few { weigh.width_of by_name.now step.now ≤ width_limit }
    requires current { first + width_limit < current }
    ensures count { IfOk result (λ count. count ≡ weigh.width_of by_name.now step.now) }
    ensures pushed { OnOk result
        (made.IsAsked first current step.now.number by_name.now
        (weigh.weighted by_name.now step.now.prefs) actions.old actions.new) }
{
    let mut place = 0;
    for pref in step.prefs.items() {
        let weight = weight_of(by_name, pref);
        if weight > 0 {
            let at = Question {
                number: step.number,
                place,
                first,
                current,
            };
            push_answers(alloc, actions, &at, &pref.body, weight)?;
            place += 1;
        }
    }
    Ok(place)
}

/// Where a question stands.
#[derive(Drop)]
struct Question {
    /// The number of the step.
    number: u32,
    /// The place of the preference among those that have a weight.
    place: usize,
    /// The first question atom.
    first: usize,
    /// The current atom.
    current: usize,
}

/// Both answers to a question stand behind the others.
fn push_answers(
    alloc: Global,
    actions: &mut List<TargetAction>,
    at: &Question,
    body: &Form,
    weight: u64,
) -> Result<(), NoMemory>
    requires { at.now.first + at.now.place + 1 < 2 ^ 64 }
    ensures { OnOk result
        (made.HasBothAnswers at.now.first at.now.current at.now.number at.now.place body.now weight
        actions.old actions.new) }
{
    let agree = answer_action(alloc, at, body, true, 0)?;
    let deny = answer_action(alloc, at, body, false, weight)?;
    actions.push(agree)?;
    actions.push(deny)?;
    Ok(())
}

/// The step begins.
fn begin_action(
    alloc: Global,
    step: &GroundStep,
    go: usize,
    first: usize,
    current: usize,
) -> Result<TargetAction, NoMemory>
    ensures { IfOk result (made.IsBegin go first current step.now) }
{
    let name = begin_name(alloc, step.number)?;
    let pre = guarded(alloc, [go].as_slice(), &step.pre)?;
    let effects = turned(
        List::new(alloc),
        [go].as_slice(),
        [first, current].as_slice(),
    )?;
    Ok(link(name, pre, effects, 0))
}

/// An answer to a question.
fn answer_action(
    alloc: Global,
    at: &Question,
    body: &Form,
    holds: bool,
    cost: u64,
) -> Result<TargetAction, NoMemory>
    requires { at.now.first + at.now.place + 1 < 2 ^ 64 }
    ensures { IfOk result
        (made.IsAnswer at.now.first at.now.current at.now.number at.now.place holds body.now cost) }
{
    let atom = at.first + at.place;
    let next = at.first + (at.place + 1);
    let name = answer_name(alloc, at.number, at.place, holds)?;
    let condition = signed(alloc, body, holds)?;
    let pre = guarded(alloc, [atom, at.current].as_slice(), &condition)?;
    let effects = turned(List::new(alloc), [atom].as_slice(), [next].as_slice())?;
    Ok(link(name, pre, effects, cost))
}

/// The effects are made.
fn end_action(
    alloc: Global,
    number: u32,
    effects: &Effects,
    go: usize,
    last: usize,
    current: usize,
    cost: u64,
) -> Result<TargetAction, NoMemory>
    ensures { IfOk result (made.IsEnd go last current number effects.now cost) }
{
    let name = end_name(alloc, number)?;
    let pre = guarded(alloc, [last, current].as_slice(), &Form::True)?;
    let effects = effects_copied(alloc, effects)?;
    let effects = turned(effects, [last, current].as_slice(), [go].as_slice())?;
    Ok(link(name, pre, effects, cost))
}

/// The action of these parts.
fn link(name: Name, pre: Form, effects: Effects, cost: u64) -> TargetAction
    ensures { result ≡ record { name = name; pre = pre; effects = effects; cost = cost } }
{
    TargetAction {
        name,
        pre,
        effects,
        cost,
    }
}

/// The form, or its negation.
fn signed(alloc: Global, form: &Form, holds: bool) -> Result<Form, NoMemory>
    ensures { IfOk result (λ new. new ≡ made.signed_form holds form.now) }
{
    let form = copied(alloc, form)?;
    if holds {
        Ok(form)
    } else {
        Form::negation(alloc, form)
    }
}

#[tactic(auto, using(crate::proofs::NameLaws::lowered_begin))]
fn begin_text(alloc: Global, number: u32) -> Result<String, NoMemory>
    ensures text { IfOk result (λ text.
        string_bytes text ≡ codes "s" ++ (decimal number ++ codes "v")) }
    ensures lowered { str_to_ascii_lowercase (codes "s" ++ (decimal number ++ codes "v"))
        ≡ codes "s" ++ (decimal number ++ codes "v") }
{
    Ok(format!(in alloc; "s{number}v")?)
}

#[tactic(auto, using(crate::proofs::NameLaws::lowered_agree))]
fn agree_text(alloc: Global, number: u32, place: usize) -> Result<String, NoMemory>
    ensures text { IfOk result (λ text.
        string_bytes text ≡ named.answer_name true number place) }
    ensures lowered { str_to_ascii_lowercase (named.answer_name true number place)
        ≡ named.answer_name true number place }
{
    Ok(format!(in alloc; "q{number}y{place}")?)
}

#[tactic(auto, using(crate::proofs::NameLaws::lowered_deny))]
fn deny_text(alloc: Global, number: u32, place: usize) -> Result<String, NoMemory>
    ensures text { IfOk result (λ text.
        string_bytes text ≡ named.answer_name false number place) }
    ensures lowered { str_to_ascii_lowercase (named.answer_name false number place)
        ≡ named.answer_name false number place }
{
    Ok(format!(in alloc; "q{number}n{place}")?)
}

#[tactic(auto, using(crate::proofs::NameLaws::lowered_end))]
fn end_text(alloc: Global, number: u32) -> Result<String, NoMemory>
    ensures text { IfOk result (λ text. string_bytes text ≡ named.end_name number) }
    ensures lowered { str_to_ascii_lowercase (named.end_name number) ≡ named.end_name number }
{
    Ok(format!(in alloc; "q{number}end")?)
}

/// `s`, the number and `v`.
#[tactic(auto, using(crate::proofs::NameLaws::prefix_joined))]
fn begin_name(alloc: Global, number: u32) -> Result<Name, NoMemory>
    ensures { IfOk result (λ name. name ≡ copy_prefix number) }
{
    Name::of(alloc, begin_text(alloc, number)?.as_bytes())
}

/// `q`, the number, `y` or `n`, and the place.
fn answer_name(alloc: Global, number: u32, place: usize, holds: bool) -> Result<Name, NoMemory>
    ensures { IfOk result (λ name. name ≡ named.answer_name holds number place) }
{
    if holds {
        Name::of(alloc, agree_text(alloc, number, place)?.as_bytes())
    } else {
        Name::of(alloc, deny_text(alloc, number, place)?.as_bytes())
    }
}

/// `q`, the number and `end`.
fn end_name(alloc: Global, number: u32) -> Result<Name, NoMemory>
    ensures { IfOk result (λ name. name ≡ named.end_name number) }
{
    Name::of(alloc, end_text(alloc, number)?.as_bytes())
}
