//! Headings with the literals that answers tell.

ghost use Rattle.std.specs.Prelude.{◌≡◌, ◌++◌, drop, flat_map, if◌then◌else◌, length, map};
ghost use Rattle.std.specs.Prelude.{option_map, option_to_list, IfOk, OnOk};
ghost use Rattle.std.specs.Prelude.{List as Items};
ghost use Rattle.p3_numbers.specs.declared.task.NumberedTask.{NumberedTask as Numbered};
ghost use Rattle.p3_reasons.specs.declared.visited.PlacedStep.{PlacedStep as Placed};
ghost use Rattle.p3_scenes.specs.Questions.{answer_to};
ghost use Rattle.p3_unmet.specs.Sketches.{
  decisions_of,
  heading_of,
  heading_with,
  headings_with,
  seen_asked,
  seen_draft,
  seen_inquiry,
  state_with,
  states_with,
};

use crate::bindings::bindings_of;
use crate::draft::{Draft, Inquiry};
use crate::untaken::Untaken;
use p3_accounts::{Heading, Shown, ShownState};
use p3_base::{List, NoMemory};
use p3_numbers::NumberedTask;
use p3_reasons::{Decision, PlacedStep};
use p3_scenes::{Asked, Question, answers};
use std::alloc::Global;

/// Gives what is asked for a shorter time.
fn lent<'s, 't: 's>(asked: Asked<'t>) -> Asked<'s>
    ensures { seen_asked result ≡ seen_asked asked.entry }
{
    match asked {
        Asked::Condition(condition) => Asked::Condition(condition),
        Asked::HardPart(goal) => Asked::HardPart(goal),
    }
}

/// Puts the questions of a draft behind the others.
fn push_questions<'s, 't: 's>(
    draft: &'s Draft<'t>,
    questions: &mut List<Question<'s>>,
) -> Result<(), NoMemory>
    ensures { OnOk result ((X : Numbered) (steps : Items Placed)
        → map (answer_to X steps) questions.new
        ≡ map (answer_to X steps) questions.old ++ decisions_of X steps (seen_draft draft.now)) }
{
    let slots = draft.bindings.objects.items();
    for inquiry in draft.inquiries.items() {
        questions.push(Question {
            state: inquiry.state,
            asked: lent(inquiry.asked),
            slots,
        })?;
    }
    Ok(())
}

/// Asks the questions of all drafts.
fn questions<'s, 't: 's>(
    alloc: Global,
    drafts: &'s [Draft<'t>],
) -> Result<List<Question<'s>>, NoMemory>
    ensures { IfOk result (λ questions. (X : Numbered) (steps : Items Placed)
        → map (answer_to X steps) questions
        ≡ flat_map (decisions_of X steps) (map seen_draft drafts.now)) }
{
    let mut questions = List::new(alloc);
    for draft in drafts {
        push_questions(draft, &mut questions)?;
    }
    Ok(questions)
}

/// Shows a state with the literals of an answer.
fn shown_state(inquiry: &Inquiry<'_>, decision: Decision) -> ShownState
    ensures { result ≡ state_with (seen_inquiry inquiry.now) decision }
{
    let Decision { holds: _, literals } = decision;
    ShownState {
        state: inquiry.state,
        operand: inquiry.operand,
        literals,
    }
}

/// Puts a state behind the others with the literals of its answer, where there is one.
fn push_state(
    states: &mut List<ShownState>,
    inquiry: &Inquiry<'_>,
    answer: Option<Decision>,
) -> Result<(), NoMemory>
    ensures { OnOk result (states.new ≡ states.old
        ++ option_to_list (option_map (state_with (seen_inquiry inquiry.now)) answer)) }
{
    if let Some(decision) = answer {
        states.push(shown_state(inquiry, decision))?;
    }
    Ok(())
}

/// Shows the states that were asked about, each with the next answer.
fn shown_states(
    alloc: Global,
    inquiries: &[Inquiry<'_>],
    answers: &mut Untaken,
) -> Result<List<ShownState>, NoMemory>
    ensures states { IfOk result
        (λ states. states ≡ states_with (map seen_inquiry inquiries.now) answers.old) }
    ensures left { OnOk result (answers.new ≡ drop (length inquiries.now) answers.old) }
{
    let mut states = List::new(alloc);
    for inquiry in inquiries {
        let answer = answers.next();
        push_state(&mut states, inquiry, answer)?;
    }
    Ok(states)
}

/// Makes the heading of a draft with the next answers.
fn heading(alloc: Global, draft: &Draft<'_>, answers: &mut Untaken) -> Result<Heading, NoMemory>
    ensures heading { IfOk result
        (λ heading. heading ≡ heading_with (seen_draft draft.now) answers.old) }
    ensures left { OnOk result (answers.new ≡ drop (length draft.now.inquiries) answers.old) }
{
    let bindings = bindings_of(alloc, &draft.bindings)?;
    let states = shown_states(alloc, draft.inquiries.items(), answers)?;
    Ok(Heading {
        spot: draft.spot,
        subject: draft.concern.subject(bindings),
        shown: shown(draft.nowhere, states),
    })
}

/// Gives where it shows.
fn shown(nowhere: bool, states: List<ShownState>) -> Shown
    ensures { result ≡ (if nowhere then Shown.Nowhere else Shown.States states) }
{
    if nowhere {
        Shown::Nowhere
    } else {
        Shown::States(states)
    }
}

/// Makes the headings of drafts, each with its answers.
fn headings(
    alloc: Global,
    drafts: &[Draft<'_>],
    answers: &mut Untaken,
) -> Result<List<Heading>, NoMemory>
    ensures { IfOk result
        (λ headings. headings ≡ headings_with (map seen_draft drafts.now) answers.old) }
{
    let mut headings = List::new(alloc);
    for draft in drafts {
        headings.push(heading(alloc, draft, answers)?)?;
    }
    Ok(headings)
}

/// Makes the headings of drafts with the literals that decide what they ask, which are found in one
/// run over the plan.
pub(crate) fn told(
    alloc: Global,
    task: &NumberedTask,
    steps: &[PlacedStep],
    drafts: &[Draft<'_>],
) -> Result<List<Heading>, NoMemory>
    ensures { IfOk result (λ headings. headings
        ≡ map (heading_of task.now steps.now) (map seen_draft drafts.now)) }
{
    let questions = questions(alloc, drafts)?;
    let found = answers(alloc, task, steps, questions.items())?;
    let mut found = Untaken::of(found);
    headings(alloc, drafts, &mut found)
}
