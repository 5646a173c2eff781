//! The steps of a checked task.

ghost use Rattle.std.specs.Prelude.{◌≡◌, ◌+◌, ◌-◌, ◌<◌, ◌≤◌, [], ◌∷◌, min, length};
ghost use Rattle.std.specs.Prelude.{slice_index_or, IfOk};
ghost use Rattle.p3_base.specs.declared.refusal.Side.TheVariants.{Written};
ghost use Rattle.p3_lexer.specs.StepWords.{words_left};
ghost use Rattle.p3_task.specs.Limits.{step_count as count_of_steps};
ghost use Rattle.p3_task.specs.PlanTexts.{IsPlanText};
ghost use Rattle.p3_task.specs.Sides.{byte_limit, step_count_limit};
ghost use Rattle.p3_task.specs.StepNumbers.{HasNumber};
ghost use Rattle.p3_task.specs.declared.task.Step.{Step as PlanStep};
ghost use Rattle.p3_types.specs.Finds.{IsBlockAt, IsFound, IsNumberAt, IsStepAt};
ghost use Rattle.p3_types.specs.FirstSteps.{too_many};

use crate::finding::{Block, choice_number};
use crate::name_order::find_name;
use crate::steps::{chosen, copied, interval_of, names_of};
use crate::words::choice_of_words;
use crate::{Checked, Found};
use p3_base::{List, Name, NoMemory, as_number};
use p3_lexer::Lexer;
use p3_task::Step;
use std::alloc::Global;

impl Checked {
    /// The number of each action's first step, and behind them how many steps there are.
    fn table(&self) -> &[u32]
        ensures table { result.now ≡ self.now.first_steps.items }
        ensures len { length result.now ≡ length self.now.task.domain.actions + 1 }
        ensures actions { length self.now.numbered.actions ≡ length self.now.task.domain.actions }
        ensures start { slice_index_or result.now 0 0 ≡ 0 }
        ensures last { slice_index_or result.now (length result.now - 1) 0
            ≡ min (count_of_steps self.now.task) too_many }
    {
        self.first_steps.as_slice()
    }

    /// How many steps there are, or 20,000,001 where there are more.
    pub fn step_count(&self) -> u32
        ensures { result ≡ min (count_of_steps self.now.task) too_many }
    {
        let table = self.table();
        table[table.len() - 1]
    }

    /// The step of a number by numbers: the place of its action, and its objects.
    ///
    /// # Errors
    ///
    /// Want of memory.
    pub fn placed(&self, alloc: Global, number: u32) -> Result<(u32, List<u32>), NoMemory>
        requires few { count_of_steps self.now.task ≤ step_count_limit }
        requires within { number < count_of_steps self.now.task }
        ensures { IfOk result (λ placed. IsStepAt
            self.now.task self.now.numbered.numbers number placed.0 placed.1) }
    {
        let table = self.table();
        let place = interval_of(table, number);
        let first = table[place];
        let count = table[place + 1] - first;
        let numbered = &self.numbered.actions.items()[place];
        let objects = chosen(
            alloc,
            &self.numbered.numbers,
            numbered.ranges.items(),
            number - first,
            count,
        )?;
        let action = as_number(place)?;
        Ok((action, List::from(objects)))
    }

    /// The step of a number.
    pub fn step(&self, alloc: Global, number: u32) -> Result<Step, NoMemory>
        requires few { count_of_steps self.now.task ≤ step_count_limit }
        requires within { number < count_of_steps self.now.task }
        ensures { IfOk result (λ step. HasNumber self.now.task step number) }
    {
        let (place, objects) = self.placed(alloc, number)?;
        let args = names_of(alloc, &self.numbered.numbers, objects.items())?;
        let actions = self.task.domain.actions.items();
        let action = copied(alloc, &actions[place as usize].name.name)?;
        Ok(Step { action, args })
    }

    /// The choices of arguments of the action at that place.
    fn block(&self, place: usize) -> Block<'_>
        requires few { count_of_steps self.now.task ≤ step_count_limit }
        requires within { place < length self.now.task.domain.actions }
        ensures { IsBlockAt self.now.task self.now.numbered.numbers place result }
    {
        let table = self.table();
        let first = table[place];
        let count = table[place + 1] - first;
        let action = &self.numbered.actions.items()[place];
        let ranges = action.ranges.items();
        Block {
            ranges,
            first,
            count,
        }
    }

    /// The number of the step of the action at that place with these arguments.
    fn number_at(&self, place: usize, args: &[Name]) -> Option<u32>
        requires few { count_of_steps self.now.task ≤ step_count_limit }
        requires within { place < length self.now.task.domain.actions }
        ensures { IsNumberAt self.now.task place args.now result }
    {
        let block = self.block(place);
        let order = self.objects_in_order.as_slice();
        let numbers = &self.numbered.numbers;
        match choice_number(numbers, order, block.ranges, args, block.count) {
            Some(number) => Some(block.first + number),
            None => None,
        }
    }

    /// The number of the step of the action at that place with the words that come next.
    fn number_of_words(&self, place: usize, lexer: &mut Lexer<'_>) -> Option<u32>
        requires few { count_of_steps self.now.task ≤ step_count_limit }
        requires within { place < length self.now.task.domain.actions }
        ensures { IsNumberAt self.now.task place (words_left lexer.old) result }
    {
        let block = self.block(place);
        let order = self.objects_in_order.as_slice();
        let numbers = &self.numbered.numbers;
        match choice_of_words(numbers, order, block.ranges, lexer, block.count) {
            Some(number) => Some(block.first + number),
            None => None,
        }
    }

    /// As what a step is found: by its number, where it has one.
    pub fn find(&self, step: &Step) -> Found
        requires few { count_of_steps self.now.task ≤ step_count_limit }
        ensures { IsFound self.now.task step.now result }
    {
        let actions = self.task.domain.actions.items();
        let order = self.actions_in_order.as_slice();
        let Some(place) = find_name(actions, order, step.action.bytes()) else {
            return Found::UnknownAction;
        };
        match self.number_at(place as usize, step.args.items()) {
            Some(number) => Found::Number(number),
            None => Found::Arguments,
        }
    }

    /// As what the step of a text is found, from its `(` to its `)`: by its number, where it has
    /// one. It takes no memory.
    pub fn find_text(&self, text: &[u8]) -> Found
        requires few { count_of_steps self.now.task ≤ step_count_limit }
        requires short { length text.now ≤ byte_limit Written }
        ensures { (step : PlanStep)
            → IsPlanText text.now (step ∷ []) → IsFound self.now.task step result }
    {
        let mut lexer = Lexer::new(text);
        let _open = lexer.next();
        let Some(word) = lexer.next_word() else {
            return Found::UnknownAction;
        };
        let actions = self.task.domain.actions.items();
        let Some(place) = find_name(actions, self.actions_in_order.as_slice(), word) else {
            return Found::UnknownAction;
        };
        let Some(number) = self.number_of_words(place as usize, &mut lexer) else {
            return Found::Arguments;
        };
        Found::Number(number)
    }
}
