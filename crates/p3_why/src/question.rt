//! Questions, and what they read.

ghost use Rattle.std.specs.Prelude.{◌≡◌};
ghost use Rattle.p3_why.specs.Questions.{question_of, roles_of, word_of};

use p3_base::Role;

/// What is asked of a task.
#[derive(Clone, Copy, Debug, PartialEq, Eq)]
pub enum Question {
    /// Why a plan is not valid, or what it costs.
    Plan,
    /// What the names of its written task stand for.
    Names,
}

/// All questions.
const QUESTIONS: &[Question] = &[Question::Plan, Question::Names];

/// Gives the word of a question.
fn word_of(question: Question) -> &'static [u8]
    ensures { result.now ≡ word_of question }
{
    match question {
        Question::Plan => b"plan",
        Question::Names => b"names",
    }
}

/// Gives what the files are that a question reads, in order.
pub(crate) fn roles_of(question: Question) -> &'static [Role]
    ensures { result.now ≡ roles_of question }
{
    match question {
        Question::Plan => &[Role::Domain, Role::Problem, Role::Plan],
        Question::Names => &[Role::Domain, Role::Problem],
    }
}

/// Finds the question of a word. It takes no memory.
pub(crate) fn question_of(word: &[u8]) -> Option<Question>
    ensures { result ≡ question_of word.now }
{
    QUESTIONS
        .iter()
        .copied()
        .find(|question| word_of(*question) == word)
}
