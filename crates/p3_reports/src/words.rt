//! The words by which lines name what is found.

ghost use Rattle.std.specs.Prelude.{◌≡◌};
ghost use Rattle.p3_tree.specs.Reports.Lines.{role_name};
ghost use Rattle.p3_tree.specs.Reports.Plans.{misfit_name};
ghost use Rattle.p3_tree.specs.Reports.Refusals.{code_text};
ghost use Rattle.p3_tree.specs.Reports.Tasks.{direction_name};
ghost use Rattle.p3_reports.specs.Faults.{misfit_of};

use crate::fault::Misfit;
use p3_base::{Code, Direction, Role};

/// Names a file.
pub(crate) fn role_word(role: Role) -> &'static str
    ensures { result.now ≡ role_name role }
{
    match role {
        Role::Domain => "domain",
        Role::Problem => "problem",
        Role::WrittenDomain => "written-domain",
        Role::WrittenProblem => "written-problem",
        Role::Plan => "plan",
    }
}

/// Names a direction.
pub(crate) fn direction_word(direction: Direction) -> &'static str
    ensures { result.now ≡ direction_name direction }
{
    match direction {
        Direction::Minimize => "minimize",
        Direction::Maximize => "maximize",
    }
}

/// Says why a step does not fit.
pub(crate) fn misfit_words(misfit: Misfit) -> &'static str
    ensures { result.now ≡ misfit_name (misfit_of misfit) }
{
    match misfit {
        Misfit::UnknownAction => "unknown action",
        Misfit::Arguments => "arguments",
        Misfit::Precondition => "precondition",
        Misfit::NoCost => "no cost",
    }
}

/// Gives the number and the text of a code.
pub(crate) fn code_words(code: Code) -> &'static str
    ensures { result.now ≡ code_text code }
{
    match code {
        Code::BadByte => "1 bad byte",
        Code::Unbalanced => "2 unbalanced",
        Code::TooDeep => "3 too deep",
        Code::Construct => "4 construct",
        Code::Malformed => "5 malformed",
        Code::Duplicate => "6 duplicate",
        Code::Unknown => "7 unknown",
        Code::Arity => "8 arity",
        Code::TypeClash => "9 type clash",
        Code::NegativeWeight => "10 negative weight",
        Code::NonLinear => "11 not linear",
        Code::NumberTooLong => "12 number too long",
        Code::CostTooLarge => "13 cost too large",
        Code::TooManyInstances => "14 too many instances",
        Code::FormulaTooLarge => "15 formula too large",
        Code::TooManyPreferences => "16 too many preferences",
        Code::SplitTooWide => "17 split too wide",
        Code::TooManySteps => "18 too many steps",
        Code::NotPlain => "19 not plain",
        Code::Mismatch => "20 mismatch",
        Code::FileTooLong => "21 file too long",
        Code::FlatTooWide => "22 flat too wide",
    }
}
