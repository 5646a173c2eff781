//! Reading a half of a task, of the whole grammar.

ghost use Rattle.std.specs.Prelude.{◌≡◌, ◌≤◌, length, IfOk, IfErr};
ghost use Rattle.p3_task.specs.Grammar.Halves.{domain_place, problem_place};
ghost use Rattle.p3_task.specs.Refusals.First.{HalfText, IsReadable};
ghost use Rattle.p3_task.specs.Sides.{InDomain, InProblem, role_of, byte_limit};
ghost use Rattle.p3_outline.specs.Nodes.{expression_of};
ghost use Rattle.p3_syntax.specs.First.{IsFirstOf, StandsIn};
ghost use Rattle.p3_syntax.specs.Reading.{Gives};
ghost use Rattle.p3_syntax.specs.Texts.{IsHalfText};

use crate::first::readable;
use crate::tree::domains::domain;
use crate::tree::problems::problem;
use p3_base::{NoMemory, Role, Side};
use p3_outline::ReadFail;
use p3_task::{Domain, Problem};
use std::alloc::Global;

fn domain_role(side: Side) -> Role
    ensures { result ≡ role_of side InDomain }
{
    match side {
        Side::Source => Role::Domain,
        Side::Written => Role::WrittenDomain,
    }
}

fn problem_role(side: Side) -> Role
    ensures { result ≡ role_of side InProblem }
{
    match side {
        Side::Source => Role::Problem,
        Side::Written => Role::WrittenProblem,
    }
}

/// The domain half that a text spells, or the first refusal of the text.
pub fn read_domain(alloc: Global, side: Side, text: &[u8]) -> Result<Domain, ReadFail>
    requires short { length text.now ≤ byte_limit side }
    // It is the one tree that the text has in the grammar.
    ensures text { IfOk result (λ domain. IsHalfText domain_place text.now domain) }
    // A text is read where it shows no refusal by itself, and refused at the first that it shows.
    ensures readable { IfOk result (λ _. IsReadable (HalfText side InDomain text.now)) }
    ensures refused { IfErr result (IsFirstOf (HalfText side InDomain text.now)) }
    // It names the file, and the word at fault stands in the text.
    ensures place { IfErr result (StandsIn (role_of side InDomain) text.now) }
{
    let outline = readable(alloc, domain_role(side), text)?;
    match domain(alloc, outline.root()) {
        Ok(domain) => Ok(domain),
        Err(NoMemory) => Err(ReadFail::NoMemory),
    }
}

/// The problem half that a text spells, or the first refusal of the text.
pub fn read_problem(alloc: Global, side: Side, text: &[u8]) -> Result<Problem, ReadFail>
    requires short { length text.now ≤ byte_limit side }
    // It is the one tree that the text has in the grammar.
    ensures text { IfOk result (λ problem. IsHalfText problem_place text.now problem) }
    // A text is read where it shows no refusal by itself, and refused at the first that it shows.
    ensures readable { IfOk result (λ _. IsReadable (HalfText side InProblem text.now)) }
    ensures refused { IfErr result (IsFirstOf (HalfText side InProblem text.now)) }
    // It names the file, and the word at fault stands in the text.
    ensures place { IfErr result (StandsIn (role_of side InProblem) text.now) }
{
    let outline = readable(alloc, problem_role(side), text)?;
    match problem(alloc, outline.root()) {
        Ok(problem) => Ok(problem),
        Err(NoMemory) => Err(ReadFail::NoMemory),
    }
}
