//! Conditions, each with its opposite.

ghost use Rattle.std.specs.Prelude.{◌≡◌, IfOk};
ghost use Rattle.std.specs.List.{All};
ghost use Rattle.p3_flat.specs.Splitting.{IsLiteral, conditions_in};

use p3_base::{List, NoMemory};
use p3_formula::{Form, copied, negate};
use std::alloc::Global;

/// A condition, and a form that holds where it does not.
#[derive(Debug, Drop)]
pub(crate) struct Literal {
    /// The condition.
    pub(crate) holds: Form,
    /// Its opposite.
    pub(crate) fails: Form,
}

/// Makes the condition with its opposite.
fn with_opposite(alloc: Global, condition: &Form) -> Result<Literal, NoMemory>
    ensures holds { IfOk result (λ literal. literal.holds ≡ condition.now) }
    ensures is { IfOk result IsLiteral }
{
    let holds = copied(alloc, condition)?;
    let fails = negate(alloc, condition)?;
    Ok(Literal { holds, fails })
}

/// Makes the literals of conditions.
pub(crate) fn literals_of(alloc: Global, conditions: &List<Form>) -> Result<List<Literal>, NoMemory>
    ensures conditions { IfOk result (λ literals. conditions_in literals ≡ conditions.now) }
    ensures are { IfOk result (All IsLiteral) }
{
    let mut literals = Vec::with_capacity(alloc, conditions.len())?;
    for condition in conditions.items() {
        literals.push(with_opposite(alloc, condition)?)?;
    }
    Ok(List::from(literals))
}
