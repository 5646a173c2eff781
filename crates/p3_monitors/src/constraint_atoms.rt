//! The atoms that stand in a constraint.

ghost use Rattle.std.specs.Prelude.{◌≡◌};
ghost use Rattle.p3_formula.specs.Modals.{is_read};

use p3_base::Operands;
use p3_formula::{GroundModal, is_free_of};

/// Whether the atom stands in one of the forms of the constraint. It takes no memory.
#[tactic(auto, using(p3_base::proofs::OperatorLaws::formulas_unary, p3_base::proofs::OperatorLaws::formulas_binary))]
pub(crate) fn reads(modal: &GroundModal, atom: usize) -> bool
    ensures { result ≡ is_read modal.now atom }
{
    match modal.operands() {
        Operands::One(_, form) => !is_free_of(form, atom),
        Operands::Two(_, first, second) => !is_free_of(second, atom) || !is_free_of(first, atom),
    }
}
