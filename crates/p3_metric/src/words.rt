//! Refusals at words of a metric.

ghost use Rattle.std.specs.Prelude.{◌≡◌, IfOk};
ghost use Rattle.p3_metric.specs.Evaluation.{refused_at};

use p3_base::{Code, NoMemory, Refusal, Role};
use p3_limits::{name_len, refusal_at};
use p3_task::Num;

/// The refusal of an expression that is too large, at its operator or at its only word.
#[tactic(auto, using(crate::proofs::WordLaws::refused_words))]
pub(crate) fn refusal_at_operator(role: Role, tree: &Num) -> Result<Refusal, NoMemory>
    ensures { IfOk result (λ refusal. refusal ≡ refused_at role tree.now) }
{
    let code = Code::CostTooLarge;
    match tree {
        Num::Number(numeral) => Ok(refusal_at(code, role, numeral.at, 0)),
        Num::TotalCost(at) => Ok(refusal_at(code, role, *at, 10)),
        Num::Violated(name) => Ok(refusal_at(code, role, name.at, name_len(&name.name)?)),
        Num::Neg(at, _) => Ok(refusal_at(code, role, *at, 1)),
        Num::Sub(at, _, _) => Ok(refusal_at(code, role, *at, 1)),
        Num::Sum(at, _) => Ok(refusal_at(code, role, *at, 1)),
        Num::Product(at, _) => Ok(refusal_at(code, role, *at, 1)),
    }
}
