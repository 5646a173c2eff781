//! Which expressions mention a count or the total cost, and the first product of two of them.

ghost use Rattle.std.specs.Prelude.{◌≡◌, ◌||◌, if◌then◌else◌};
ghost use Rattle.std.specs.Option.{option_or};
ghost use Rattle.std.specs.List.{list_any};
ghost use Rattle.p3_metric.specs.Factors.{
  first_product,
  first_product_in,
  has_mention,
  have_two_mentions,
};

use p3_task::Num;

/// What is found in an expression, or in several.
#[derive(Clone, Copy)]
pub(crate) struct Mentions {
    /// Whether a count or the total cost is mentioned.
    pub(crate) mention: bool,
    /// The offset of the first product with two factors that each mention one.
    pub(crate) product: Option<u32>,
}

/// What is found in several expressions.
#[derive(Clone, Copy)]
struct MentionsIn {
    /// What is found in all of them together.
    found: Mentions,
    /// Whether two of them each mention a count or the total cost.
    two_mentions: bool,
}

/// What is found in the expression, an outer product before an inner one.
#[cycle(factors)]
#[tactic(auto, using(crate::proofs::FactorLemmas::factor_laws))]
pub(crate) fn found_in(tree: &Num) -> Mentions
    ensures mention { result.mention ≡ has_mention tree.now }
    ensures product { result.product ≡ first_product tree.now }
{
    match tree {
        Num::Number(_) => Mentions {
            mention: false,
            product: None,
        },
        Num::TotalCost(_) => Mentions {
            mention: true,
            product: None,
        },
        Num::Violated(_) => Mentions {
            mention: true,
            product: None,
        },
        Num::Neg(_, part) => found_in(part.get()),
        Num::Sub(_, first, second) => both(found_in(first.get()), found_in(second.get())),
        Num::Sum(_, parts) => found_in_all(parts.items()).found,
        Num::Product(at, parts) => product_of(*at, found_in_all(parts.items())),
    }
}

/// What is found in two expressions.
fn both(first: Mentions, second: Mentions) -> Mentions
    ensures mention { result.mention ≡ (first.mention || second.mention) }
    ensures product { result.product ≡ option_or first.product second.product }
{
    Mentions {
        mention: first.mention || second.mention,
        product: first.product.or(second.product),
    }
}

/// What is found in a product of such factors.
fn product_of(at: u32, factors: MentionsIn) -> Mentions
    ensures mention { result.mention ≡ factors.found.mention }
    ensures product { result.product
        ≡ (if factors.two_mentions then Some at else factors.found.product) }
{
    Mentions {
        mention: factors.found.mention,
        product: if factors.two_mentions {
            Some(at)
        } else {
            factors.found.product
        },
    }
}

/// What is found in the expressions.
#[cycle(factors)]
#[tactic(auto, using(crate::proofs::FactorLemmas::more_laws))]
fn found_in_all(parts: &[Num]) -> MentionsIn
    ensures mention { result.found.mention ≡ list_any has_mention parts.now }
    ensures product { result.found.product ≡ first_product_in parts.now }
    ensures two_mentions { result.two_mentions ≡ have_two_mentions parts.now }
{
    let mut all = Mentions {
        mention: false,
        product: None,
    };
    let mut two_mentions = false;
    for part in parts {
        let found = found_in(part);
        two_mentions |= all.mention & found.mention;
        all = both(all, found);
    }
    MentionsIn {
        found: all,
        two_mentions,
    }
}
