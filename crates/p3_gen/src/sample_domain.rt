//! The domain half, the same of every sample.

ghost use Rattle.std.specs.Prelude.{◌≡◌, IfOk, string_bytes};
ghost use Rattle.p3_tree.specs.Samples.{sample_domain};

use p3_base::NoMemory;
use std::alloc::Global;

/// A truck drives along roads, and packages are loaded and unloaded.
const DOMAIN: &str = "(define (domain delivery)
(:requirements :adl :preferences :constraints :action-costs)
(:types place package)
(:predicates (truck-at ?l - place) (at ?p - package ?l - place) (in ?p - package) (dest ?p - package ?l - place) (carrying))
(:functions (total-cost) - number (road ?a ?b - place) - number)
(:action drive :parameters (?a ?b - place) :precondition (truck-at ?a) :effect (and (not (truck-at ?a)) (truck-at ?b) (increase (total-cost) (road ?a ?b))))
(:action load :parameters (?p - package ?l - place) :precondition (and (truck-at ?l) (at ?p ?l) (preference calm (not (carrying)))) :effect (and (not (at ?p ?l)) (in ?p) (carrying) (increase (total-cost) 1)))
(:action unload :parameters (?p - package ?l - place) :precondition (and (truck-at ?l) (in ?p)) :effect (and (not (in ?p)) (at ?p ?l) (not (carrying)) (increase (total-cost) 1)))
)
";

pub(crate) fn domain_text(alloc: Global) -> Result<String, NoMemory>
    ensures { IfOk result (λ text. string_bytes text ≡ sample_domain) }
{
    Ok(String::from_str(alloc, DOMAIN)?)
}
