//! Laws of bindings. Each is the contract of a function without a body.

ghost use Rattle.p3_unmet.specs.Bindings.{PairsBind};

/// Variables with objects, pair by pair, make the environment that they make apart.
pub fn pairs_bind()
    ensures { PairsBind }
{}
