//! Changes by rising atom.

ghost use Rattle.std.specs.Prelude.{◌≡◌, Bool, IfOk};
ghost use Rattle.std.specs.List.{list_any};
ghost use Rattle.std.specs.List.Sorted.{IsPermutation};
ghost use Rattle.p3_regress.specs.Regressed.{atom_after, is_of};
ghost use Rattle.p3_regress.specs.Sorted.{lent, IsRising};

use p3_base::NoMemory;
use p3_formula::Change;
use std::alloc::Global;

/// The changes, each lent.
fn all_lent<'e>(alloc: Global, changes: &'e [Change]) -> Result<Vec<&'e Change>, NoMemory>
    ensures { IfOk result (λ all. lent all.items ≡ changes.now) }
{
    let mut all = Vec::with_capacity(alloc, changes.len())?;
    for change in changes {
        all.push(change)?;
    }
    Ok(all)
}

/// The changes by rising atom.
pub(crate) fn by_atom<'e>(alloc: Global, changes: &'e [Change]) -> Result<Vec<&'e Change>, NoMemory>
    ensures same { IfOk result (λ sorted. IsPermutation changes.now (lent sorted.items)) }
    ensures rising { IfOk result (λ sorted. IsRising sorted.items) }
{
    let mut sorted = all_lent(alloc, changes)?;
    sorted.sort_by_key(|change| change.atom)?;
    Ok(sorted)
}

/// The changes of the atom, found by halving.
pub(crate) fn changes_of<'a, 'e>(changes: &'a [&'e Change], atom: usize) -> &'a [&'e Change]
    requires { IsRising changes.now }
    ensures after { atom_after (lent result.now) atom ≡ atom_after (lent changes.now) atom }
    ensures named { (add : Bool) → list_any (is_of add atom) (lent result.now)
        ≡ list_any (is_of add atom) (lent changes.now) }
{
    let start = changes.partition_point(|change| change.atom < atom);
    let rest = &changes[start..];
    let count = rest.partition_point(|change| change.atom <= atom);
    &rest[..count]
}
