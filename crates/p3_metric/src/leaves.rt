//! The forms of numbers, counts and the total cost.

ghost use Rattle.std.specs.Prelude.{◌≡◌, pos, true, false, IfOk};
ghost use Rattle.p3_metric.specs.Forms.{IsLeaf, nothing_each, one_each};

use crate::entries::{no_entries, one_entry};
use crate::linear::Linear;
use p3_base::NoMemory;
use p3_numbers::Key;
use std::alloc::Global;

/// The form of a number.
pub(crate) fn constant<'t>(alloc: Global, key: Key, digits: u64, places: u32) -> Linear<'t>
    ensures { IsLeaf places (pos digits) (pos 0) nothing_each false result }
{
    Linear {
        places,
        constant: i128::from(digits),
        cost: 0,
        counts: no_entries(alloc, key),
        mention: false,
    }
}

/// The form of the total cost, which has so many decimal places.
pub(crate) fn total_cost<'t>(alloc: Global, key: Key, places: u32) -> Linear<'t>
    ensures { IsLeaf places (pos 0) (pos 1) nothing_each true result }
{
    Linear {
        places,
        constant: 0,
        cost: 1,
        counts: no_entries(alloc, key),
        mention: true,
    }
}

/// The form of a count.
pub(crate) fn count<'t>(alloc: Global, key: Key, name: &'t [u8]) -> Result<Linear<'t>, NoMemory>
    ensures { IfOk result (IsLeaf 0 (pos 0) (pos 0) (one_each name.now) true) }
{
    Ok(Linear {
        places: 0,
        constant: 0,
        cost: 0,
        counts: one_entry(alloc, key, name)?,
        mention: true,
    })
}
