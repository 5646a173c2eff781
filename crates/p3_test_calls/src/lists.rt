//! Lists that tests are made of.

use p3_base::{List, NoMemory};
use std::alloc::Global;

/// Makes a list of one item.
pub(crate) fn one<T: Drop>(alloc: Global, item: T) -> Result<List<T>, NoMemory> {
    let mut list = List::new(alloc);
    list.push(item)?;
    Ok(list)
}
