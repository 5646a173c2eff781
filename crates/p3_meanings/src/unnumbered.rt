//! What names stand for, before they have numbers.

ghost use Rattle.std.specs.Prelude.{◌≡◌, IfOk};
ghost use Rattle.p3_meanings.specs.Heard.{numbered_from};

use p3_accounts::{Meaning, Meant, Spot};
use p3_base::{List, NoMemory, as_number};
use std::alloc::Global;

/// What a name stands for, and where that stands, where it is known.
#[derive(Debug, Drop)]
pub(crate) struct Unnumbered {
    pub(crate) spot: Option<Spot>,
    pub(crate) of: Meant,
}

/// Numbers names in order, from 0 on.
pub(crate) fn numbered(alloc: Global, items: List<Unnumbered>) -> Result<List<Meaning>, NoMemory>
    ensures { IfOk result (λ meanings. meanings ≡ numbered_from 0 items) }
{
    let mut meanings = List::with_capacity(alloc, items.len())?;
    for item in items.into_items() {
        let number = as_number(meanings.len())?;
        meanings.push(with_number(item, number))?;
    }
    Ok(meanings)
}

/// Gives it a number.
fn with_number(item: Unnumbered, number: u32) -> Meaning
    ensures { result ≡ record { spot = item.spot; number = number; of = item.of } }
{
    let Unnumbered { spot, of } = item;
    Meaning { spot, number, of }
}
