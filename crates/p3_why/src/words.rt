//! The names of files, as they were given.

ghost use Rattle.std.specs.Prelude.{◌≡◌};
ghost use Rattle.p3_why.specs.Accounts.{name_of};

use p3_base::Word;

/// Gives the name at a place, or no bytes where there is none.
pub(crate) fn name_at(names: &[Word], place: usize) -> &[u8]
    ensures { result.now ≡ name_of names.now place }
{
    match names.get(place) {
        Some(name) => name.bytes(),
        None => &[],
    }
}
