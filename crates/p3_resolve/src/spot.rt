//! The word of least offset.

ghost use Rattle.std.specs.Prelude.{◌≡◌, fold};
ghost use Rattle.p3_task.specs.Offences.{unless as unless_passing};
ghost use Rattle.p3_resolve.specs.Spots.{step};

use p3_task::Ref;

/// A word of a text.
#[derive(Clone, Copy)]
pub(crate) struct Spot {
    /// Its offset.
    pub(crate) at: u32,
    /// How many bytes it has.
    pub(crate) len: usize,
}

/// The first offences that were found.
#[derive(Clone, Copy)]
pub(crate) struct FirstOffences {
    /// The first name that is declared twice.
    pub(crate) duplicate: Option<Spot>,
    /// The first name that is not declared.
    pub(crate) unknown: Option<Spot>,
    /// The first predicate or function with a wrong number of arguments.
    pub(crate) miscount: Option<Spot>,
    /// The first argument that does not fit its parameter.
    pub(crate) clash: Option<Spot>,
}

/// The spot of a word.
fn spot_of(word: &Ref) -> Spot
    ensures { result ≡ Rattle.p3_resolve.specs.Spots.spot_of word.now }
{
    Spot {
        at: word.at,
        len: word.name.bytes().len(),
    }
}

/// The word, where it stands before the one that was found.
fn noted(found: Option<Spot>, word: &Ref) -> Option<Spot>
    ensures { result ≡ step found word.now }
{
    match found {
        None => Some(spot_of(word)),
        Some(spot) => Some(if word.at < spot.at {
            spot_of(word)
        } else {
            spot
        }),
    }
}

/// The word, where the test does not pass.
pub(crate) fn unless(found: Option<Spot>, passes: bool, word: &Ref) -> Option<Spot>
    ensures { result ≡ fold step found (unless_passing passes word.now) }
{
    if passes {
        return found;
    }
    noted(found, word)
}
