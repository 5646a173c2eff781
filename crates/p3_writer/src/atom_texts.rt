//! The texts of atoms, made once.

ghost use Rattle.std.specs.Prelude.{◌≡◌, ◌<◌, ◌≤◌, ◌-◌, ◌∷◌, ◌++◌, [], drop, length, take, slice_index_or, IfOk, OnOk};
ghost use Rattle.p3_writer.specs.Layout.{atom_text, headers_text};
ghost use Rattle.p3_writer.specs.AtomTexts.{IsPool};

use p3_base::{Name, NoMemory};
use std::alloc::Global;
use std::marker::Model;

/// The texts of the atoms of some names, each with a space before it, one behind the other.
#[derive(Drop)]
struct Pool {
    text: Vec<u8>,
    /// Where each of them begins, and where the last one ends.
    starts: Vec<usize>,
}

/// The texts of the atoms of some names.
#[derive(Drop)]
pub(crate) struct AtomTexts<'n> {
    names: &'n [Name],
    pool: Pool,
}

impl<'n> Model for AtomTexts<'n> {
    ghost use Rattle.std.specs.Prelude.{List};
    ghost use Rattle.p3_base.specs.Words.{Name};
    ghost use Rattle.p3_writer.specs.AtomTexts.{IsPool};

    ghost Value = { List Name };

    ghost view = { λ atoms. atoms.names.now };

    ghost invariant = { λ atoms.
        IsPool atoms.names.now atoms.pool.text.items atoms.pool.starts.items };
}

/// The text of an atom stands behind the others, with a space before it.
pub(crate) fn push_atom(text: &mut Vec<u8>, name: &Name) -> Result<(), NoMemory>
    ensures { OnOk result (text.new.items ≡ text.old.items ++ (32 ∷ atom_text name.now)) }
{
    text.extend_from_slice(b" (")?;
    text.extend_from_slice(name.bytes())?;
    text.push(b')')?;
    Ok(())
}

/// Makes the texts of the atoms of the names.
fn pool_of(alloc: Global, names: &[Name]) -> Result<Pool, NoMemory>
    ensures { IfOk result (λ pool. IsPool names.now pool.text.items pool.starts.items) }
{
    let mut text = Vec::new(alloc);
    let mut starts = Vec::with_capacity(alloc, names.len().saturating_add(1))?;
    starts.push(0)?;
    for name in names {
        push_atom(&mut text, name)?;
        starts.push(text.as_slice().len())?;
    }
    Ok(Pool { text, starts })
}

/// The items from a place on.
fn from_place(items: &[usize], place: usize) -> &[usize]
    requires { place ≤ length items.now }
    ensures { result.now ≡ drop place items.now }
{
    &items[place..]
}

/// The bytes between two places.
fn between(text: &[u8], from: usize, to: usize) -> &[u8]
    requires rises { from ≤ to }
    requires within { to ≤ length text.now }
    ensures { result.now ≡ take (to - from) (drop from text.now) }
{
    &text[from..to]
}

/// The part of the row of texts that is the text of an atom.
fn part_at<'p>(text: &'p [u8], starts: &[usize], names: &[Name], atom: usize) -> &'p [u8]
    requires pool { IsPool names.now text.now starts.now }
    requires within { atom < length names.now }
    ensures { result.now ≡ 32 ∷ atom_text (slice_index_or names.now atom []) }
{
    let behind = from_place(starts, atom);
    between(text, behind[0], behind[1])
}

impl<'n> AtomTexts<'n> {
    /// The texts of the atoms of the names.
    pub(crate) fn of(alloc: Global, names: &'n [Name]) -> Result<AtomTexts<'n>, NoMemory>
        ensures { IfOk result (λ atoms. atoms ≡ names.now) }
    {
        let pool = pool_of(alloc, names)?;
        Ok(AtomTexts { names, pool })
    }

    /// The texts of all atoms, each with a space before it.
    pub(crate) fn all(&self) -> &[u8]
        ensures { result.now ≡ headers_text self.now }
    {
        self.pool.text.as_slice()
    }

    /// The text of an atom, with a space before it.
    pub(crate) fn spaced(&self, atom: usize) -> &[u8]
        requires { atom < length self.now }
        ensures { result.now ≡ 32 ∷ atom_text (slice_index_or self.now atom []) }
    {
        part_at(&self.pool.text, &self.pool.starts, self.names, atom)
    }
}
