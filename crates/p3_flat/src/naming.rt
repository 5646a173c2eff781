//! The names of copies.

ghost use Rattle.std.specs.Prelude.{◌≡◌, ◌++◌, IfOk, OnOk};
ghost use Rattle.p3_flat.specs.Copies.{copy_named, digit_of, ending_of};

use p3_base::{List, Name, NoMemory};
use std::alloc::Global;

/// Gives the digit 1 for what holds, else 0.
fn digit_of(holds: bool) -> u8
    ensures { result ≡ digit_of holds }
{
    if holds { b'1' } else { b'0' }
}

/// Puts the letter `c` and a digit for each condition behind the bytes, if there is one.
fn push_ending(bytes: &mut Vec<u8>, pattern: &[bool]) -> Result<(), NoMemory>
    ensures { OnOk result (bytes.new.items ≡ bytes.old.items ++ ending_of pattern.now) }
{
    if pattern.is_empty() {
        return Ok(());
    }
    bytes.push(b'c')?;
    for holds in pattern {
        bytes.push(digit_of(*holds))?;
    }
    Ok(())
}

/// Makes the name of a copy, by way of a buffer that is cleared first.
#[tactic(auto, using(crate::proofs::NamingLemmas::lowered_copy))]
pub(crate) fn copy_name(
    alloc: Global,
    buffer: &mut Vec<u8>,
    name: &Name,
    pattern: &[bool],
) -> Result<Name, NoMemory>
    ensures { IfOk result (λ copy. copy ≡ copy_named name.now pattern.now) }
{
    buffer.clear();
    buffer.extend_from_slice(name.bytes())?;
    push_ending(buffer, pattern)?;
    Name::of(alloc, buffer)
}

/// Copies the name.
pub(crate) fn name_copied(alloc: Global, name: &Name) -> Result<Name, NoMemory>
    ensures { IfOk result (λ copy. copy ≡ name.now) }
{
    Name::of(alloc, name.bytes())
}

/// Copies the names.
pub(crate) fn names_copied(alloc: Global, names: &List<Name>) -> Result<List<Name>, NoMemory>
    ensures { IfOk result (λ copies. copies ≡ names.now) }
{
    let mut copies = Vec::with_capacity(alloc, names.len())?;
    for name in names.items() {
        copies.push(name_copied(alloc, name)?)?;
    }
    Ok(List::from(copies))
}
