//! The lines of a text, by which the spot of an offset is found without a walk over the text.

ghost use Rattle.std.specs.Prelude.{◌≡◌, ◌+◌, ◌<◌, ◌≤◌, ◌^◌, ℕ, List, length, min, IfOk};
ghost use Rattle.p3_accounts.specs.Spots.{spot_in};
ghost use Rattle.p3_accounts.specs.Starts.{AreStarts, feeds};

use crate::spot::Spot;
use crate::terms::InputFile;
use p3_base::NoMemory;
use std::alloc::Global;

/// A text with the offsets at which its lines begin.
#[derive(Drop)]
pub struct Lines<'a> {
    text: &'a [u8],
    starts: Vec<u32>,
    pub ghost short: { length text.now + 1 < 2 ^ 32 },
    ghost begin: { ∥ AreStarts text.now (length text.now) starts.items ∥₁ },
}

impl<'a> Lines<'a> {
    /// Finds where the lines of a text begin.
    ///
    /// # Errors
    ///
    /// Want of memory.
    pub fn of(alloc: Global, text: &'a [u8]) -> Result<Lines<'a>, NoMemory>
        requires { length text.now + 1 < 2 ^ 32 }
        ensures { IfOk result (λ lines. lines.text.now ≡ text.now) }
    {
        let starts = starts_of(alloc, text)?;
        Ok(Lines { text, starts })
    }

    /// Finds the spot of an offset, or of the text's end where that comes first, by halving.
    pub fn spot(&self, file: InputFile, offset: u32) -> Spot
        ensures { result ≡ spot_in file self.now.text.now offset }
    {
        let offset = clipped(self.text, offset);
        let line = line_at(self.starts.as_slice(), offset);
        Spot {
            file,
            line: line as u32,
            column: offset - self.starts[line - 1] + 1,
        }
    }
}

/// Gives the number of the line of an offset, counted from 1, by the starts of lines.
fn line_at(starts: &[u32], offset: u32) -> usize
    ensures line { (text : List ℕ) → AreStarts text (length text) starts.now
        → offset ≤ length text → result ≡ feeds text offset + 1 }
    ensures bound { result ≤ length starts.now }
{
    starts.partition_point(|start| *start <= offset)
}

/// Gives the offset, or that of the text's end where it comes first.
fn clipped(text: &[u8], offset: u32) -> u32
    requires { length text.now + 1 < 2 ^ 32 }
    ensures { result ≡ min offset (length text.now) }
{
    let end = text.len() as u32;
    if offset < end { offset } else { end }
}

/// The offsets at which the lines of a text begin, rising.
fn starts_of(alloc: Global, text: &[u8]) -> Result<Vec<u32>, NoMemory>
    requires { length text.now + 1 < 2 ^ 32 }
    ensures { IfOk result (λ starts. AreStarts text.now (length text.now) starts.items) }
{
    let mut starts = Vec::new(alloc);
    starts.push(0)?;
    let mut behind = 0;
    for byte in text {
        behind += 1;
        if *byte == b'\n' {
            starts.push(behind)?;
        }
    }
    Ok(starts)
}
