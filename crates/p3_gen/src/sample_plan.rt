//! The plan: all packages are loaded, and each second one is unloaded at its place.

ghost use Rattle.std.specs.Prelude.{◌≡◌, ◌≤◌, IfOk, string_bytes};
ghost use Rattle.p3_tree.specs.Commands.{sample_limit};
ghost use Rattle.p3_tree.specs.Samples.{sample_plan};

use crate::piece::{Piece, push_pieces};
use p3_base::NoMemory;
use std::alloc::Global;

pub(crate) fn plan_text(alloc: Global, n: u32) -> Result<String, NoMemory>
    requires { n ≤ sample_limit }
    ensures { IfOk result (λ text. string_bytes text ≡ sample_plan n) }
{
    let mut text = String::new(alloc);
    push_pieces(&mut text, Piece::Load, 1, n)?;
    push_pieces(&mut text, Piece::Stage, 1, n)?;
    Ok(text)
}
