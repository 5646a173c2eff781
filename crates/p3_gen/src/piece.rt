//! What a sample has once for each number.

ghost use Rattle.std.specs.Prelude.{◌≡◌, ◌+◌, ◌<◌, ◌^◌, ◌++◌, OnOk, string_bytes};
ghost use Rattle.std.specs.List.{range_with_len};
ghost use Rattle.p3_tree.specs.Samples.{road, stage};
ghost use Rattle.p3_gen.specs.Pieces.{behind_a_space, piece_text, pieces_text, roads_text};

use p3_base::NoMemory;

/// What is written for a number.
#[derive(Clone, Copy)]
pub(crate) enum Piece {
    /// A place, behind a space.
    Place,
    /// A package, behind a space.
    Parcel,
    /// Where a package is at the start, behind a space.
    Start,
    /// Where a package is to be brought, behind a space.
    Destination,
    /// The road to a place from the one before it, and the road back, each behind a space.
    Roads,
    /// The step that loads a package, as a line.
    Load,
    /// The step to the next place, and the one that unloads a package there, each as a line.
    Stage,
}

/// Writes the piece for so many numbers from the first on.
pub(crate) fn push_pieces(
    text: &mut String,
    piece: Piece,
    first: u32,
    count: u32,
) -> Result<(), NoMemory>
    requires { first + count < 2 ^ 32 }
    ensures { OnOk result (string_bytes text.new
        ≡ string_bytes text.old ++ pieces_text piece (range_with_len first count)) }
{
    for number in first..first + count {
        push_piece(text, piece, number)?;
    }
    Ok(())
}

fn push_piece(text: &mut String, piece: Piece, number: u32) -> Result<(), NoMemory>
    ensures { OnOk result
        (string_bytes text.new ≡ string_bytes text.old ++ piece_text piece number) }
{
    match piece {
        Piece::Place => write!(text, " l{number}")?,
        Piece::Parcel => write!(text, " p{number}")?,
        Piece::Start => write!(text, " (at p{number} l0)")?,
        Piece::Destination => write!(text, " (dest p{number} l{number})")?,
        Piece::Roads => push_roads(text, number)?,
        Piece::Load => write!(text, "(load p{number} l0)\n")?,
        Piece::Stage => push_stage(text, number)?,
    }
    Ok(())
}

fn push_roads(text: &mut String, to: u32) -> Result<(), NoMemory>
    ensures { OnOk result (string_bytes text.new ≡ string_bytes text.old ++ roads_text to) }
{
    let from = to.saturating_sub(1);
    let length = to % 5 + 1;
    push_road(text, from, to, length)?;
    push_road(text, to, from, length)?;
    Ok(())
}

fn push_road(text: &mut String, from: u32, to: u32, length: u32) -> Result<(), NoMemory>
    ensures { OnOk result (string_bytes text.new
        ≡ string_bytes text.old ++ behind_a_space (road from to length)) }
{
    write!(text, " (= (road l{from} l{to}) {length})")?;
    Ok(())
}

/// Each second package stays in the truck.
fn push_stage(text: &mut String, to: u32) -> Result<(), NoMemory>
    ensures { OnOk result (string_bytes text.new ≡ string_bytes text.old ++ stage to) }
{
    let from = to.saturating_sub(1);
    write!(text, "(drive l{from} l{to})\n")?;
    if to % 2 == 1 {
        write!(text, "(unload p{to} l{to})\n")?;
    }
    Ok(())
}
