//! Lines and columns.

ghost use Rattle.std.specs.Prelude.{◌≡◌, ◌+◌, ◌≤◌, ◌<◌, ◌^◌, length};
ghost use Rattle.p3_base.specs.Place.{line_of, column_of};

/// The line and the column of an offset, both counted from 1: the line is 1 and the number of line
/// feeds before the offset, the column is 1 and the number of bytes since the line's start.
pub fn line_column(text: &[u8], offset: u32) -> (u32, u32)
    requires within { offset ≤ length text.now }
    requires short { length text.now + 1 < 2 ^ 32 }
    ensures line { result.0 ≡ line_of text.now offset }
    ensures column { result.1 ≡ column_of text.now offset }
{
    let mut line = 1;
    let mut column = 1;
    for byte in &text[..offset as usize] {
        if *byte == b'\n' {
            line += 1;
            column = 1;
        } else {
            column += 1;
        }
    }
    (line, column)
}
