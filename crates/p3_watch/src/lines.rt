//! The lines of a text, one after another, and where they stand.

ghost use Rattle.std.specs.Prelude.{◌≡◌, ◌+◌, ◌<◌, ◌≤◌, ◌↔◌, IsTrue, drop, length, min, position};
ghost use Rattle.p3_base.specs.Place.{is_line_feed};
ghost use Rattle.p3_task.specs.Sides.{plan_byte_limit};
ghost use Rattle.p3_watch.specs.Lines.{IsStart, line_at, line_len};

/// Where a line begins.
#[derive(Clone, Copy, Debug, Drop)]
pub(crate) struct LineStart {
    /// The offset of its first byte.
    pub(crate) offset: u32,
    /// Its number, counted from 1.
    pub(crate) row: u32,
}

impl LineStart {
    /// Gives the start of a text.
    pub(crate) fn of_text() -> LineStart
        ensures offset { result.offset ≡ 0 }
        ensures row { result.row ≡ 1 }
    {
        LineStart { offset: 0, row: 1 }
    }

    /// Whether no line of the text begins there.
    pub(crate) fn is_end(self, text: &[u8]) -> bool
        ensures { IsTrue result ↔ (length text.now ≤ self.offset) }
    {
        self.offset as usize >= text.len()
    }

    /// Gives the line that begins there, without its line feed.
    pub(crate) fn line(self, text: &[u8]) -> &[u8]
        requires { self.offset ≤ length text.now }
        ensures line { result.now ≡ line_at text.now self.offset }
        ensures len { length result.now ≡ line_len (drop self.offset text.now) }
    {
        let rest = &text[self.offset as usize..];
        &rest[..before_line_feed(rest)]
    }

    /// Gives the start of the line behind one of so many bytes, or the end of the text.
    pub(crate) fn behind(self, text: &[u8], len: usize) -> LineStart
        requires start { IsStart text.now self }
        requires some { self.offset < length text.now }
        requires short { length text.now ≤ plan_byte_limit }
        requires len { len ≡ line_len (drop self.offset text.now) }
        ensures start { IsStart text.now result }
        ensures offset { result.offset ≡ min (length text.now) (self.offset + len + 1) }
    {
        let end = text.len().min(self.offset as usize + len + 1);
        LineStart {
            offset: end as u32,
            row: self.row + 1,
        }
    }
}

/// Counts the bytes before the first line feed.
fn before_line_feed(bytes: &[u8]) -> usize
    ensures { result ≡ line_len bytes.now }
{
    match first_line_feed(bytes) {
        Some(place) => place,
        None => bytes.len(),
    }
}

/// Finds the first line feed.
fn first_line_feed(bytes: &[u8]) -> Option<usize>
    ensures { result ≡ position is_line_feed bytes.now }
{
    bytes.iter().position(|byte| *byte == b'\n')
}
