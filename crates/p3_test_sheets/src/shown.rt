//! Bytes as they are told where a row does not hold.

use std::alloc::{AllocError, Global};

/// How many bytes are shown before the first difference.
const BEFORE: usize = 30;

/// How many bytes are shown at most.
const MOST: usize = 90;

/// Two texts from a little before their first difference on.
pub(crate) fn difference(
    alloc: Global,
    what: &str,
    expected: &[u8],
    came: &[u8],
) -> Result<String, AllocError> {
    let at = expected
        .iter()
        .zip(came.iter())
        .take_while(|(one, other)| one == other)
        .count();
    let from = at.saturating_sub(BEFORE);
    let wanted = shown(alloc, expected, from)?;
    let found = shown(alloc, came, from)?;
    let lengths = (expected.len(), came.len());
    format!(in alloc;
        "{what}: from byte {from} on \"{wanted}\" is wanted (of {} bytes), and \"{found}\" came (of {} bytes)",
        lengths.0, lengths.1
    )
}

/// At most some bytes from a place on, in the escapes of rows.
pub(crate) fn shown(alloc: Global, bytes: &[u8], from: usize) -> Result<String, AllocError> {
    let mut text = String::new(alloc);
    for byte in bytes.iter().skip(from).take(MOST) {
        match *byte {
            b'\n' => text.push_str("\\n")?,
            b'"' => text.push_str("\\\"")?,
            b'\\' => text.push_str("\\\\")?,
            32..=126 => text.push(char::from(*byte))?,
            other => text.push_str(format!(in alloc; "\\x{other:02x}")?.as_str())?,
        }
    }
    Ok(text)
}
