//! An outline of a small text, walked.

use p3_base::{NoMemory, Role};
use p3_outline::{Parts, View, outline};
use std::alloc::Global;
use std::test::Fail;

/// Whether a view is there, and is this word at that offset.
fn is_word(view: Option<View<'_, '_>>, text: &[u8], offset: u32) -> bool {
    match view {
        Some(view) => view.word() == Some(text) && view.offset() == offset,
        None => false,
    }
}

/// Whether a view is a list at that offset.
fn is_list(view: &View<'_, '_>, offset: u32) -> bool {
    view.word().is_none() && view.offset() == offset
}

/// Walks the list of a view and what is left of that around it in turn, and tells of each view in
/// them whether it is what stands there in the text.
fn walked_on(view: &View<'_, '_>, mut around: Parts<'_, '_>) -> Option<[bool; 6]> {
    let mut parts = view.parts();
    let word = parts.next();
    let last = around.next();
    let behind_last = around.next();
    let empty = parts.next()?;
    Some([
        is_word(word, b"Bc", 5),
        is_word(last, b"d", 12),
        behind_last.is_none(),
        is_list(&empty, 8),
        empty.parts().next().is_none(),
        parts.next().is_none(),
    ])
}

/// Tells so of the whole expression and its first two elements, and walks on in the second.
fn walked(root: &View<'_, '_>) -> Option<([bool; 4], [bool; 6])> {
    let mut parts = root.parts();
    let first = parts.next()?;
    let second = parts.next()?;
    let begun = [
        is_list(root, 1),
        is_word(Some(first), b"a", 2),
        first.parts().next().is_none(),
        is_list(&second, 4),
    ];
    Some((begun, walked_on(&second, parts)?))
}

/// Walks the outline of a text.
fn walk(alloc: Global) -> Result<([bool; 4], [bool; 6]), NoMemory> {
    let Ok(outline) = outline(alloc, Role::Domain, b" (a (Bc ()) d) ; e") else {
        return Err(NoMemory);
    };
    let found = walked(&outline.root());
    drop(outline);
    found.ok_or(NoMemory)
}

#[test]
fn an_outline_is_walked(rt: HostRuntime) -> Result<(), Fail> {
    let found = walk(rt.alloc())?;
    assert_eq!(rt; found, ([true; 4], [true; 6]));
    Ok(())
}
