//! Lists of items with types: groups `item+ - type`, and then items without a type.

ghost use Rattle.std.specs.Prelude.{◌≡◌, ◌<◌, length, None, IfSome, IsSome};
ghost use Rattle.p3_task.specs.Grammar.Lists.{is_dash};
ghost use Rattle.p3_outline.specs.Nodes.{expression_of, expressions_of};
ghost use Rattle.p3_syntax.specs.Groups.{GivesFirst, GivesNext, all_grouped, groups_left, groups_size, item_before, the_item};

use p3_lexer::is;
use p3_outline::{Parts, View};

/// An item, and its type where it has one.
#[derive(Clone, Copy)]
pub struct TypedItem<'o, 'a> {
    /// The item.
    pub item: View<'o, 'a>,
    /// Its type.
    pub kind: Option<View<'o, 'a>>,
}

/// The items of a list with their types, one after another.
#[derive(Clone, Copy)]
pub struct Groups<'o, 'a> {
    /// The items that are left, from the next one.
    left: Parts<'o, 'a>,
    /// How many of them are left in their group.
    count: usize,
    /// The type of their group.
    kind: Option<View<'o, 'a>>,
    /// What stands behind their group.
    behind: Parts<'o, 'a>,
}

fn is_dash(view: View<'_, '_>) -> bool
    ensures { result ≡ is_dash (expression_of view.entry) }
{
    match view.word() {
        Some(word) => is(word, b"-"),
        None => false,
    }
}

/// The first item, and the items behind it.
fn first_item<'o, 'a>(parts: Parts<'o, 'a>) -> Option<(View<'o, 'a>, Groups<'o, 'a>)>
    requires tree { IsSome (all_grouped (expressions_of parts)) }
    ensures items { GivesFirst result (all_grouped (expressions_of parts.entry)) }
    ensures less { IfSome result (λ first. groups_size first.1 < length parts.entry.nodes.now) }
{
    let mut ahead = parts;
    let Some(first) = ahead.next() else {
        return None;
    };
    let left = ahead;
    let mut count = 0;
    'group: loop {
        let behind = ahead;
        let Some(view) = ahead.next() else {
            let kind = None;
            return Some((
                first,
                Groups {
                    left,
                    count,
                    kind,
                    behind,
                },
            ));
        };
        if is_dash(view) {
            let (kind, behind) = (Some(ahead.next().unwrap()), ahead);
            return Some((
                first,
                Groups {
                    left,
                    count,
                    kind,
                    behind,
                },
            ));
        }
        count += 1;
    }
}

impl<'o, 'a> Groups<'o, 'a> {
    /// The items of parts.
    pub fn of(parts: Parts<'o, 'a>) -> Groups<'o, 'a>
        ensures { groups_left result ≡ all_grouped (expressions_of parts.entry) }
    {
        Groups {
            left: parts,
            count: 0,
            kind: None,
            behind: parts,
        }
    }

    /// The next item; None where none is left.
    #[expect(clippy::should_implement_trait)]
    pub fn next(&mut self) -> Option<TypedItem<'o, 'a>>
        requires tree { IsSome (groups_left self.old) }
        ensures items { GivesNext result (groups_left self.old) self.new }
        ensures less { IfSome result (λ item. groups_size self.new < groups_size self.old) }
    {
        match self.next_of_group() {
            Some(item) => Some(item),
            None => self.next_group(),
        }
    }

    /// The next item of the group; None where none of it is left.
    fn next_of_group(&mut self) -> Option<TypedItem<'o, 'a>>
        ensures next { IfSome result (λ item.
            groups_left self.old ≡ item_before (the_item item) (groups_left self.new)) }
        ensures end { result ≡ None
            → groups_left self.old ≡ all_grouped (expressions_of self.old.behind) }
        ensures behind { self.new.behind ≡ self.old.behind }
        ensures less { IfSome result (λ item. self.new.count < self.old.count) }
    {
        if self.count == 0 {
            return None;
        }
        let item = self.left.next()?;
        self.count -= 1;
        let kind = self.kind;
        Some(TypedItem { item, kind })
    }

    /// The first item of the next group.
    fn next_group(&mut self) -> Option<TypedItem<'o, 'a>>
        requires tree { IsSome (all_grouped (expressions_of self.old.behind)) }
        ensures items { GivesNext result (all_grouped (expressions_of self.old.behind)) self.new }
        ensures less { IfSome result (λ item.
            groups_size self.new < length self.old.behind.nodes.now) }
    {
        let (item, groups) = first_item(self.behind)?;
        *self = groups;
        let kind = groups.kind;
        Some(TypedItem { item, kind })
    }
}
