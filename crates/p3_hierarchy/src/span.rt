//! Types that stand together in a row.

ghost use Rattle.std.specs.Prelude.{◌≡◌};
ghost use Rattle.std.specs.List.{list_any};
ghost use Rattle.p3_hierarchy.specs.Spans.{is_in};

/// The types from the first place up to the end.
#[derive(Clone, Copy)]
pub(crate) struct Span {
    pub(crate) first: usize,
    pub(crate) end: usize,
}

impl Span {
    /// Whether the place is one of these.
    fn has(&self, place: usize) -> bool
        ensures { result ≡ is_in place self.now }
    {
        self.first <= place && place < self.end
    }
}

/// Whether the place is one of some of them.
pub(crate) fn is_spanned(spans: &[Span], place: usize) -> bool
    ensures { result ≡ list_any (is_in place) spans.now }
{
    spans.iter().any(|span| span.has(place))
}
