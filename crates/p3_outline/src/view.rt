//! Views of an outline, which copy no byte of the text.

ghost use Rattle.std.specs.Prelude.{◌≡◌, ◌≤◌, ◌<◌, ◌^◌, ◌+◌, ◌∷◌, [], length, take, drop, MatchOption, IfSome};
ghost use Rattle.p3_outline.specs.Nodes.{slice_of, below_of, expression_of, expressions_of, expressions_in, root_of, offset_of, elements, IsWordOf, IsList};

use p3_base::Refusal;

/// A node of an outline. A list is followed by the nodes below it.
#[derive(Clone, Copy)]
pub(crate) enum Node {
    /// A word: its offset, and how many bytes it has.
    Word {
        /// The offset.
        at: u32,
        /// The length.
        len: u32,
    },
    /// A list: the offset of its `(`, and how many nodes are below it.
    List {
        /// The offset.
        at: u32,
        /// The number of nodes below.
        below: u32,
    },
}

/// The outline of a text: one list of nodes, which copies no byte of it.
#[derive(Drop)]
pub struct Outline<'a> {
    /// The text.
    pub(crate) text: &'a [u8],
    /// The nodes of its one expression.
    pub(crate) nodes: Vec<Node>,
    /// The refusal of its first number too long.
    pub(crate) number: Option<Refusal>,
    /// The refusal of the first token after which no text of the grammar goes on.
    pub(crate) fault: Option<Refusal>,
}

/// A word or a list.
#[derive(Clone, Copy)]
pub struct View<'o, 'a> {
    text: &'a [u8],
    node: Node,
    below: &'o [Node],
}

/// The elements of a list, one after another.
#[derive(Clone, Copy)]
pub struct Parts<'o, 'a> {
    text: &'a [u8],
    nodes: &'o [Node],
}

/// The bytes at an offset, as far as the text goes.
pub(crate) fn slice_of<'a>(text: &'a [u8], at: usize, len: usize) -> &'a [u8]
    ensures { result.now ≡ slice_of text.now at len }
{
    if at > text.len() {
        return &[];
    }
    let rest = &text[at..];
    if len > rest.len() { rest } else { &rest[..len] }
}

/// How many nodes are below a node.
fn count_below(node: Node) -> usize
    ensures { result ≡ below_of node }
{
    match node {
        Node::Word { .. } => 0,
        Node::List { below, .. } => below as usize,
    }
}

/// The first nodes, and the others.
fn split(nodes: &[Node], count: usize) -> (&[Node], &[Node])
    ensures front { result.0.now ≡ take count nodes.now }
    ensures later { result.1.now ≡ drop count nodes.now }
    ensures whole { length result.0.now + length result.1.now ≡ length nodes.now }
{
    if count > nodes.len() {
        (nodes, &[])
    } else {
        (&nodes[..count], &nodes[count..])
    }
}

/// The first node with those below it, and the others.
fn first_view<'o, 'a>(text: &'a [u8], nodes: &'o [Node]) -> Option<(View<'o, 'a>, &'o [Node])>
    ensures parts { MatchOption result (expressions_in text.now nodes.now ≡ []) (λ found.
        expressions_in text.now nodes.now
        ≡ expression_of found.0 ∷ expressions_in text.now found.1.now) }
    ensures less { IfSome result (λ found.
        length found.0.below.now + length found.1.now + 1 ≡ length nodes.now) }
    ensures source { IfSome result (λ found. found.0.text.now ≡ text.now) }
{
    match nodes {
        [] => None,
        [node, rest @ ..] => {
            let node = *node;
            let (below, later) = split(rest, count_below(node));
            Some((View { text, node, below }, later))
        }
    }
}

impl<'o, 'a> Parts<'o, 'a> {
    /// Counts the nodes, which are as many as the elements where each of these is a word.
    pub fn node_count(&self) -> usize
        ensures { result ≡ length self.now.nodes.now }
    {
        self.nodes.len()
    }

    /// The next element; None where none is left.
    #[expect(clippy::should_implement_trait)]
    pub fn next(&mut self) -> Option<View<'o, 'a>>
        ensures parts { MatchOption result (expressions_of self.old ≡ []) (λ view.
            expressions_of self.old ≡ expression_of view ∷ expressions_of self.new) }
        ensures less { IfSome result (λ view.
            length view.below.now + length self.new.nodes.now + 1 ≡ length self.old.nodes.now) }
        // A view shows the same text.
        ensures source { IfSome result (λ view. view.text.now ≡ self.old.text.now) }
        ensures rest { self.new.text.now ≡ self.old.text.now }
    {
        let (view, later) = first_view(self.text, self.nodes)?;
        self.nodes = later;
        Some(view)
    }
}

impl<'a> Outline<'a> {
    /// The refusal of the first token after which no text of the grammar goes on; None where there
    /// is none, and the text has a tree.
    pub fn fault(&self) -> Option<Refusal>
        ensures fault { result ≡ self.now.fault }
    {
        self.fault
    }

    /// The whole expression.
    #[tactic(auto, using(crate::proofs::NodeLemmas::no_root, crate::proofs::NodeLemmas::first_root))]
    pub fn root(&self) -> View<'_, 'a>
        ensures root { expression_of result ≡ root_of self.now }
        ensures source { result.text.now ≡ self.now.text.now }
    {
        match first_view(self.text, self.nodes.as_slice()) {
            Some((view, _)) => view,
            None => View {
                text: self.text,
                node: Node::List { at: 0, below: 0 },
                below: &[],
            },
        }
    }
}

impl<'o, 'a> View<'o, 'a> {
    /// The offset of the word, or of the list's `(`.
    pub fn offset(&self) -> u32
        ensures offset { result ≡ offset_of (expression_of self.now) }
    {
        match self.node {
            Node::Word { at, .. } | Node::List { at, .. } => at,
        }
    }

    /// The word as it stands in the text; None where the view is a list.
    pub fn word(&self) -> Option<&'a [u8]>
        ensures word { MatchOption result (IsList (expression_of self.now)) (λ word.
            IsWordOf (expression_of self.now) word.now) }
        // It is a slice of the text, at the view's offset.
        ensures slice { IfSome result (λ word.
            word.now ≡ slice_of self.now.text.now (offset_of (expression_of self.now))
            (length word.now)) }
        ensures short { IfSome result (λ word. length word.now < 2 ^ 32) }
    {
        match self.node {
            Node::Word { at, len } => Some(slice_of(self.text, at as usize, len as usize)),
            Node::List { .. } => None,
        }
    }

    /// The text that is shown.
    pub(crate) fn text(&self) -> &'a [u8]
        ensures { result.now ≡ self.now.text.now }
    {
        self.text
    }

    /// The nodes below a list.
    pub(crate) fn nodes_below(&self) -> &'o [Node]
        ensures { result.now ≡ self.now.below.now }
    {
        self.below
    }

    /// The elements of a list, from the first. A word has none.
    #[tactic(auto, using(crate::proofs::NodeLemmas::no_node))]
    pub fn parts(&self) -> Parts<'o, 'a>
        ensures parts { expressions_of result ≡ elements (expression_of self.now) }
        ensures source { result.text.now ≡ self.now.text.now }
        ensures less { length result.nodes.now ≤ length self.now.below.now }
    {
        match self.node {
            Node::Word { .. } => Parts {
                text: self.text,
                nodes: &[],
            },
            Node::List { .. } => Parts {
                text: self.text,
                nodes: self.below,
            },
        }
    }
}
