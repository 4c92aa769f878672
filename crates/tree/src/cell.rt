//! The cells that a caller lends to a tree, and the nodes in them.
ghost use Rattle.std.specs.Prelude.{◌≡◌, ◌≤◌, Some, length, replicate, slice_get, nat_lt, if◌then◌else◌, false};
ghost use Rattle.keys.specs.Orders.{TotalOrder};
ghost use Rattle.tree.specs.Shapes.{is_blank};
ghost use Rattle.tree.specs.Shapes.{Lies, Opened, with_left, with_right, with_links, with_value};

use keys::kind::Kind;

/// A blank cell can be made for any kind of key, with no key at hand.
#[derive(Clone, Copy, Debug, PartialEq, Eq)]
pub enum Cell<K, V> {
    Blank,
    Used(Node<K, V>),
}

impl<K, V> Cell<K, V> {
    /// Whether no key lies in it.
    fn is_blank(&self) -> bool
        ensures { result ≡ is_blank (Some self.now) }
    {
        matches!(self, Cell::Blank)
    }
}

/// A key with its value, and for the subtrees of the lesser and of the greater keys the cell of its root, if there is one.
#[derive(Clone, Copy, Debug, PartialEq, Eq)]
pub struct Node<K, V> {
    pub key: K,
    pub value: V,
    pub left: Option<u16>,
    pub right: Option<u16>,
}

/// Makes all cells blank. `order` hands on what the kind of key promises, so that `make` needs no proof by hand.
#[tactic(auto, using(crate::proofs::Blanking::set_more))]
pub(crate) fn clear<K: Kind, V: Copy>(cells: &mut [Cell<K, V>])
    ensures blank { cells.new ≡ replicate (length cells.old) Cell.Blank }
    ensures order { TotalOrder K.Kind.less }
{
    for i in 0..cells.len() {
        cells[i] = Cell::Blank;
    }
}

/// Whether a cell is blank, and one of the first `own`.
pub(crate) fn is_free<K, V>(cells: &[Cell<K, V>], own: usize, at: u16) -> bool
    requires { own ≤ length cells.now }
    ensures { result ≡ (if nat_lt at own then is_blank (slice_get cells.now at) else false) }
{
    (at as usize) < own && cells[at as usize].is_blank()
}

/// The node at the root of a tree.
#[tactic(auto, using(crate::proofs::Cells::lies_within))]
pub(crate) fn node_at<K, V>(cells: &[Cell<K, V>], at: u16) -> &Node<K, V>
    requires { Lies cells.now (Some at) }
    ensures { Opened cells.now at result.now }
{
    let Cell::Used(node) = &cells[at as usize] else {
        unreachable!()
    };
    node
}

impl<K: Copy, V: Copy> Node<K, V> {
    /// The node, linked to another tree on its left.
    #[tactic(auto, unfolding(crate::specs::Shapes::with_left))]
    pub(crate) fn with_left(self, left: Option<u16>) -> Self
        ensures { result ≡ with_left self left }
    {
        Node { left, ..self }
    }

    /// The node, linked to another tree on its right.
    #[tactic(auto, unfolding(crate::specs::Shapes::with_right))]
    pub(crate) fn with_right(self, right: Option<u16>) -> Self
        ensures { result ≡ with_right self right }
    {
        Node { right, ..self }
    }

    /// The node, linked to other trees on both sides.
    #[tactic(auto, unfolding(crate::specs::Shapes::with_links))]
    pub(crate) fn with_links(self, left: Option<u16>, right: Option<u16>) -> Self
        ensures { result ≡ with_links self left right }
    {
        Node {
            left,
            right,
            ..self
        }
    }

    /// The node with another value.
    #[tactic(auto, unfolding(crate::specs::Shapes::with_value))]
    pub(crate) fn with_value(self, value: V) -> Self
        ensures { result ≡ with_value self value }
    {
        Node { value, ..self }
    }
}
