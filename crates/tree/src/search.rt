//! A key looked up: the search goes down one path.
ghost use Rattle.std.specs.Prelude.{◌≡◌, true, false};
ghost use Rattle.std.specs.Option.{option_map};
ghost use Rattle.std.specs.Ordering.{MatchOrdering};
ghost use Rattle.tree.specs.Operations.{seek};
ghost use Rattle.tree.specs.Shapes.{Lies, shape_at};

use crate::cell::{Cell, Node, node_at};
use keys::kind::Kind;
use std::cmp::Ordering;

/// How a key compares to the key of a node.
pub(crate) fn compared<K: Kind, V>(key: &K, node: &Node<K, V>) -> Ordering
    ensures { let less = K.Kind.less in let k = key.now in let n = node.now.key in
        MatchOrdering result (less k n ≡ true)
        ((k ≡ n) × (less k n ≡ false) × (less n k ≡ false))
        ((less n k ≡ true) × (less k n ≡ false)) }
{
    key.compare(&node.key)
}

/// The value of a key, if the key is there.
#[tactic(auto, using(crate::proofs::Cells::shape_none))]
pub(crate) fn find<K: Kind, V: Copy>(cells: &[Cell<K, V>], link: Option<u16>, key: &K) -> Option<V>
    requires { Lies cells.now link }
    ensures { let t = shape_at cells.now link in
        result ≡ option_map (λ x. x.value) (seek K.Kind.less key.now t) }
{
    let at = link?;
    let node = node_at(cells, at);
    match compared(key, node) {
        Ordering::Less => find(cells, node.left, key),
        Ordering::Equal => Some(node.value),
        Ordering::Greater => find(cells, node.right, key),
    }
}
