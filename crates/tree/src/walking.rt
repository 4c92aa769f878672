//! A walk through the nodes in key order, to the j-th of them.
ghost use Rattle.tree.specs.Shapes.{Lies, shape_at};
ghost use Rattle.tree.specs.Walks.{IsPlace};

use crate::cell::{Cell, Node, node_at};

/// Where a walk to a place ends: at a node, or past the last one with so many places still to pass.
pub(crate) enum Walk<'c, K, V> {
    At(&'c Node<K, V>),
    Past(usize),
}

/// Walks to the j-th node.
#[tactic(auto, using(crate::proofs::Cells::shape_none))]
pub(crate) fn walk_to<'c, K, V>(
    cells: &'c [Cell<K, V>],
    link: Option<u16>,
    j: usize,
) -> Walk<'c, K, V>
    requires { Lies cells.now link }
    ensures { IsPlace (shape_at cells.now link) j result }
{
    let Some(at) = link else {
        return Walk::Past(j);
    };
    let node = node_at(cells, at);
    match walk_to(cells, node.left, j) {
        Walk::At(found) => Walk::At(found),
        Walk::Past(0) => Walk::At(node),
        Walk::Past(more) => walk_to(cells, node.right, more - 1),
    }
}
