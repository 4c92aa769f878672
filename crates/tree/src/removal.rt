//! A key taken out: where its node has two subtrees, the first node of the right one is linked in its place.
ghost use Rattle.std.specs.Prelude.{◌≡◌, ◌<◌, length};
ghost use Rattle.tree.specs.Operations.{first, rest, unrooted, Becomes, TakenOut};
ghost use Rattle.tree.specs.Shapes.{Lies, shape_at};

use crate::cell::{Cell, Node, node_at};
use crate::search::compared;
use keys::kind::Kind;
use std::cmp::Ordering;

/// The first node of a tree, taken off: its cell, itself, and the link to the rest.
#[derive(Drop)]
struct First<K, V> {
    cell: u16,
    node: Node<K, V>,
    rest: Option<u16>,
}

/// What taking a key out leaves: the cell that is free by it, and the link to the tree.
#[derive(Clone, Copy)]
pub(crate) struct Removed {
    pub(crate) freed: u16,
    pub(crate) link: Option<u16>,
}

/// Takes the first node off a tree.
#[tactic(auto, using(crate::proofs::Removing::taking_first))]
fn take_first<K: Copy, V: Copy>(cells: &mut [Cell<K, V>], root: u16) -> First<K, V>
    requires { Lies cells.old (Some root) }
    ensures within { result.cell < length cells.new }
    ensures rest { Becomes cells.old cells.new (Some root) result.rest None (Some result.cell)
        (rest (shape_at cells.old (Some root))) }
    ensures first { first (shape_at cells.old (Some root))
        ≡ Some (result.node.key, record { value = result.node.value; cell = result.cell }) }
{
    let node = *node_at(cells, root);
    let Some(left) = node.left else {
        return First {
            cell: root,
            node,
            rest: node.right,
        };
    };
    let first = take_first(cells, left);
    cells[root as usize] = Cell::Used(node.with_left(first.rest));
    First {
        rest: Some(root),
        ..first
    }
}

/// A tree without its root. Where the root has two subtrees, the first node of the right one is linked in its place.
#[tactic(auto, using(crate::proofs::Removing::joining))]
fn without_root<K: Copy, V: Copy>(cells: &mut [Cell<K, V>], root: u16) -> Option<u16>
    requires { Lies cells.old (Some root) }
    ensures { Becomes cells.old cells.new (Some root) result None (Some root)
        (unrooted (shape_at cells.old (Some root))) }
{
    let node = *node_at(cells, root);
    let Some(left) = node.left else {
        return node.right;
    };
    let Some(right) = node.right else {
        return node.left;
    };
    let First { cell, node, rest } = take_first(cells, right);
    cells[cell as usize] = Cell::Used(node.with_links(Some(left), rest));
    Some(cell)
}

/// Takes a key out, if it is there.
#[tactic(auto, using(crate::proofs::Removing::cutting))]
pub(crate) fn remove<K: Kind, V: Copy>(
    cells: &mut [Cell<K, V>],
    link: Option<u16>,
    key: &K,
) -> Option<Removed>
    requires { Lies cells.old link }
    ensures { TakenOut K.Kind.less key.now cells.old cells.new link result }
{
    let root = link?;
    let node = *node_at(cells, root);
    match compared(key, &node) {
        Ordering::Less => {
            let removed = remove(cells, node.left, key)?;
            cells[root as usize] = Cell::Used(node.with_left(removed.link));
            Some(Removed {
                link: Some(root),
                ..removed
            })
        }
        Ordering::Equal => Some(Removed {
            freed: root,
            link: without_root(cells, root),
        }),
        Ordering::Greater => {
            let removed = remove(cells, node.right, key)?;
            cells[root as usize] = Cell::Used(node.with_right(removed.link));
            Some(Removed {
                link: Some(root),
                ..removed
            })
        }
    }
}
