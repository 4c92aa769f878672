//! A key put in, as a leaf at the end of the path on which it was looked for.
ghost use Rattle.std.specs.Prelude.{◌≡◌, slice_get};
ghost use Rattle.tree.specs.Operations.{PutIn};
ghost use Rattle.tree.specs.Shapes.{Lies};

use crate::cell::{Cell, Node, node_at};
use crate::search::compared;
use keys::kind::Kind;
use std::cmp::Ordering;

/// Puts a key into a blank cell, and answers the link to the tree; none where the key is there already.
#[tactic(auto, using(crate::proofs::Inserting::inserting))]
pub(crate) fn insert<K: Kind, V: Copy>(
    cells: &mut [Cell<K, V>],
    link: Option<u16>,
    key: K,
    value: V,
    at: u16,
) -> Option<u16>
    requires lies { Lies cells.old link }
    requires blank { slice_get cells.old at ≡ Some Cell.Blank }
    ensures { PutIn K.Kind.less key cells.old cells.new link value at result }
{
    let Some(root) = link else {
        cells[at as usize] = Cell::Used(Node {
            key,
            value,
            left: None,
            right: None,
        });
        return Some(at);
    };
    let node = *node_at(cells, root);
    match compared(&key, &node) {
        Ordering::Less => {
            let left = insert(cells, node.left, key, value, at)?;
            cells[root as usize] = Cell::Used(node.with_left(Some(left)));
        }
        Ordering::Equal => return None,
        Ordering::Greater => {
            let right = insert(cells, node.right, key, value, at)?;
            cells[root as usize] = Cell::Used(node.with_right(Some(right)));
        }
    }
    Some(root)
}
