//! The value of a key changed, in the cell that the key lies in.
ghost use Rattle.tree.specs.Operations.{Changed};
ghost use Rattle.tree.specs.Shapes.{Lies};

use crate::cell::{Cell, node_at};
use crate::search::compared;
use keys::kind::Kind;
use std::cmp::Ordering;

/// Gives a key another value, if it is there, and answers the one that it had.
#[tactic(auto, using(crate::proofs::Revaluing::changing))]
pub(crate) fn change<K: Kind, V: Copy>(
    cells: &mut [Cell<K, V>],
    link: Option<u16>,
    key: &K,
    value: V,
) -> Option<V>
    requires { Lies cells.old link }
    ensures { Changed K.Kind.less key.now cells.old cells.new link value result }
{
    let root = link?;
    let node = *node_at(cells, root);
    match compared(key, &node) {
        Ordering::Less => change(cells, node.left, key, value),
        Ordering::Equal => {
            cells[root as usize] = Cell::Used(node.with_value(value));
            Some(node.value)
        }
        Ordering::Greater => change(cells, node.right, key, value),
    }
}
