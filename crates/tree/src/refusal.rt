//! Why a key is not put into a tree: the cell is asked first, then the key.

#[derive(Clone, Copy, Debug, PartialEq, Eq)]
pub enum NotInserted {
    /// The cell is not one of the tree's own, or a key lies in it.
    CellNotFree,
    /// The key is in the tree already.
    KeyHeld,
}
