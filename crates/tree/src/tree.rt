//! The tree: a struct over the lent cells. Its clauses see a `View`: the keys in order, each with its value and its
//! cell; the cells; and how many of them are the tree's own. The tree's shape is left free.
ghost use Rattle.std.specs.Prelude.{◌≡◌, ◌==◌, [], ◌++◌, min, length, replicate, drop, slice_get, OnOk, OnErr, IfNone, if◌then◌else◌};
ghost use Rattle.std.specs.Option.{option_map};
ghost use Rattle.keys.specs.Orders.{same};
ghost use Rattle.tree.specs.Entries.{item, kept_of, value_of, cell_of, with_key, revalued, with_new_value, without_key};
ghost use Rattle.tree.specs.Trees.{is_free, insert_answer, OthersStay, Arranged};

use crate::cell::{Cell, Node, clear};
use crate::refusal::NotInserted;
use crate::walking::Walk;
use crate::{cell, changing, insertion, removal, search, walking};
use keys::kind::Kind;
use std::marker::Model;

/// Every value of this type is a tree that stands in its cells, so no call requires it.
#[derive(Drop)]
pub struct Tree<'a, K: Kind, V: Copy> {
    cells: &'a mut [Cell<K, V>],
    own: usize,
    len: usize,
    root: Option<u16>,
}

impl<'a, K: Kind, V: Copy> Model for Tree<'a, K, V> {
    ghost use Rattle.tree.specs.Trees.{View, IsTree, view_of};

    ghost Value = { View K V };

    ghost view = { λ t. view_of t.own t.cells.now t.root };

    ghost invariant = { λ t. IsTree K.Kind.less t.own t.len t.cells.now t.root };
}

impl<'a, K: Kind, V: Copy> Tree<'a, K, V> {
    /// A tree without keys. Its own cells are the first `own` of these, or all where there are fewer; they are made blank.
    #[tactic(auto, using(crate::proofs::Trees::making))]
    pub fn make(cells: &'a mut [Cell<K, V>], own: usize) -> Tree<'a, K, V>
        ensures own { result.own ≡ min own (length cells.old) }
        ensures entries { result.entries ≡ [] }
        ensures cells { result.cells
            ≡ replicate (min own (length cells.old)) Cell.Blank ++ drop own cells.old }
        ensures arranged { Arranged K.Kind.less result }
    {
        let own = own.min(cells.len());
        clear(&mut cells[..own]);
        Tree {
            cells,
            own,
            len: 0,
            root: None,
        }
    }

    /// The value of a key, if the key is there.
    #[tactic(auto, using(crate::proofs::Trees::looking))]
    pub fn find(&self, key: &K) -> Option<V>
        ensures { result ≡ value_of K.Kind.less key.now self.now.entries }
    {
        search::find(self.cells, self.root, key)
    }

    /// How many keys there are.
    #[tactic(auto, using(crate::proofs::Trees::looking))]
    pub fn len(&self) -> usize
        ensures number { result ≡ length self.now.entries }
        ensures arranged { Arranged K.Kind.less self.now }
    {
        self.len
    }

    /// Whether there are none.
    pub fn is_empty(&self) -> bool
        ensures { result ≡ (length self.now.entries == 0) }
    {
        self.len() == 0
    }

    /// The j-th key in order, counted from 0, with its value.
    #[tactic(auto, using(crate::proofs::Trees::looking))]
    pub fn place(&self, j: usize) -> Option<(K, V)>
        ensures { result ≡ option_map item (slice_get self.now.entries j) }
    {
        match walking::walk_to(self.cells, self.root, j) {
            Walk::At(node) => Some((node.key, node.value)),
            Walk::Past(_) => None,
        }
    }

    /// The smallest key with its value.
    pub fn first(&self) -> Option<(K, V)>
        ensures { result ≡ option_map item (slice_get self.now.entries 0) }
    {
        self.place(0)
    }

    /// Whether a key can be put into a cell: it is one of the tree's own, and no key lies in it.
    #[tactic(auto, using(crate::proofs::Trees::tree_room))]
    pub fn is_free(&self, at: u16) -> bool
        ensures { result ≡ is_free self.now at }
    {
        cell::is_free(self.cells, self.own, at)
    }

    /// Puts a key that is not there into a free cell; refused with `CellNotFree`, then with `KeyHeld`.
    #[tactic(auto, using(crate::proofs::Trees::inserting))]
    pub fn insert(&mut self, key: K, value: V, at: u16) -> Result<(), NotInserted>
        ensures answer { result ≡ insert_answer K.Kind.less key at self.old }
        ensures refused { OnErr result (self.new ≡ self.old) }
        ensures entries { OnOk result
            (self.new.entries ≡ with_key K.Kind.less key value at self.old.entries) }
        ensures lookups { OnOk result ((p : K) → kept_of K.Kind.less p self.new.entries
            ≡ (if same K.Kind.less p key then Some (record { value = value; cell = at })
            else kept_of K.Kind.less p self.old.entries)) }
        ensures others { OthersStay self.old self.new }
        ensures arranged { Arranged K.Kind.less self.new }
    {
        if !self.is_free(at) {
            return Err(NotInserted::CellNotFree);
        }
        let Some(root) = insertion::insert(self.cells, self.root, key, value, at) else {
            return Err(NotInserted::KeyHeld);
        };
        self.root = Some(root);
        self.len += 1;
        Ok(())
    }

    /// Gives a key another value, if the key is there, and answers the one that it had.
    #[tactic(auto, using(crate::proofs::Trees::changing))]
    pub fn change(&mut self, key: &K, value: V) -> Option<V>
        ensures old { result ≡ value_of K.Kind.less key.now self.old.entries }
        ensures absent { IfNone result (self.new ≡ self.old) }
        ensures entries { self.new.entries
            ≡ with_new_value K.Kind.less key.now value self.old.entries }
        ensures lookups { (p : K) → kept_of K.Kind.less p self.new.entries
            ≡ option_map (revalued K.Kind.less key.now value p)
            (kept_of K.Kind.less p self.old.entries) }
        ensures others { OthersStay self.old self.new }
        ensures arranged { Arranged K.Kind.less self.new }
    {
        changing::change(self.cells, self.root, key, value)
    }

    /// Takes a key out, if it is there, and answers the cell that is free by it.
    #[tactic(auto, using(crate::proofs::Trees::removing))]
    pub fn remove(&mut self, key: &K) -> Option<u16>
        ensures freed { result ≡ cell_of K.Kind.less key.now self.old.entries }
        ensures absent { IfNone result (self.new ≡ self.old) }
        ensures entries { self.new.entries
            ≡ without_key K.Kind.less key.now self.old.entries }
        ensures lookups { (p : K) → kept_of K.Kind.less p self.new.entries
            ≡ (if same K.Kind.less p key.now then None
            else kept_of K.Kind.less p self.old.entries) }
        ensures others { OthersStay self.old self.new }
        ensures arranged { Arranged K.Kind.less self.new }
    {
        let removed = removal::remove(self.cells, self.root, key)?;
        let freed = removed.freed;
        self.root = removed.link;
        self.cells[freed as usize] = Cell::Blank;
        self.len -= 1;
        Some(freed)
    }

    /// The cells that were lent, as they are now.
    pub fn into_cells(self) -> &'a mut [Cell<K, V>]
        ensures { result.now ≡ self.entry.cells }
    {
        let Tree { cells, .. } = self;
        cells
    }
}
