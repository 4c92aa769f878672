//! The sketch: held keys with stored counts. A stored count is the count plus l, so a lowering writes no cell.
use crate::orders::{count, place};
use crate::taking::take_key;
use keys::held::Held;
use keys::kind::Kind;
use keys::pair::Pair;
use keys::refusal::Refusal;
use std::marker::Model;
use summaries::answers::{Facts, Taken};
use summaries::summary::Summary;
use tree::cell::Cell;
use tree::tree::Tree;

/// Every value of this type is a sketch, so no call requires it.
#[derive(Drop)]
pub struct Sketch<'a, K: Kind> {
    pub(crate) facts: Facts,
    pub(crate) keys: Tree<'a, Held<K>, u32>,
    pub(crate) ranks: Tree<'a, Pair<u32, Held<K>>, ()>,
}

impl<'a, K: Kind> Model for Sketch<'a, K> {
    ghost use Rattle.sketch.specs.Sketches.{SketchView, IsSketch};

    ghost Value = { SketchView K };

    ghost view = { λ s. record { facts = s.facts; orders = record { keys = s.keys; ranks = s.ranks } } };

    ghost invariant = { λ s. IsSketch K.Kind.less (record { facts = s.facts; orders = record { keys = s.keys; ranks = s.ranks } }) };
}

impl<'a, K: Kind> Sketch<'a, K> {
    ghost use Rattle.std.specs.Prelude.{◌≡◌};

    /// The cells of both orders that were lent, as they are now.
    pub fn into_cells(
        self,
    ) -> (
        &'a mut [Cell<Held<K>, u32>],
        &'a mut [Cell<Pair<u32, Held<K>>, ()>],
    )
        ensures keys { result.0.now ≡ self.entry.orders.keys.cells }
        ensures ranks { result.1.now ≡ self.entry.orders.ranks.cells }
    {
        let Sketch { keys, ranks, .. } = self;
        (keys.into_cells(), ranks.into_cells())
    }
}

impl<'a, K: Kind> Summary for Sketch<'a, K> {
    ghost use Rattle.std.specs.Prelude.{◌≡◌, IfOk, OnErr};
    ghost use Rattle.std.proofs.Common.{rules};
    ghost use Rattle.model.specs.Sketches.{sketch};
    ghost use Rattle.model.proofs.SketchLaws.{sketch_lawful};
    ghost use Rattle.summaries.specs.Calls.{taken_content, taken_answer};
    ghost use Rattle.sketch.specs.Orders.{CellsStay};
    ghost use Rattle.sketch.specs.OrdersLemmas.{cells_same, cells_on};
    ghost use Rattle.sketch.specs.Sketches.{content_of, Laid};

    type Key = K;

    ghost content = { content_of };

    ghost plan = { λ s. sketch K.Kind.less s.facts.k };

    ghost stays = { λ s t. CellsStay s.orders t.orders };

    ghost stays_same = { λ s. cells_same s.orders };

    ghost stays_on = { λ s t u a b. cells_on s.orders t.orders u.orders a b };

    ghost lawful = { λ s. sketch_lawful K.Kind.less K.Kind.order s.facts.k };

    ghost counts = { Prim.search rules };

    /// It never refuses with 6. No cell beyond the first k of either order changes, and in a lowering no cell at all.
    #[tactic(auto, using(crate::proofs::Steps::sketch_tied), unfolding(crate::specs::Sketches::Took, crate::specs::Sketches::content_of))]
    fn take(&mut self, key: K) -> Result<Taken, Refusal>
        ensures plan { sketch K.Kind.less self.new.facts.k ≡ sketch K.Kind.less self.old.facts.k }
        ensures content { content_of self.new
            ≡ taken_content (sketch K.Kind.less self.old.facts.k) (content_of self.old) key }
        ensures answer { result
            ≡ taken_answer K.Kind.less (sketch K.Kind.less self.old.facts.k) (content_of self.old) key }
        ensures refused { OnErr result (self.new ≡ self.old) }
        ensures stays { CellsStay self.old.orders self.new.orders }
        ensures lowering { IfOk result (λ taken. taken ≡ Taken.Lowered → self.new.orders ≡ self.old.orders) }
        ensures laid { Laid K.Kind.less self.new }
    {
        if self.facts.n == u32::MAX {
            return Err(Refusal::Full);
        }
        Ok(take_key(&mut self.facts, &mut self.keys, &mut self.ranks, key))
    }

    fn count(&self, key: &K) -> Option<u32> {
        count(&self.keys, &Held::Real(*key), self.facts.l)
    }

    fn place(&self, j: usize) -> Option<(Held<K>, u32)> {
        place(&self.keys, j, self.facts.l)
    }

    #[tactic(auto, unfolding(crate::specs::Sketches::content_of))]
    fn facts(&self) -> Facts {
        self.facts
    }
}
