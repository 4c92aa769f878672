//! The lens of two lenses.
ghost use Rattle.lenses.specs.Gives.{both};

use crate::lens::Lens;
use keys::pair::Pair;
use records::record::Record;

/// Gives the keys of both lenses as a pair; none if either gives none.
#[derive(Clone, Copy, Debug, PartialEq, Eq, Hash)]
pub struct PairLens<A, B> {
    pub first: A,
    pub second: B,
}

impl<A: Lens, B: Lens> Lens for PairLens<A, B> {
    type Key = Pair<A::Key, B::Key>;

    ghost gives = { λ lens r. both (A.gives lens.first r) (B.gives lens.second r) };

    fn key(&self, given: &Record<'_>) -> Option<Self::Key> {
        Some(Pair {
            first: self.first.key(given)?,
            second: self.second.key(given)?,
        })
    }
}
