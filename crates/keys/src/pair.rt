//! A pair of any two kinds: ordered by the first part, then by the second.
ghost use Rattle.keys.specs.Orders.{by_parts};
ghost use Rattle.std.proofs.Common.{rules};

use crate::kind::Kind;

#[derive(Clone, Copy, Debug, PartialEq, Eq, PartialOrd, Ord, Hash)]
pub struct Pair<A, B> {
    pub first: A,
    pub second: B,
}

impl<A: Kind, B: Kind> Kind for Pair<A, B> {
    ghost less = { λ p q. by_parts A.Kind.less B.Kind.less p.first p.second q.first q.second };

    ghost matches_cmp = { Prim.search rules };

    ghost order = { Prim.search rules };
}
