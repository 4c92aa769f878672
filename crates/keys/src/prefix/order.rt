//! Prefixes in order: by address as a number, then by length.
ghost use Rattle.keys.specs.KindOrders.{less_prefix};
ghost use Rattle.keys.specs.KindOrdersLemmas.{prefix_compares, prefix_total};

use crate::kind::Kind;
use crate::prefix::Prefix;

impl Kind for Prefix {
    ghost less = { less_prefix };

    ghost matches_cmp = { prefix_compares };

    ghost order = { prefix_total };
}
