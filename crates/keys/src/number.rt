//! A number of 32 bits as a key, ordered by size: stored counts are such keys.
ghost use Rattle.std.specs.Prelude.{nat_lt};
ghost use Rattle.std.proofs.Common.{rules};

use crate::kind::Kind;

impl Kind for u32 {
    ghost less = { nat_lt };

    ghost matches_cmp = { Prim.search rules };

    ghost order = { Prim.search rules };
}
