//! A held key: a real key of any kind, or a numbered dummy. Dummies come above all real keys, by number.
ghost use Rattle.keys.specs.Helds.{less_held};
ghost use Rattle.std.proofs.Common.{rules};

use crate::kind::Kind;

/// No `Result`, since a dummy is a key and no error.
#[derive(Clone, Copy, Debug, PartialEq, Eq, PartialOrd, Ord, Hash)]
pub enum Held<K> {
    Real(K),
    Dummy(u32),
}

impl<K: Kind> Kind for Held<K> {
    ghost less = { less_held K.Kind.less };

    ghost matches_cmp = { Prim.search rules };

    ghost order = { Prim.search rules };
}
