//! A kind of key: a type whose values are totally ordered, and their comparison.
ghost use Rattle.std.specs.Prelude.{◌≡◌, Bool, true, Decides};
ghost use Rattle.std.specs.Ordering.{MatchOrdering};
ghost use Rattle.keys.specs.Orders.{TotalOrder, ComparesBy};

use std::cmp::Ordering;

/// Each kind shows of its order `less` that it is total and that `cmp` answers by it.
pub trait Kind: Copy + Ord {
    ghost less: { Self → Self → Bool };

    fn compare(&self, other: &Self) -> Ordering
        ensures { MatchOrdering result (less self.now other.now ≡ true) (self.now ≡ other.now) (less other.now self.now ≡ true) }
    {
        self.cmp(other)
    }

    ghost matches_cmp: { ComparesBy less Self.cmp };

    ghost order: { TotalOrder less };
}

/// Whether the two are the same key.
pub fn same<K: Kind>(a: &K, b: &K) -> bool
    ensures { Decides result (a.now ≡ b.now) }
{
    a.compare(b).is_eq()
}

/// Whether the first key is less than the second; `order` is what the kind promises of `less`.
pub fn before<K: Kind>(a: &K, b: &K) -> bool
    ensures answer { result ≡ K.Kind.less a.now b.now }
    ensures order { TotalOrder K.Kind.less }
{
    a.compare(b).is_lt()
}
