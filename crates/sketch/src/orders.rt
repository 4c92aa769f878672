//! Held keys with their stored counts, in two trees: by key, and by stored count and then key.
ghost use Rattle.std.specs.Prelude.{◌≡◌, ◌≢◌, ℕ, ◌-◌, ◌<◌, ◌≤◌, Some, None, MatchOption, slice_get};
ghost use Rattle.std.specs.Option.{option_map};
ghost use Rattle.keys.specs.Helds.{less_held};
ghost use Rattle.tree.specs.Entries.{item, kept_of, value_of};
ghost use Rattle.tree.specs.Trees.{Arranged};
ghost use Rattle.sketch.specs.Orders.{stored, Tied};
ghost use Rattle.sketch.specs.Exchanges.{NoneAt, FirstAt, IsLeast, Exchanged, HasRaised, HasReplaced};

use keys::held::Held;
use keys::kind::Kind;
use keys::pair::Pair;
use tree::tree::Tree;

/// Takes a key out of a tree and puts another in, into the cell that is free by it.
#[tactic(auto, unfolding(crate::specs::Exchanges::Exchanged))]
fn exchange<K: Kind, V: Copy>(tree: &mut Tree<'_, K, V>, old: &K, new: K, value: V)
    requires arranged { Arranged K.Kind.less tree.old }
    requires there { kept_of K.Kind.less old.now tree.old.entries ≢ None }
    requires other { kept_of K.Kind.less new tree.old.entries ≡ None }
    ensures { Exchanged K.Kind.less old.now new value tree.old tree.new }
{
    let Some(freed) = tree.remove(old) else {
        unreachable!()
    };
    tree.insert(new, value, freed).unwrap();
}

/// The count of a key, if the key is held: its stored count less l.
pub(crate) fn count<K: Kind>(keys: &Tree<'_, Held<K>, u32>, key: &Held<K>, l: u32) -> Option<u32>
    requires { (m : ℕ) → value_of (less_held K.Kind.less) key.now keys.now.entries ≡ Some m → l ≤ m }
    ensures { result ≡ option_map (λ m. m - l) (value_of (less_held K.Kind.less) key.now keys.now.entries) }
{
    let stored = keys.find(key)?;
    Some(stored - l)
}

/// The j-th held key in order, counted from 0, with its count.
pub(crate) fn place<K: Kind>(
    keys: &Tree<'_, Held<K>, u32>,
    j: usize,
    l: u32,
) -> Option<(Held<K>, u32)>
    requires { (x : Held K) (m : ℕ)
        → option_map item (slice_get keys.now.entries j) ≡ Some (x, m) → l ≤ m }
    ensures { result ≡ option_map (λ e. (e.0, e.1 - l)) (option_map item (slice_get keys.now.entries j)) }
{
    let (key, stored) = keys.place(j)?;
    Some((key, stored - l))
}

/// The smallest of the keys with this stored count, where no stored count is less.
#[tactic(auto, unfolding(crate::specs::Exchanges::NoneAt, crate::specs::Exchanges::FirstAt))]
pub(crate) fn smallest_at<K: Kind>(
    ranks: &Tree<'_, Pair<u32, Held<K>>, ()>,
    count: u32,
) -> Option<Held<K>>
    ensures { MatchOption result (NoneAt count ranks.now.entries) (λ x. FirstAt count ranks.now.entries x) }
{
    let (rank, ()) = ranks.first()?;
    (rank.first == count).then_some(rank.second)
}

/// Adds 1 to the stored count of a key.
pub(crate) fn raise<K: Kind>(
    keys: &mut Tree<'_, Held<K>, u32>,
    ranks: &mut Tree<'_, Pair<u32, Held<K>>, ()>,
    key: Held<K>,
    count: u32,
)
    requires tied { Tied K.Kind.less (record { keys = keys.old; ranks = ranks.old }) }
    requires there { stored K.Kind.less key (record { keys = keys.old; ranks = ranks.old }) ≡ Some count }
    requires room { count < 4_294_967_295 }
    ensures { HasRaised K.Kind.less key (record { keys = keys.old; ranks = ranks.old }) (record { keys = keys.new; ranks = ranks.new }) }
{
    let rank = Pair {
        first: count,
        second: key,
    };
    let raised = Pair {
        first: count + 1,
        second: key,
    };
    exchange(ranks, &rank, raised, ());
    keys.change(&key, count + 1);
}

/// Takes the least key out and puts another in, with a stored count of its own.
pub(crate) fn replace<K: Kind>(
    keys: &mut Tree<'_, Held<K>, u32>,
    ranks: &mut Tree<'_, Pair<u32, Held<K>>, ()>,
    old: Pair<u32, Held<K>>,
    new: Pair<u32, Held<K>>,
)
    requires tied { Tied K.Kind.less (record { keys = keys.old; ranks = ranks.old }) }
    requires least { IsLeast K.Kind.less (record { keys = keys.old; ranks = ranks.old }) old }
    requires other { stored K.Kind.less new.second (record { keys = keys.old; ranks = ranks.old }) ≡ None }
    ensures { HasReplaced K.Kind.less old.first new (record { keys = keys.old; ranks = ranks.old }) (record { keys = keys.new; ranks = ranks.new }) }
{
    exchange(ranks, &old, new, ());
    exchange(keys, &old.second, new.second, new.first);
}
