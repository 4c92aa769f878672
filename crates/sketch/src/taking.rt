//! Taking a key by the sketch's rule: raise it, lower all counts, or replace the smallest key at 0.
ghost use Rattle.std.specs.Prelude.{◌<◌};
ghost use Rattle.sketch.specs.Orders.{Tied};
ghost use Rattle.sketch.specs.Exchanges.{Unheld};
ghost use Rattle.sketch.specs.Sketches.{IsSketch, Took};

use crate::orders::{raise, replace, smallest_at};
use keys::held::Held;
use keys::kind::Kind;
use keys::pair::Pair;
use summaries::answers::{Facts, Taken};
use tree::tree::Tree;

/// Takes a key that is not held: lowers all counts, or replaces the smallest key at 0.
#[tactic(auto, using(crate::proofs::Steps::taking_new))]
fn take_new<K: Kind>(
    facts: &mut Facts,
    keys: &mut Tree<'_, Held<K>, u32>,
    ranks: &mut Tree<'_, Pair<u32, Held<K>>, ()>,
    key: K,
) -> Taken
    requires sketch { IsSketch K.Kind.less (record { facts = facts.old; orders = record { keys = keys.old; ranks = ranks.old } }) }
    requires tied { Tied K.Kind.less (record { keys = keys.old; ranks = ranks.old }) }
    requires new { Unheld K.Kind.less (Held.Real key) (record { keys = keys.old; ranks = ranks.old }) }
    requires room { facts.old.n < 4_294_967_295 }
    ensures { Took K.Kind.less (record { facts = facts.old; orders = record { keys = keys.old; ranks = ranks.old } }) key result (record { facts = facts.new; orders = record { keys = keys.new; ranks = ranks.new } }) }
{
    facts.n += 1;
    let Some(smallest) = smallest_at(ranks, facts.l) else {
        facts.l += 1;
        return Taken::Lowered;
    };
    let leaving = Pair {
        first: facts.l,
        second: smallest,
    };
    let coming = Pair {
        first: facts.l + 1,
        second: Held::Real(key),
    };
    replace(keys, ranks, leaving, coming);
    Taken::Replaced
}

/// Takes a key, where there is room for one entry more. A lowering writes no cell.
#[tactic(auto, using(crate::proofs::Steps::taking))]
pub(crate) fn take_key<K: Kind>(
    facts: &mut Facts,
    keys: &mut Tree<'_, Held<K>, u32>,
    ranks: &mut Tree<'_, Pair<u32, Held<K>>, ()>,
    key: K,
) -> Taken
    requires sketch { IsSketch K.Kind.less (record { facts = facts.old; orders = record { keys = keys.old; ranks = ranks.old } }) }
    requires tied { Tied K.Kind.less (record { keys = keys.old; ranks = ranks.old }) }
    requires room { facts.old.n < 4_294_967_295 }
    ensures { Took K.Kind.less (record { facts = facts.old; orders = record { keys = keys.old; ranks = ranks.old } }) key result (record { facts = facts.new; orders = record { keys = keys.new; ranks = ranks.new } }) }
{
    let held = Held::Real(key);
    if let Some(count) = keys.find(&held) {
        facts.n += 1;
        raise(keys, ranks, held, count);
        return Taken::Raised;
    }
    take_new(facts, keys, ranks, key)
}
