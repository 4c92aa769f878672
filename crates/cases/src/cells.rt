//! The cells lent to a sketch that is refused.
use keys::held::Held;
use keys::pair::Pair;
use sketch::sketch::Sketch;
use tree::cell::{Cell, Node};

/// A cell of the order by key with a key in it, which no sketch makes.
const USED_KEY: Cell<Held<u32>, u32> = Cell::Used(Node {
    key: Held::Real(9),
    value: 90,
    left: Some(7),
    right: None,
});

/// The same for the order by stored count.
const USED_RANK: Cell<Pair<u32, Held<u32>>, ()> = Cell::Used(Node {
    key: Pair {
        first: 9,
        second: Held::Real(9),
    },
    value: (),
    left: None,
    right: Some(7),
});

/// Too few cells for either order, and a k out of range, which is found first. The cells stay.
#[test]
fn of_a_refused_sketch(rt: HostRuntime) {
    let mut keys = [USED_KEY; 3];
    let mut ranks = [USED_RANK; 3];
    for (k, key_cells, rank_cells, number) in [(3, 2, 3, 2), (3, 3, 2, 2), (1, 0, 0, 1)] {
        match Sketch::make(k, &mut keys[..key_cells], &mut ranks[..rank_cells]) {
            Ok(_) => panic!(rt; "made with {k}"),
            Err(not_made) => assert_eq!(rt; not_made.refusal.number(), number),
        }
    }
    assert!(rt; keys == [USED_KEY; 3]);
    assert!(rt; ranks == [USED_RANK; 3]);
}
