//! Making a sketch in cells that the caller lends.
ghost use Rattle.std.specs.Prelude.{◌≡◌, ◌≤◌, IfErr, IfOk, length};
ghost use Rattle.sketch.specs.Making.{make_answer, refusal_of, IsFresh};

use crate::sketch::Sketch;
use keys::held::Held;
use keys::kind::Kind;
use keys::pair::Pair;
use keys::refusal::Refusal;
use summaries::answers::Facts;
use tree::cell::Cell;
use tree::tree::Tree;

/// Why no sketch was made, and the cells that were lent for it, as they were.
#[derive(Debug, Drop)]
pub struct NotMade<'a, K> {
    pub refusal: Refusal,
    pub keys: &'a mut [Cell<Held<K>, u32>],
    pub ranks: &'a mut [Cell<Pair<u32, Held<K>>, ()>],
}

/// The most keys that a sketch can hold.
pub const MOST_KEYS: u32 = 1_024;

/// Why a sketch of k keys cannot be made in as many cells, if it cannot.
fn refusal(k: u32, key_cells: usize, rank_cells: usize) -> Option<Refusal>
    ensures { result ≡ make_answer k key_cells rank_cells }
{
    if k < 2 || k > MOST_KEYS {
        return Some(Refusal::OutOfRange);
    }
    if key_cells < k as usize || rank_cells < k as usize {
        return Some(Refusal::FewCells);
    }
    None
}

impl<'a, K: Kind> Sketch<'a, K> {
    /// A fresh sketch of k keys, whose own cells are the first k for each order; refused with 1 unless k is 2 to 1,024,
    /// then with 2 if there are fewer than k cells for an order.
    pub fn make(
        k: u32,
        keys: &'a mut [Cell<Held<K>, u32>],
        ranks: &'a mut [Cell<Pair<u32, Held<K>>, ()>],
    ) -> Result<Sketch<'a, K>, NotMade<'a, K>>
        ensures answer { refusal_of result ≡ make_answer k (length keys.old) (length ranks.old) }
        ensures made { IfOk result (λ s. IsFresh K.Kind.less k keys.old ranks.old s) }
        ensures refused { IfErr result (λ e. (e.keys.now ≡ keys.old) × (e.ranks.now ≡ ranks.old)) }
    {
        if let Some(refusal) = refusal(k, keys.len(), ranks.len()) {
            return Err(NotMade {
                refusal,
                keys,
                ranks,
            });
        }
        Ok(Sketch::fresh(k as u16, keys, ranks))
    }

    /// A fresh sketch of k keys: dummies 0 to k - 1 at 0. Each is put into the cell of its number, which is not promised.
    fn fresh(
        k: u16,
        keys: &'a mut [Cell<Held<K>, u32>],
        ranks: &'a mut [Cell<Pair<u32, Held<K>>, ()>],
    ) -> Sketch<'a, K>
        requires some { 2 ≤ k }
        requires few { k ≤ 1024 }
        requires keys { k ≤ length keys.old }
        requires ranks { k ≤ length ranks.old }
        ensures { IsFresh K.Kind.less k keys.old ranks.old result }
    {
        let mut by_key = Tree::make(keys, k as usize);
        let mut by_rank = Tree::make(ranks, k as usize);
        for cell in 0..k {
            let dummy = Held::Dummy(cell as u32);
            by_key.insert(dummy, 0, cell).unwrap();
            let rank = Pair {
                first: 0,
                second: dummy,
            };
            by_rank.insert(rank, (), cell).unwrap();
        }
        let facts = Facts {
            k: k as u32,
            n: 0,
            l: 0,
        };
        Sketch {
            facts,
            keys: by_key,
            ranks: by_rank,
        }
    }
}
