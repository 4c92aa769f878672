//! A sketch, made in cells that the caller lends, and worked.
ghost use Rattle.std.specs.Prelude.{◌≡◌, IfOk, IfErr, length};
ghost use Rattle.model.specs.Sketches.{sketch};
ghost use Rattle.sketch.specs.Making.{make_answer, refusal_of};
ghost use Rattle.sketch.specs.Orders.{LentFirst};
ghost use Rattle.sketch.specs.Sketches.{content_of};
ghost use Rattle.work.specs.Memories.{memory_of, SameBuffers};
ghost use Rattle.work.specs.Permits.{all_out};
ghost use Rattle.fresh_runs.specs.FreshRuns.{Worked};

use crate::fresh::work_fresh;
use keys::held::Held;
use keys::kind::Kind;
use keys::pair::Pair;
use lenses::lens::Lens;
use release::book::Book;
use sketch::making::NotMade;
use sketch::sketch::Sketch;
use tree::cell::Cell;
use work::buffers::Buffers;
use work::call::{Answer, Call};

/// Makes a sketch of k keys in the cells, and works it by the calls; answers the sketch, and how many calls were made.
/// Refused as the making of a sketch is, with 1 or 2; nothing is changed then, and the cells come back.
pub fn work_sketch<'a, K: Kind, L: Lens<Key = K>>(
    k: u32,
    keys: &'a mut [Cell<Held<K>, u32>],
    ranks: &'a mut [Cell<Pair<u32, Held<K>>, ()>],
    books: &mut [Book],
    calls: &[Call<'_, K, L>],
    answers: &mut [Answer<K>],
    buffers: &mut Buffers<'_, K>,
) -> Result<(Sketch<'a, K>, usize), NotMade<'a, K>>
    ensures same { SameBuffers buffers.old buffers.new }
    ensures answer { refusal_of result ≡ make_answer k (length keys.old) (length ranks.old) }
    ensures plan { IfOk result (λ r. sketch K.Kind.less r.0.facts.k ≡ sketch K.Kind.less k) }
    ensures cells { IfOk result (λ r. LentFirst k keys.old r.0.orders.keys × LentFirst k ranks.old r.0.orders.ranks) }
    ensures worked { IfOk result (λ r. Worked L.gives (sketch K.Kind.less k) K.Kind.less books.old calls.now (content_of r.0) books.new
        answers.old answers.new (memory_of buffers.old) (memory_of buffers.new) r.1) }
    ensures out { all_out books.new ≡ all_out books.old }
    ensures refused { IfErr result (λ e. (e.keys.now ≡ keys.old) × (e.ranks.now ≡ ranks.old)
        × (books.new ≡ books.old) × (answers.new ≡ answers.old) × (memory_of buffers.new ≡ memory_of buffers.old)) }
{
    let mut sketch = Sketch::make(k, keys, ranks)?;
    let worked = work_fresh(&mut sketch, books, calls, answers, buffers);
    Ok((sketch, worked))
}
