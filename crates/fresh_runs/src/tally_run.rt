//! A tally, made and worked.
ghost use Rattle.std.specs.Prelude.{◌≡◌, IfOk, IfErr};
ghost use Rattle.std.specs.Result.{result_err};
ghost use Rattle.keys.specs.KindOrders.{less_event};
ghost use Rattle.model.specs.Tallies.{tally};
ghost use Rattle.tally.specs.Contents.{content_of};
ghost use Rattle.tally.specs.Making.{made};
ghost use Rattle.work.specs.Memories.{memory_of, SameBuffers};
ghost use Rattle.work.specs.Permits.{all_out};
ghost use Rattle.fresh_runs.specs.FreshRuns.{Worked};

use crate::fresh::work_fresh;
use keys::event::EventKind;
use keys::refusal::Refusal;
use lenses::lens::Lens;
use release::book::Book;
use tally::tally::Tally;
use work::buffers::Buffers;
use work::call::{Answer, Call};

/// Makes a tally of k kinds and works it by the calls; answers the tally, and how many calls were made. Refused with 1
/// unless k is 2 to 64; nothing is changed then.
pub fn work_tally<L: Lens<Key = EventKind>>(
    k: u32,
    books: &mut [Book],
    calls: &[Call<'_, EventKind, L>],
    answers: &mut [Answer<EventKind>],
    buffers: &mut Buffers<'_, EventKind>,
) -> Result<(Tally, usize), Refusal>
    ensures same { SameBuffers buffers.old buffers.new }
    ensures answer { result_err result ≡ result_err (made k) }
    ensures plan { IfOk result (λ r. tally r.0.k ≡ tally k) }
    ensures worked { IfOk result (λ r. Worked L.gives (tally k) less_event books.old calls.now (content_of r.0.k r.0.n r.0.counts) books.new
        answers.old answers.new (memory_of buffers.old) (memory_of buffers.new) r.1) }
    ensures out { all_out books.new ≡ all_out books.old }
    ensures refused { IfErr result (λ _. (books.new ≡ books.old) × (answers.new ≡ answers.old) × (memory_of buffers.new ≡ memory_of buffers.old)) }
{
    let mut tally = Tally::make(k)?;
    let worked = work_fresh(&mut tally, books, calls, answers, buffers);
    Ok((tally, worked))
}
