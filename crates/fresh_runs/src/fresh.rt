//! A summary that has taken no entries, worked.
ghost use Rattle.std.specs.Prelude.{◌≡◌};
ghost use Rattle.work.specs.Memories.{memory_of, SameBuffers};
ghost use Rattle.work.specs.Permits.{all_out};
ghost use Rattle.fresh_runs.specs.FreshRuns.{Worked};

use lenses::lens::Lens;
use release::book::Book;
use summaries::summary::Summary;
use work::buffers::Buffers;
use work::call::{Answer, Call};
use work::run::work;

/// Works a fresh summary.
pub(crate) fn work_fresh<S: Summary, L: Lens<Key = S::Key>>(
    summary: &mut S,
    books: &mut [Book],
    calls: &[Call<'_, S::Key, L>],
    answers: &mut [Answer<S::Key>],
    buffers: &mut Buffers<'_, S::Key>,
) -> usize
    requires { S.content summary.old ≡ (S.plan summary.old).fresh }
    ensures same { SameBuffers buffers.old buffers.new }
    ensures plan { S.plan summary.new ≡ S.plan summary.old }
    ensures stays { S.stays summary.old summary.new }
    ensures worked { Worked L.gives (S.plan summary.old) S.Key.Kind.less books.old calls.now (S.content summary.new) books.new
        answers.old answers.new (memory_of buffers.old) (memory_of buffers.new) result }
    ensures out { all_out books.new ≡ all_out books.old }
{
    work(summary, books, calls, answers, buffers)
}
