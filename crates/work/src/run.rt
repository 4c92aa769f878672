//! A run: any list of calls of any summary.
ghost use Rattle.std.specs.Prelude.{◌≡◌, ◌<◌, length, take, drop, slice_set, min};
ghost use Rattle.work.specs.Memories.{memory_of, SameBuffers};
ghost use Rattle.work.specs.Calls.{content_with, books_with, answer_of, lines_of, draws_of, lists_of};
ghost use Rattle.work.specs.Steps.{Between, Ends, Within, Rewritten, cut, cut_memory, Stepped};
ghost use Rattle.work.specs.Permits.{all_out};
ghost use Rattle.work.specs.Runs.{Run};
ghost use Rattle.work.specs.ShorterLogs.{NeighboursByLogs};

use crate::buffers::{Buffers, Places};
use crate::call::{Answer, Call};
use crate::one::{one, own_draws, own_lines, own_lists};
use lenses::lens::Lens;
use release::book::Book;
use summaries::summary::Summary;

/// Makes a call with the parts of the memory from one place to another.
fn one_at<S: Summary, L: Lens<Key = S::Key>>(
    summary: &mut S,
    books: &mut [Book],
    call: &Call<'_, S::Key, L>,
    buffers: &mut Buffers<'_, S::Key>,
    from: Places,
    to: Places,
) -> Answer<S::Key>
    requires lines { Between from.lines to.lines buffers.old.lines.now }
    requires draws { Between from.draws to.draws buffers.old.draws.now }
    requires lists { Between from.lists to.lists buffers.old.lists.now }
    ensures same { SameBuffers buffers.old buffers.new }
    ensures plan { S.plan summary.new ≡ S.plan summary.old }
    ensures stays { S.stays summary.old summary.new }
    ensures content { S.content summary.new ≡ content_with L.gives (S.plan summary.old) (S.content summary.old) call.now }
    ensures books { books.new ≡ books_with (S.content summary.old) books.old call.now (cut_memory from to (memory_of buffers.old)) }
    ensures answer { result ≡ answer_of L.gives (S.plan summary.old) S.Key.Kind.less (S.content summary.old) books.old call.now
        (cut_memory from to (memory_of buffers.old)) }
    ensures lines { Rewritten from.lines to.lines (lines_of (S.content summary.old) call.now (cut from.lines to.lines buffers.old.lines.now))
        buffers.old.lines.now buffers.new.lines.now }
    ensures draws { Rewritten from.draws to.draws (draws_of call.now (cut from.draws to.draws buffers.old.draws.now))
        buffers.old.draws.now buffers.new.draws.now }
    ensures lists { Rewritten from.lists to.lists (lists_of (S.content summary.old) books.old call.now
        (cut from.draws to.draws buffers.old.draws.now) (cut from.lists to.lists buffers.old.lists.now))
        buffers.old.lists.now buffers.new.lists.now }
{
    one(
        summary,
        books,
        call,
        &mut buffers.lines[from.lines..to.lines],
        &mut buffers.draws[from.draws..to.draws],
        &mut buffers.lists[from.lists..to.lists],
    )
}

/// Where the parts of a call end that begin at these places.
fn ends<K, L>(call: &Call<'_, K, L>, buffers: &Buffers<'_, K>, from: Places) -> Places
    ensures { Ends call.now (memory_of buffers.now) from result }
{
    Places {
        lines: own_lines(call)
            .saturating_add(from.lines)
            .min(buffers.lines.len()),
        draws: own_draws(call)
            .saturating_add(from.draws)
            .min(buffers.draws.len()),
        lists: own_lists(call)
            .saturating_add(from.lists)
            .min(buffers.lists.len()),
    }
}

/// Makes a call with the parts of the memory that begin at these places, each as long as the call names and cut where
/// the memory ends, and answers where the next parts begin.
#[tactic(auto, unfolding(crate::specs::Steps::Stepped))]
fn step<S: Summary, L: Lens<Key = S::Key>>(
    summary: &mut S,
    books: &mut [Book],
    call: &Call<'_, S::Key, L>,
    buffers: &mut Buffers<'_, S::Key>,
    from: Places,
) -> (Answer<S::Key>, Places)
    requires { Within (memory_of buffers.old) from }
    ensures same { SameBuffers buffers.old buffers.new }
    ensures plan { S.plan summary.new ≡ S.plan summary.old }
    ensures stays { S.stays summary.old summary.new }
    ensures ends { Ends call.now (memory_of buffers.old) from result.1 }
    ensures step { Stepped L.gives (S.plan summary.old) S.Key.Kind.less call.now (S.content summary.old) books.old (memory_of buffers.old) from result.1
        (S.content summary.new) books.new result.0 (memory_of buffers.new) }
{
    let to = ends(call, buffers, from);
    (one_at(summary, books, call, buffers, from, to), to)
}

/// Records an answer.
fn record<K: Copy>(answers: &mut [Answer<K>], i: usize, answer: Answer<K>)
    requires { i < length answers.old }
    ensures { answers.new ≡ slice_set answers.old i answer }
{
    answers[i] = answer;
}

/// Works a summary by the calls, one after another: by all of them, or by as many as there are answers to record; and
/// says how many. The j-th answer is recorded at j. Each call has the next part of each memory, as long as it names, and
/// cut where the memory ends.
#[tactic(auto, using(crate::proofs::Turning::from_within, crate::proofs::Turning::same_out, crate::proofs::Turning::others_left))]
pub fn work<S: Summary, L: Lens<Key = S::Key>>(
    summary: &mut S,
    books: &mut [Book],
    calls: &[Call<'_, S::Key, L>],
    answers: &mut [Answer<S::Key>],
    buffers: &mut Buffers<'_, S::Key>,
) -> usize
    ensures same { SameBuffers buffers.old buffers.new }
    ensures plan { S.plan summary.new ≡ S.plan summary.old }
    ensures stays { S.stays summary.old summary.new }
    ensures worked { result ≡ min (length calls.now) (length answers.old) }
    ensures others { drop result answers.new ≡ drop result answers.old }
    ensures out { all_out books.new ≡ all_out books.old }
    ensures run { Run L.gives (S.plan summary.old) S.Key.Kind.less (S.content summary.old) books.old (take result calls.now)
        (S.content summary.new) books.new (take result answers.new) (memory_of buffers.old) (memory_of buffers.new) }
    ensures logs { NeighboursByLogs S.Key.Kind.less (S.plan summary.old) }
{
    let worked = calls.len().min(answers.len());
    let mut from = Places {
        lines: 0,
        draws: 0,
        lists: 0,
    };
    for i in 0..worked {
        let (answer, to) = step(summary, books, &calls[i], buffers, from);
        record(answers, i, answer);
        from = to;
    }
    worked
}
