//! One call.
ghost use Rattle.std.specs.Prelude.{◌≡◌};
ghost use Rattle.work.specs.Memories.{memory, own_lines, own_draws, own_lists};
ghost use Rattle.work.specs.Calls.{content_with, books_with, answer_of, lines_of, draws_of, lists_of};

use crate::call::{Answer, Call};
use crate::release_by::release_by;
use feeding::feed::feed;
use lenses::lens::Lens;
use pages::line::Line;
use pages::page::page;
use release::book::Book;
use release::entry::Entry;
use summaries::summary::Summary;

/// Makes a call with its parts of the memory.
pub(crate) fn one<S: Summary, L: Lens<Key = S::Key>>(
    summary: &mut S,
    books: &mut [Book],
    call: &Call<'_, S::Key, L>,
    lines: &mut [Line<S::Key>],
    draws: &mut [i32],
    lists: &mut [Entry<S::Key>],
) -> Answer<S::Key>
    ensures plan { S.plan summary.new ≡ S.plan summary.old }
    ensures stays { S.stays summary.old summary.new }
    ensures content { S.content summary.new ≡ content_with L.gives (S.plan summary.old) (S.content summary.old) call.now }
    ensures books { books.new ≡ books_with (S.content summary.old) books.old call.now (memory lines.old draws.old lists.old) }
    ensures answer { result ≡ answer_of L.gives (S.plan summary.old) S.Key.Kind.less (S.content summary.old) books.old call.now
        (memory lines.old draws.old lists.old) }
    ensures lines { lines.new ≡ lines_of (S.content summary.old) call.now lines.old }
    ensures draws { draws.new ≡ draws_of call.now draws.old }
    ensures lists { lists.new ≡ lists_of (S.content summary.old) books.old call.now draws.old lists.old }
{
    match call {
        Call::Take(key) => Answer::Take(summary.take(*key)),
        Call::Feed(given) => Answer::Feed(feed(summary, given.lens, given.log)),
        Call::Count(key) => Answer::Count(summary.count(key)),
        Call::Place(j) => Answer::Place(summary.place(*j)),
        Call::Facts => Answer::Facts(summary.facts()),
        Call::Page { limit, .. } => Answer::Page(page(summary, *limit, lines)),
        Call::Release(given) => Answer::Release(release_by(summary, books, given, draws, lists)),
    }
}

/// How many lines a call has for itself.
pub(crate) fn own_lines<K, L>(call: &Call<'_, K, L>) -> usize
    ensures { result ≡ own_lines call.now }
{
    match call {
        Call::Page { lines, .. } => *lines,
        _ => 0,
    }
}

/// How many draws.
pub(crate) fn own_draws<K, L>(call: &Call<'_, K, L>) -> usize
    ensures { result ≡ own_draws call.now }
{
    match call {
        Call::Release(given) => given.draws,
        _ => 0,
    }
}

/// How many entries for a list.
pub(crate) fn own_lists<K, L>(call: &Call<'_, K, L>) -> usize
    ensures { result ≡ own_lists call.now }
{
    match call {
        Call::Release(given) => given.entries,
        _ => 0,
    }
}
