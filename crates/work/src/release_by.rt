//! A release in a run.
ghost use Rattle.std.specs.Prelude.{◌≡◌, length, replicate, pos};
ghost use Rattle.work.specs.Releases.{outcome, release_answer, release_books, release_list};

use crate::call::Releasing;
use keys::refusal::Refusal;
use release::book::{Book, Refused};
use release::entry::Entry;
use release::release::release;
use summaries::summary::Summary;

/// Has a permit issued and releases a list by it. A permit that comes back is handed back to the book that issued it.
/// Whatever it comes to, the draws are all zero.
pub(crate) fn release_by<S: Summary>(
    summary: &S,
    books: &mut [Book],
    given: &Releasing,
    draws: &mut [i32],
    output: &mut [Entry<S::Key>],
) -> Option<Result<usize, Refusal>>
    ensures answer { result ≡ release_answer (outcome (S.content summary.now) books.old given.now draws.old (length output.old)) }
    ensures books { books.new ≡ release_books books.old given.now (outcome (S.content summary.now) books.old given.now draws.old (length output.old)) }
    ensures draws { draws.new ≡ replicate (length draws.old) (pos 0) }
    ensures output { output.new ≡ release_list output.old (outcome (S.content summary.now) books.old given.now draws.old (length output.old)) }
{
    if given.issuer >= books.len() || given.book >= books.len() {
        draws.fill(0);
        return None;
    }
    let permit = match books[given.issuer].issue() {
        Ok(permit) => permit,
        Err(refusal) => {
            draws.fill(0);
            return Some(Err(refusal));
        }
    };
    match release(
        summary,
        &mut books[given.book],
        permit,
        given.shared,
        draws,
        given.threshold,
        output,
    ) {
        Ok(written) => Some(Ok(written)),
        Err(Refused { refusal, permit }) => match books[given.issuer].hand_back(permit) {
            Ok(()) => Some(Err(refusal)),
            Err(_) => unreachable!(),
        },
    }
}
