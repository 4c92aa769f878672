//! The release of a list by a permit.
ghost use Rattle.std.specs.Prelude.{◌≡◌, length, replicate, take, pos, true, IfOk, IfErr, OnOk, OnErr};
ghost use Rattle.release.specs.Books.{knows, one_spent};
ghost use Rattle.release.specs.Lists.{KeepsListingRule};
ghost use Rattle.release.specs.Releases.{released, book_after, output_after};

use crate::book::{Book, Refused};
use crate::draws::{DrawGuard, noise_in_range, threshold_in_range};
use crate::entry::Entry;
use crate::list::write_list;
use crate::permit::Permit;
use keys::refusal::Refusal;
use summaries::summary::Summary;

/// Writes the list of a summary, with noise added, to the start of the output, in key order, and answers how many
/// entries it has; the permit is spent. Refused, in this order, with 11 if the permit is of another book or the book
/// has none out; with 12 if there are not k draws; with 13 if the shared draw or a draw is out of range; with 14 if the
/// threshold is; with 9 if the output has fewer than k entries: the permit then comes back, and book and output stay.
/// The draws are all zero afterwards in every case.
pub fn release<S: Summary>(
    summary: &S,
    book: &mut Book,
    permit: Permit,
    shared: i32,
    draws: &mut [i32],
    threshold: u32,
    output: &mut [Entry<S::Key>],
) -> Result<usize, Refused>
    ensures answer { result ≡ released (S.content summary.now) book.old permit shared draws.old threshold (length output.old) }
    ensures book { book.new ≡ book_after (S.content summary.now) book.old permit shared draws.old threshold (length output.old) }
    ensures draws { draws.new ≡ replicate (length draws.old) (pos 0) }
    ensures output { output.new ≡ output_after (S.content summary.now) book.old permit shared draws.old threshold output.old }
    ensures accepted { OnOk result ((knows book.old permit ≡ true) × (book.new ≡ one_spent book.old)) }
    ensures refused { OnErr result ((book.new ≡ book.old) × (output.new ≡ output.old)) }
    ensures back { IfErr result (λ e. e.permit ≡ permit) }
    ensures rule { IfOk result (λ n. KeepsListingRule S.Key.Kind.less (S.content summary.now)
        shared draws.old threshold (take n output.new)) }
{
    let guard = DrawGuard { draws };
    let own = &*guard.draws;
    if !book.knows(&permit) {
        return Err(Refused {
            refusal: Refusal::Foreign,
            permit,
        });
    }
    let k = summary.facts().k as usize;
    if own.len() != k {
        return Err(Refused {
            refusal: Refusal::DrawCount,
            permit,
        });
    }
    if !noise_in_range(shared, own) {
        return Err(Refused {
            refusal: Refusal::DrawRange,
            permit,
        });
    }
    if !threshold_in_range(threshold) {
        return Err(Refused {
            refusal: Refusal::Threshold,
            permit,
        });
    }
    if output.len() < k {
        return Err(Refused {
            refusal: Refusal::ShortOutput,
            permit,
        });
    }
    let written = write_list(summary, shared, own, threshold, output);
    book.accept(permit);
    Ok(written)
}
