//! The list of a summary with noise added.
ghost use Rattle.std.specs.Prelude.{◌≡◌, ◌≤◌, length, take};
ghost use Rattle.release.specs.Lists.{list_of, after_list, KeepsListingRule};

use crate::entry::Entry;
use keys::held::Held;
use summaries::summary::Summary;

/// Writes the list to the start of the output, in key order, and answers how many entries it has. The rest of the
/// output stays.
#[tactic(auto, using(crate::proofs::Listed::listing))]
pub(crate) fn write_list<S: Summary>(
    summary: &S,
    shared: i32,
    draws: &[i32],
    threshold: u32,
    output: &mut [Entry<S::Key>],
) -> usize
    requires draws { length draws.now ≡ (S.content summary.now).k }
    requires room { (S.content summary.now).k ≤ length output.old }
    ensures answer { result ≡ length (list_of (S.content summary.now) shared draws.now threshold) }
    ensures output { output.new
        ≡ after_list (list_of (S.content summary.now) shared draws.now threshold) output.old }
    ensures rule { KeepsListingRule S.Key.Kind.less (S.content summary.now)
        shared draws.now threshold (take result output.new) }
{
    let k = summary.facts().k as usize;
    let mut written = 0;
    for j in 0..k {
        let Some((Held::Real(key), count)) = summary.place(j) else {
            continue;
        };
        let entry = Entry::make(key, count, shared, draws[j]);
        if entry.reaches(threshold) {
            output[written] = entry;
            written += 1;
        }
    }
    written
}
