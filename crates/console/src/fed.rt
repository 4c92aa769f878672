//! A log, fed to a summary that has taken no entries.
ghost use Rattle.std.specs.Prelude.{◌≡◌, length};
ghost use Rattle.records.specs.Logs.{log_of};
ghost use Rattle.model.specs.Sketches.{sketch};
ghost use Rattle.sketch.specs.Sketches.{content_of};
ghost use Rattle.console.specs.Fed.{content_after, reading_after};

use crate::reading::Reading;
use feeding::feed::feed;
use keys::kind::Kind;
use lenses::lens::Lens;
use sketch::sketch::Sketch;
use summaries::summary::Summary;

/// Feeds the log, up to what ends the reading.
#[tactic(auto, unfolding(crate::specs::Fed::content_after))]
fn feed_fresh<S: Summary, L: Lens<Key = S::Key>>(summary: &mut S, lens: &L, log: &[u8]) -> Reading
    requires { S.content summary.old ≡ (S.plan summary.old).fresh }
    ensures plan { S.plan summary.new ≡ S.plan summary.old }
    ensures content { S.content summary.new ≡ content_after (S.plan summary.old) (L.gives lens.now) (log_of log.now).records }
    ensures reading { result ≡ reading_after (S.plan summary.old) (L.gives lens.now) log.now }
{
    match feed(summary, lens, log) {
        Ok(fed) => Reading {
            records: fed.read as u64,
            offset: log.len() as u64,
            fault: 0,
        },
        Err(fault) => Reading {
            records: fault.index as u64,
            offset: fault.offset as u64,
            fault: u32::from(fault.number()),
        },
    }
}

/// Feeds the log to a sketch of k keys that has taken no entries.
#[tactic(auto, using(crate::proofs::FedSketches::k_after, crate::proofs::FedSketches::content_fed, crate::proofs::FedSketches::reading_fed))]
pub(crate) fn feed_sketch<K: Kind, L: Lens<Key = K>>(
    k: u32,
    made: &mut Sketch<'_, K>,
    lens: &L,
    log: &[u8],
) -> Reading
    requires { content_of made.old ≡ (sketch K.Kind.less k).fresh }
    ensures k { (content_of made.new).k ≡ k }
    ensures content { content_of made.new ≡ content_after (sketch K.Kind.less k) (L.gives lens.now) (log_of log.now).records }
    ensures reading { result ≡ reading_after (sketch K.Kind.less k) (L.gives lens.now) log.now }
{
    feed_fresh(made, lens, log)
}
