//! A log's records, fed to a summary.
ghost use Rattle.std.specs.Prelude.{◌≡◌, ◌+◌, ◌<◌, ◌^◌, IfOk, OnOk};
ghost use Rattle.records.specs.Logs.{log_of, encode_all};
ghost use Rattle.records.specs.Values.{value_of};
ghost use Rattle.model.specs.Plans.{after_from};
ghost use Rattle.feeding.specs.Feeding.{added, fed_answer, RoomLaw};
ghost use Rattle.feeding.specs.Steps.{step_content, step_fed, step_answer};

use crate::fault::{Cause, FeedFault};
use keys::refusal::Refusal;
use lenses::lens::Lens;
use records::log::Records;
use records::record::Record;
use summaries::summary::Summary;

/// How many records were read, and of these, how many gave no key, how many gave a key that the summary does not admit,
/// and how many gave a key that it took.
#[derive(Clone, Copy, Debug, PartialEq, Eq, Hash)]
pub struct Fed {
    pub read: usize,
    pub absent: usize,
    pub passed_over: usize,
    pub taken: usize,
}

/// Gives a summary the key of a record, if it has one, and counts what comes of it. Refused where the summary is full.
#[tactic(auto, using(crate::proofs::Room::taken_grows))]
fn step<S: Summary, L: Lens<Key = S::Key>>(
    summary: &mut S,
    lens: &L,
    given: &Record<'_>,
    fed: &mut Fed,
) -> Result<(), Refusal>
    requires parts { fed.old.read ≡ fed.old.absent + fed.old.passed_over + fed.old.taken }
    requires few { fed.old.read < 2 ^ 63 }
    ensures plan { S.plan summary.new ≡ S.plan summary.old }
    ensures stays { S.stays summary.old summary.new }
    ensures content { S.content summary.new ≡ step_content (S.plan summary.old) (S.content summary.old) (L.gives lens.now (value_of given.now)) }
    ensures fed { fed.new ≡ step_fed S.Key.Kind.less (S.plan summary.old) (S.content summary.old) (L.gives lens.now (value_of given.now)) fed.old }
    ensures answer { result ≡ step_answer S.Key.Kind.less (S.plan summary.old) (S.content summary.old) (L.gives lens.now (value_of given.now)) }
    ensures read { fed.new.read ≡ fed.old.read + 1 }
    ensures parts { IfOk result (λ u. fed.new.read ≡ fed.new.absent + fed.new.passed_over + fed.new.taken) }
    ensures grown { IfOk result (λ u. (S.content summary.new).n + fed.old.taken ≡ (S.content summary.old).n + fed.new.taken) }
{
    fed.read += 1;
    let Some(key) = lens.key(given) else {
        fed.absent += 1;
        return Ok(());
    };
    match summary.take(key) {
        Ok(_) => fed.taken += 1,
        Err(Refusal::NotAdmitted) => fed.passed_over += 1,
        Err(refusal) => return Err(refusal),
    }
    Ok(())
}

/// Gives a summary the keys of a log's records, in order, up to the first fault or the first refusal with 7; what it has
/// taken before that stays.
#[tactic(auto, using(crate::proofs::Feeding::all_content, crate::proofs::Feeding::all_answer, crate::proofs::Feeding::whole_log, crate::proofs::Room::room_law))]
pub fn feed<S: Summary, L: Lens<Key = S::Key>>(
    summary: &mut S,
    lens: &L,
    log: &[u8],
) -> Result<Fed, FeedFault>
    ensures plan { S.plan summary.new ≡ S.plan summary.old }
    ensures content { S.content summary.new
        ≡ after_from (S.plan summary.old) (S.content summary.old) (added (S.plan summary.old) (S.content summary.old) (L.gives lens.now) (log_of log.now).records) }
    ensures stays { S.stays summary.old summary.new }
    ensures answer { result ≡ fed_answer (S.plan summary.old) (S.content summary.old) (L.gives lens.now) (log_of log.now) }
    ensures whole { OnOk result (log.now ≡ encode_all (log_of log.now).records) }
    ensures room { RoomLaw (S.plan summary.old) (S.content summary.old) (L.gives lens.now) (log_of log.now).records result }
    ensures grown { IfOk result (λ fed. (S.content summary.new).n ≡ (S.content summary.old).n + fed.taken) }
    ensures parts { IfOk result (λ fed. fed.read ≡ fed.absent + fed.passed_over + fed.taken) }
{
    let mut fed = Fed {
        read: 0,
        absent: 0,
        passed_over: 0,
        taken: 0,
    };
    for item in Records::new(log) {
        let (offset, record) = item?;
        let index = fed.read;
        if let Err(refusal) = step(summary, lens, &record, &mut fed) {
            return Err(FeedFault {
                cause: Cause::Summary(refusal),
                index,
                offset,
            });
        }
    }
    Ok(fed)
}
