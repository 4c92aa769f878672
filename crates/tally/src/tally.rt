//! The tally as a summary.
ghost use Rattle.std.specs.Prelude.{◌≡◌, ◌≤◌, ◌-◌, length, sum, take, drop, replicate, if◌then◌else◌, nat_lt, slice_index};

use keys::event::EventKind;
use keys::held::Held;
use keys::refusal::Refusal;
use summaries::answers::{Facts, Taken};
use summaries::summary::Summary;

/// Counts the event kinds 0 to k - 1; the count of a kind stands at its number. It owns its counts: as there are at
/// most 64, a tally needs no memory that is lent. The counts from k on are 0, so that one content has one value.
#[derive(Debug, PartialEq, Eq, Hash, Drop)]
pub struct Tally {
    k: u32,
    n: u32,
    counts: [u32; 64],
    ghost few: { k ≤ 64 },
    ghost long: { length counts ≡ 64 },
    ghost rest: { drop k counts ≡ replicate (64 - k) 0 },
    ghost all: { sum (take k counts) ≡ n },
}

impl Tally {
    ghost use Rattle.tally.specs.Making.{shown, made};

    /// A fresh tally of k kinds; refused with 1 unless k is 2 to 64.
    #[tactic(auto, using(crate::proofs::Tallying::counted_fresh))]
    pub fn make(k: u32) -> Result<Tally, Refusal>
        ensures { shown result ≡ made k }
    {
        if !(2..=64).contains(&k) {
            return Err(Refusal::OutOfRange);
        }
        Ok(Tally {
            k,
            n: 0,
            counts: [0; 64],
        })
    }

    /// The count of a kind, if the tally counts it.
    fn count_of(&self, key: &EventKind) -> Option<u32>
        ensures { result ≡ (if nat_lt key.now.number self.now.k
            then Some (slice_index self.now.counts key.now.number) else None) }
    {
        let kind = usize::from(key.number());
        if kind < self.k as usize {
            Some(self.counts[kind])
        } else {
            None
        }
    }
}

impl Summary for Tally {
    ghost use Rattle.std.specs.Prelude.{refl};
    ghost use Rattle.model.specs.Tallies.{tally};
    ghost use Rattle.model.proofs.TallyLaws.{tally_keeps};
    ghost use Rattle.tally.specs.Contents.{content_of};

    type Key = EventKind;

    ghost content = { λ s. content_of s.k s.n s.counts };

    ghost plan = { λ s. tally s.k };

    ghost stays = { λ _ _. Unit {0} };

    #[tactic(auto, using(crate::proofs::Tallying::taking))]
    fn take(&mut self, key: EventKind) -> Result<Taken, Refusal> {
        let kind = usize::from(key.number());
        if kind >= self.k as usize {
            return Err(Refusal::NotAdmitted);
        }
        if self.n == u32::MAX {
            return Err(Refusal::Full);
        }
        self.counts[kind] += 1;
        self.n += 1;
        Ok(Taken::Raised)
    }

    fn count(&self, key: &EventKind) -> Option<u32> {
        self.count_of(key)
    }

    #[tactic(auto, using(crate::proofs::Tallying::placing))]
    fn place(&self, j: usize) -> Option<(Held<EventKind>, u32)> {
        if j >= self.k as usize {
            return None;
        }
        let kind = EventKind::try_from(j as u8).ok()?;
        Some((Held::Real(kind), self.counts[j]))
    }

    fn facts(&self) -> Facts {
        Facts {
            k: self.k,
            n: self.n,
            l: 0,
        }
    }

    ghost lawful = { λ s. (tally_keeps s.k s.few).laws };

    ghost stays_same = { λ _. tt };

    ghost stays_on = { λ _ _ _ _ _. tt };

    ghost counts = { λ s. record { k_stays = λ C x. refl; n_grows = λ C x. refl } };
}
