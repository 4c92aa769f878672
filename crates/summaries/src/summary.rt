//! The trait of all summaries.
ghost use Rattle.std.specs.Prelude.{◌≡◌, slice_get, OnErr};
ghost use Rattle.model.specs.Contents.{Content};
ghost use Rattle.model.specs.Plans.{Plan};
ghost use Rattle.model.specs.Laws.{Lawful};
ghost use Rattle.summaries.specs.Calls.{taken_content, taken_answer, count_answer, facts_of, CountsEntries, Stands};

use crate::answers::{Facts, Taken};
use keys::held::Held;
use keys::kind::Kind;
use keys::refusal::Refusal;

/// A summary shows of its plan, as a law of the trait, that it keeps the four laws of summaries, and that taking keeps k
/// and counts each entry; and of its content, by `facts`, that it keeps the two laws that speak of no entries. What of
/// lent memory no call changes, it says by `stays`, of a value before and one after. No call requires anything.
pub trait Summary {
    type Key: Kind;

    ghost content: { Self → Content Self.Key };

    ghost plan: { Self → Plan Self.Key };

    ghost stays: { Self → Self → Type 0 };

    /// Takes a key; refused with 6 if the key is not admitted, then with 7 if n is 4,294,967,295.
    fn take(&mut self, key: Self::Key) -> Result<Taken, Refusal>
        ensures plan { plan self.new ≡ plan self.old }
        ensures content { content self.new
            ≡ taken_content (plan self.old) (content self.old) key }
        ensures answer { result
            ≡ taken_answer Self.Key.Kind.less (plan self.old) (content self.old) key }
        ensures stays { stays self.old self.new }
        ensures refused { OnErr result (self.new ≡ self.old) };

    /// The count of a key, if the key is held.
    fn count(&self, key: &Self::Key) -> Option<u32>
        ensures { result ≡ count_answer Self.Key.Kind.less (content self.now) key.now };

    /// The j-th held key in order, counted from 0, with its count.
    fn place(&self, j: usize) -> Option<(Held<Self::Key>, u32)>
        ensures { result ≡ slice_get (content self.now).held j };

    /// The numbers k, n and l.
    fn facts(&self) -> Facts
        ensures answer { result ≡ facts_of (content self.now) }
        ensures stands { Stands Self.Key.Kind.less (content self.now) };

    ghost lawful: { (s : Self) → Lawful Self.Key.Kind.less (plan s) };

    ghost stays_same: { (s : Self) → stays s s };

    ghost stays_on: { (s t u : Self) → stays s t → stays t u → stays s u };

    ghost counts: { (s : Self) → CountsEntries (plan s) };
}
