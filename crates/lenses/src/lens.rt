//! The trait of all lenses.
ghost use Rattle.std.specs.Prelude.{◌≡◌, Option};
ghost use Rattle.records.specs.Values.{RecordValue, value_of};

use keys::kind::Kind;
use records::record::Record;

/// A lens names the kind of key that it gives. `gives` says which key of which record.
pub trait Lens {
    type Key: Kind;

    ghost gives: { Self → RecordValue → Option Self.Key };

    /// The key of a record, or none.
    fn key(&self, given: &Record<'_>) -> Option<Self::Key>
        ensures { result ≡ gives self.now (value_of given.now) };
}
