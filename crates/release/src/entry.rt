//! An entry of a list.
ghost use Rattle.std.specs.Prelude.{◌≡◌, pos, ◌+ℤ◌};
ghost use Rattle.model.specs.Listing.{reaches};
ghost use Rattle.release.specs.Lists.{entry_of};

use crate::draws::value;

/// A key with its value, which is its count with noise added.
#[derive(Clone, Copy, Debug, PartialEq, Eq, Hash)]
pub struct Entry<K> {
    pub key: K,
    pub value: i64,
}

impl<K> Entry<K> {
    /// The entry of a key with this count, shared draw and own draw.
    pub(crate) fn make(key: K, count: u32, shared: i32, draw: i32) -> Entry<K>
        ensures { result ≡ entry_of (key, pos count +ℤ shared +ℤ draw) }
    {
        Entry {
            key,
            value: value(count, shared, draw),
        }
    }

    /// Whether the value is at least the threshold.
    pub(crate) fn reaches(&self, threshold: u32) -> bool
        ensures { result ≡ reaches (pos threshold) self.now.value }
    {
        self.value >= i64::from(threshold)
    }
}
