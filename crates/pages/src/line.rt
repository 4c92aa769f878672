//! A line of a page.

/// A key with its count and its upper bound, which is the count plus l.
#[derive(Clone, Copy, Debug, PartialEq, Eq, Hash)]
pub struct Line<K> {
    pub key: K,
    pub count: u32,
    pub upper: u32,
}
