//! Two keys of one kind compared.
use crate::made::bytes_of;
use keys::event::EventKind;
use keys::held::Held;
use keys::kind::{Kind, before, same};
use keys::pair::Pair;
use keys::prefix::Prefix;
use keys::word::FlightWord;
use std::alloc::{AllocError, Global};

/// How two keys compare, whether the first comes before the second, and whether they are the same.
fn text_of<K: Kind>(heap: Global, first: K, second: K) -> Result<String, AllocError> {
    let answers = (
        first.compare(&second),
        before(&first, &second),
        same(&first, &second),
    );
    format!(in heap; "{answers:?}")
}

fn kind_of(number: &str) -> Option<EventKind> {
    let number: u8 = number.parse().ok()?;
    EventKind::try_from(number).ok()
}

fn prefix_of(address: &str, bits: &str) -> Option<Prefix> {
    Prefix::make(address.parse().ok()?, bits.parse().ok()?).ok()
}

fn word_of(heap: Global, digits: &str) -> Option<FlightWord> {
    let bytes = bytes_of(heap, digits)?;
    FlightWord::try_from(bytes.as_slice()).ok()
}

fn pair_of(first: &str, second: &str) -> Option<Pair<u32, u32>> {
    Some(Pair {
        first: first.parse().ok()?,
        second: second.parse().ok()?,
    })
}

/// A number for a real key; after a `d`, that of a dummy.
fn held_of(text: &str) -> Option<Held<u32>> {
    match text.strip_prefix("d") {
        Some(number) => Some(Held::Dummy(number.parse().ok()?)),
        None => Some(Held::Real(text.parse().ok()?)),
    }
}

/// A count and a held key, as a sketch orders them.
fn rank_of(count: &str, key: &str) -> Option<Pair<u32, Held<u32>>> {
    Some(Pair {
        first: count.parse().ok()?,
        second: held_of(key)?,
    })
}

/// How the keys compare, if both were made.
fn both<K: Kind>(
    heap: Global,
    first: Option<K>,
    second: Option<K>,
) -> Result<Option<String>, AllocError> {
    match (first, second) {
        (Some(first), Some(second)) => Ok(Some(text_of(heap, first, second)?)),
        _ => Ok(None),
    }
}

/// What is answered of a line that compares two keys, if it is one.
pub(crate) fn ordered(heap: Global, words: &[&str]) -> Result<Option<String>, AllocError> {
    match *words {
        ["kinds", a, b] => both(heap, kind_of(a), kind_of(b)),
        ["prefixes", a, p, b, q] => both(heap, prefix_of(a, p), prefix_of(b, q)),
        ["words", a, b] => both(heap, word_of(heap, a), word_of(heap, b)),
        ["pairs", a, x, b, y] => both(heap, pair_of(a, x), pair_of(b, y)),
        ["held", a, b] => both(heap, held_of(a), held_of(b)),
        ["ranks", n, a, m, b] => both(heap, rank_of(n, a), rank_of(m, b)),
        _ => Ok(None),
    }
}
