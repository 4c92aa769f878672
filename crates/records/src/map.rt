//! The map byte, a record's first: which fields it has.

/// Its bits, the lowest first.
#[derive(Clone, Copy)]
pub(crate) enum Bit {
    Time,
    Kind,
    Console,
    Source,
    Flight,
}
