//! The text of a key.
use keys::event::EventKind;
use keys::held::Held;
use keys::kind::Kind;
use keys::pair::Pair;
use keys::prefix::Prefix;
use keys::word::FlightWord;
use std::alloc::{AllocError, Global};
use std::net::Ipv4Addr;

/// A kind of key that can be printed.
pub trait Shown: Kind {
    fn shown(&self, heap: Global) -> Result<String, AllocError>;
}

/// The word in quotes.
impl Shown for FlightWord {
    fn shown(&self, heap: Global) -> Result<String, AllocError> {
        let mut text = String::from_str(heap, "\"")?;
        for byte in self.bytes() {
            let letter = char::from(*byte);
            write!(text, "{letter}")?;
        }
        write!(text, "\"")?;
        Ok(text)
    }
}

impl Shown for EventKind {
    fn shown(&self, heap: Global) -> Result<String, AllocError> {
        let number = self.number();
        format!(in heap; "kind {number}")
    }
}

/// The address and the length, as in `10.1.0.0/16`.
impl Shown for Prefix {
    fn shown(&self, heap: Global) -> Result<String, AllocError> {
        let address = Ipv4Addr::from(self.address());
        let bits = self.bits();
        format!(in heap; "{address}/{bits}")
    }
}

/// Both keys.
impl<A: Shown, B: Shown> Shown for Pair<A, B> {
    fn shown(&self, heap: Global) -> Result<String, AllocError> {
        let first = self.first.shown(heap)?;
        let second = self.second.shown(heap)?;
        format!(in heap; "{first} with {second}")
    }
}

impl<K: Shown> Shown for Held<K> {
    fn shown(&self, heap: Global) -> Result<String, AllocError> {
        match self {
            Held::Real(key) => key.shown(heap),
            Held::Dummy(number) => format!(in heap; "dummy {number}"),
        }
    }
}
