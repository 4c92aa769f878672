//! The text of a key.
use keys::event::EventKind;
use keys::held::Held;
use keys::kind::Kind;
use keys::pair::Pair;
use keys::prefix::Prefix;
use keys::word::FlightWord;
use std::alloc::AllocError;
use std::net::Ipv4Addr;

/// A kind of key that can be printed.
pub trait Shown: Kind {
    /// Adds the key's text.
    fn push_to(&self, text: &mut String) -> Result<(), AllocError>;
}

/// The number.
impl Shown for EventKind {
    fn push_to(&self, text: &mut String) -> Result<(), AllocError> {
        let number = self.number();
        write!(text, "{number}")
    }
}

/// The address and the length, as in `10.1.0.0/16`.
impl Shown for Prefix {
    fn push_to(&self, text: &mut String) -> Result<(), AllocError> {
        let address = Ipv4Addr::from(self.address());
        let bits = self.bits();
        write!(text, "{address}/{bits}")
    }
}

/// The word in quotes.
impl Shown for FlightWord {
    fn push_to(&self, text: &mut String) -> Result<(), AllocError> {
        write!(text, "\"")?;
        for byte in self.bytes() {
            let letter = char::from(*byte);
            write!(text, "{letter}")?;
        }
        write!(text, "\"")
    }
}

/// Both keys with a plus between them.
impl<A: Shown, B: Shown> Shown for Pair<A, B> {
    fn push_to(&self, text: &mut String) -> Result<(), AllocError> {
        self.first.push_to(text)?;
        write!(text, "+")?;
        self.second.push_to(text)
    }
}

/// The key, or `-` for a dummy.
impl<K: Shown> Shown for Held<K> {
    fn push_to(&self, text: &mut String) -> Result<(), AllocError> {
        match self {
            Held::Real(key) => key.push_to(text),
            Held::Dummy(_) => write!(text, "-"),
        }
    }
}
