//! A key as bytes.
ghost use Rattle.std.specs.Prelude.{◌≡◌, ◌≤◌, List, ℕ, Option, length};
ghost use Rattle.keys.specs.Values.{bytes_of, word_of};
ghost use Rattle.console.specs.Parts.{part_of, less_part, kind_bytes, kind_from, prefix_bytes, prefix_from};
ghost use Rattle.console.specs.PartsLemmas.{part_compares, part_total};

use keys::event::EventKind;
use keys::kind::Kind;
use keys::prefix::Prefix;
use keys::word::FlightWord;

/// A key, or one key of a pair: its bytes, then zeros, and how many bytes it has. With none it stands for no key.
#[repr(C)]
#[derive(Clone, Copy, Debug, PartialEq, Eq, PartialOrd, Ord, Hash)]
pub struct Part {
    pub bytes: [u8; 8],
    pub length: u8,
}

impl Part {
    /// What stands where there is no key.
    pub const NONE: Part = Part {
        bytes: [0; 8],
        length: 0,
    };
}

impl Kind for Part {
    ghost less = { less_part };

    ghost matches_cmp = { part_compares };

    ghost order = { part_total };
}

/// The part of some bytes.
pub(crate) fn part_of(bytes: &[u8]) -> Part
    requires { length bytes.now ≤ 8 }
    ensures { result ≡ part_of bytes.now }
{
    let mut eight = [0; 8];
    eight[..bytes.len()].copy_from_slice(bytes);
    Part {
        bytes: eight,
        length: bytes.len() as u8,
    }
}

/// A kind of key that has bytes.
pub(crate) trait PartKey: Sized {
    ghost as_bytes: { Self → List ℕ };

    ghost made_of: { List ℕ → Option Self };

    fn part(&self) -> Part
        ensures { result ≡ part_of (as_bytes self.now) };

    /// The key of these bytes, if they make one.
    fn from_bytes(bytes: &[u8]) -> Option<Self>
        ensures { result ≡ made_of bytes.now };
}

impl PartKey for EventKind {
    ghost as_bytes = { kind_bytes };

    ghost made_of = { kind_from };

    fn part(&self) -> Part {
        part_of(&[self.number()])
    }

    fn from_bytes(bytes: &[u8]) -> Option<EventKind> {
        if bytes.len() != 1 {
            return None;
        }
        EventKind::try_from(bytes[0]).ok()
    }
}

impl PartKey for FlightWord {
    ghost as_bytes = { bytes_of };

    ghost made_of = { word_of };

    fn part(&self) -> Part {
        part_of(self.bytes())
    }

    fn from_bytes(bytes: &[u8]) -> Option<FlightWord> {
        FlightWord::try_from(bytes).ok()
    }
}

impl PartKey for Prefix {
    ghost as_bytes = { prefix_bytes };

    ghost made_of = { prefix_from };

    fn part(&self) -> Part {
        let [a, b, c, d] = self.address().to_be_bytes();
        part_of(&[a, b, c, d, self.bits()])
    }

    fn from_bytes(bytes: &[u8]) -> Option<Prefix> {
        if bytes.len() != 5 {
            return None;
        }
        let address = u32::from_be_bytes([bytes[0], bytes[1], bytes[2], bytes[3]]);
        Prefix::make(address, bytes[4]).ok()
    }
}
