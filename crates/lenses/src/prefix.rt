//! The lens of address prefixes.
ghost use Rattle.std.specs.Prelude.{◌≡◌, ◌≤◌};

use crate::lens::Lens;
use keys::prefix::Prefix;
use keys::refusal::Refusal;
use records::record::Record;

/// Gives the prefix of the source address that is its first `bits` bits; none if the record has no source address.
#[derive(Clone, Copy, Debug, PartialEq, Eq, Hash)]
pub struct PrefixLens {
    bits: u8,
    ghost whole: { bits ≤ 32 },
}

impl PrefixLens {
    ghost use Rattle.keys.specs.Values.{asked};
    ghost use Rattle.lenses.specs.PrefixLenses.{prefix_lens_of};

    /// The lens that keeps the first `bits` bits; refused with 1 above 32.
    pub fn make(bits: u8) -> Result<PrefixLens, Refusal>
        ensures { result ≡ asked (prefix_lens_of bits) }
    {
        if bits > 32 {
            return Err(Refusal::OutOfRange);
        }
        Ok(PrefixLens { bits })
    }

    /// How many bits the lens keeps.
    pub fn bits(&self) -> u8
        ensures { result ≡ self.now.bits }
    {
        self.bits
    }
}

impl Lens for PrefixLens {
    ghost use Rattle.lenses.specs.Gives.{prefix_given};

    type Key = Prefix;

    ghost gives = { λ lens r. prefix_given lens.bits r };

    fn key(&self, given: &Record<'_>) -> Option<Prefix> {
        Prefix::containing(given.source?, self.bits).ok()
    }
}
