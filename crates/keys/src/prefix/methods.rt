//! Prefixes made and read.
ghost use Rattle.std.specs.Prelude.{◌≡◌, ◌≤◌, IfOk, Some};
ghost use Rattle.keys.specs.Prefixes.{low_bits};
ghost use Rattle.keys.specs.Values.{asked, prefix_of, containing_of, OnlyContaining};

use crate::prefix::Prefix;
use crate::refusal::Refusal;

/// The bits after the first `bits`, as a number. It takes the parts of a prefix, since there is none yet.
fn low_bits(address: u32, bits: u8) -> u32
    requires { bits ≤ 32 }
    ensures { result ≡ low_bits bits address }
{
    let size = 1u64 << (32 - bits);
    (u64::from(address) & (size - 1)) as u32
}

impl Prefix {
    /// The prefix with this address and length; refused with 1 if `bits` is above 32 or a bit after the first `bits`
    /// is set. No `TryFrom`, since of a pair of numbers it would not show which is which.
    pub fn make(address: u32, bits: u8) -> Result<Prefix, Refusal>
        ensures { result ≡ asked (prefix_of bits address) }
    {
        if bits > 32 || low_bits(address, bits) != 0 {
            return Err(Refusal::OutOfRange);
        }
        Ok(Prefix { address, bits })
    }

    /// The prefix of this length that contains the address: its first `bits` bits, then zeros.
    fn clear_after(address: u32, bits: u8) -> Prefix
        requires { bits ≤ 32 }
        ensures value { Some result ≡ containing_of bits address }
        ensures law { OnlyContaining bits address result }
    {
        Prefix {
            address: address - low_bits(address, bits),
            bits,
        }
    }

    /// The prefix of this length that contains the address; refused with 1 if `bits` is above 32.
    pub fn containing(address: u32, bits: u8) -> Result<Prefix, Refusal>
        ensures answer { result ≡ asked (containing_of bits address) }
        ensures law { IfOk result (λ k. OnlyContaining bits address k) }
    {
        if bits > 32 {
            return Err(Refusal::OutOfRange);
        }
        Ok(Prefix::clear_after(address, bits))
    }

    pub fn address(&self) -> u32
        ensures { result ≡ self.now.address }
    {
        self.address
    }

    /// The length: how many of the first bits count.
    pub fn bits(&self) -> u8
        ensures { result ≡ self.now.bits }
    {
        self.bits
    }
}
