//! A number that a field holds in a fixed count of bytes, the highest first: how it is read and written.
ghost use Rattle.std.specs.Prelude.{◌≡◌, ℕ, ◌+◌, ◌≤◌, Bool, List, [], length, nat_le, slice_index, Some, None, Option};
ghost use Rattle.std.specs.Ordering.{is_le};
ghost use Rattle.std.proofs.Common.{rules};
ghost use Rattle.records.specs.Fields.{join_at};
ghost use Rattle.records.specs.Writing.{encode_byte, encode_four};
ghost use Rattle.records.specs.Pasting.{pasted};

/// The ghost members are its count of bytes, its value at a place, the order of values, and a field as bytes; the laws,
/// that this is the order of `Ord`, that a missing field has no bytes, and that a number has `WIDTH`.
pub(crate) trait Number: Copy + Ord {
    ghost WIDTH: { ℕ };

    ghost value_at: { List ℕ → ℕ → Self };

    ghost at_most: { Self → Self → Bool };

    ghost encode: { Option Self → List ℕ };

    const WIDTH: usize;

    /// The number at this place.
    fn read(input: &[u8], at: usize) -> Self
        requires { at + WIDTH ≤ length input.now }
        ensures { result ≡ value_at input.now at };

    /// Writes the number at this place.
    fn put(self, out: &mut [u8], at: usize)
        requires { at + WIDTH ≤ length out.old }
        ensures { out.new ≡ pasted out.old at (encode (Some self)) };

    ghost compares: { (a b : Self) → at_most a b ≡ is_le (Self.Ord.cmp a b) };

    ghost absent: { encode None ≡ [] };

    ghost long: { (a : Self) → length (encode (Some a)) ≡ WIDTH };
}

impl Number for u8 {
    ghost WIDTH = { 1 };

    ghost value_at = { slice_index };

    ghost at_most = { nat_le };

    ghost encode = { encode_byte };

    ghost compares = { Prim.search rules };

    ghost absent = { Prim.search rules };

    ghost long = { Prim.search rules };

    const WIDTH: usize = 1;

    fn read(input: &[u8], at: usize) -> u8 {
        input[at]
    }

    #[tactic(auto, using(crate::proofs::Paste::byte_pasted))]
    fn put(self, out: &mut [u8], at: usize) {
        out[at] = self;
    }
}

impl Number for u32 {
    ghost WIDTH = { 4 };

    ghost value_at = { join_at };

    ghost at_most = { nat_le };

    ghost encode = { encode_four };

    ghost compares = { Prim.search rules };

    ghost absent = { Prim.search rules };

    ghost long = { Prim.search rules };

    const WIDTH: usize = 4;

    fn read(input: &[u8], at: usize) -> u32 {
        u32::from_be_bytes([input[at], input[at + 1], input[at + 2], input[at + 3]])
    }

    #[tactic(auto, using(crate::proofs::Paste::four_pasted))]
    fn put(self, out: &mut [u8], at: usize) {
        out[at..at + 4].copy_from_slice(&self.to_be_bytes());
    }
}
