//! A flight word: 1 to 8 bytes, each 0x20 to 0x5F. `bytes` tells which bytes make one, `methods` makes and reads one,
//! `order` tells its order.
pub mod bytes;
pub mod methods;
pub mod order;

ghost use Rattle.std.specs.Prelude.{◌≡◌, ◌-◌, ◌≤◌, length, take, drop, replicate};
ghost use Rattle.keys.specs.Words.{first_wrong};

/// The word stands in the first `len` bytes; those after it are zero, so one word has one value. An array with its
/// length, since a key is copied and its memory is fixed; and the kit's string in an array leaves its spare bytes open,
/// so that one word would have many values.
#[derive(Clone, Copy, Debug, PartialEq, Eq, PartialOrd, Ord, Hash)]
pub struct FlightWord {
    bytes: [u8; 8],
    len: u8,
    ghost some: { 1 ≤ len },
    ghost fits: { len ≤ 8 },
    ghost eight: { length bytes ≡ 8 },
    ghost right: { first_wrong (take len bytes) ≡ len },
    ghost padded: { drop len bytes ≡ replicate (8 - len) 0 },
}
