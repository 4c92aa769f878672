//! An address prefix: an IPv4 address and how many of its first bits count. Every bit after these is zero, so one
//! prefix has one value. `methods` makes and reads one, `order` tells its order.
pub mod methods;
pub mod order;

ghost use Rattle.std.specs.Prelude.{◌≡◌, ◌≤◌};
ghost use Rattle.keys.specs.Prefixes.{low_bits};

#[derive(Clone, Copy, Debug, PartialEq, Eq, PartialOrd, Ord, Hash)]
pub struct Prefix {
    address: u32,
    bits: u8,
    ghost whole: { bits ≤ 32 },
    ghost clear: { low_bits bits address ≡ 0 },
}
