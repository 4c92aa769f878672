//! An event kind: a number from 0 to 63. `methods` makes and reads one, `order` tells its order.
pub mod methods;
pub mod order;

ghost use Rattle.std.specs.Prelude.{◌≤◌};

#[derive(Clone, Copy, Debug, PartialEq, Eq, PartialOrd, Ord, Hash)]
pub struct EventKind {
    number: u8,
    ghost small: { number ≤ 63 },
}
