//! What the reader finds wrong, and where.
ghost use Rattle.std.specs.Prelude.{◌≡◌};
ghost use Rattle.records.specs.Faults.{refusal_of, place_of};

use keys::refusal::Refusal;

/// The reader's fault, with its place in the input: the map byte; the input's length where it is cut off; the first
/// byte of the field that is out of range, or a flight word's first wrong byte.
#[derive(Clone, Copy, Debug, PartialEq, Eq, Hash)]
pub enum ReadFault {
    Map(usize),
    CutOff(usize),
    Field(usize),
}

impl From<ReadFault> for Refusal {
    ghost from_gives = { λ fault refusal. refusal ≡ refusal_of fault };

    fn from(fault: ReadFault) -> Refusal {
        match fault {
            ReadFault::Map(_) => Refusal::Map,
            ReadFault::CutOff(_) => Refusal::CutOff,
            ReadFault::Field(_) => Refusal::Field,
        }
    }
}

impl ReadFault {
    pub fn place(self) -> usize
        ensures { result ≡ place_of self }
    {
        match self {
            ReadFault::Map(place) | ReadFault::CutOff(place) | ReadFault::Field(place) => place,
        }
    }
}
