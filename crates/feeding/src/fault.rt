//! What ends feeding early, and where.
ghost use Rattle.std.specs.Prelude.{◌≡◌};
ghost use Rattle.feeding.specs.Faults.{layer_of, number_in, reader_fault};

use keys::refusal::Refusal;
use records::fault::ReadFault;
use records::log::LogFault;

/// Whose fault it is: the reader's, or the summary's refusal.
#[derive(Clone, Copy, Debug, PartialEq, Eq, Hash)]
pub enum Cause {
    Reader(ReadFault),
    Summary(Refusal),
}

impl From<ReadFault> for Cause {
    ghost use Rattle.feeding.specs.declared.fault.Cause.TheVariants.{Reader};

    ghost from_gives = { λ fault made. made ≡ Reader fault };

    fn from(fault: ReadFault) -> Cause {
        Cause::Reader(fault)
    }
}

/// A fault with its place: the record's index from 0, and an offset from the log's start. Of the reader's fault it is
/// the fault's own place, of the summary's refusal the record's first byte.
#[derive(Clone, Copy, Debug, PartialEq, Eq, Hash)]
pub struct FeedFault {
    pub cause: Cause,
    pub index: usize,
    pub offset: usize,
}

impl From<LogFault> for FeedFault {
    ghost from_gives = { λ fault made. made ≡ reader_fault fault.fault fault.index fault.offset };

    fn from(fault: LogFault) -> FeedFault {
        FeedFault {
            cause: Cause::from(fault.fault),
            index: fault.index,
            offset: fault.offset,
        }
    }
}

impl FeedFault {
    /// 1 for the reader, 2 for the summary.
    pub fn layer(self) -> u8
        ensures { result ≡ layer_of self.cause }
    {
        match self.cause {
            Cause::Reader(_) => 1,
            Cause::Summary(_) => 2,
        }
    }

    /// The number of the refusal.
    pub fn number(self) -> u8
        ensures { result ≡ number_in self.cause }
    {
        match self.cause {
            Cause::Reader(fault) => Refusal::from(fault).number(),
            Cause::Summary(refusal) => refusal.number(),
        }
    }
}
