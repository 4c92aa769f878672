//! The records of a log, one after another.
ghost use Rattle.std.specs.Prelude.{◌≡◌, ◌≤◌, length, All};
ghost use Rattle.records.specs.Logs.{log_of, LogLaws};

use crate::fault::ReadFault;
use crate::reader::read;
use crate::record::Record;
use std::iter::FusedIterator;
use std::marker::Model;

/// The reader's fault in a log: the record's index from 0, and the fault's place from the log's start.
#[derive(Clone, Copy, Debug, PartialEq, Eq, Hash)]
pub struct LogFault {
    pub fault: ReadFault,
    pub index: usize,
    pub offset: usize,
}

/// The records of a log, in order, each with the offset of its first byte from the log's start, up to the first fault,
/// which is the last item. A clause sees the items that are left.
#[derive(Debug, Drop)]
pub struct Records<'a> {
    rest: &'a [u8],
    index: usize,
    offset: usize,
}

impl<'a> Model for Records<'a> {
    ghost use Rattle.std.specs.Prelude.{List};
    ghost use Rattle.records.specs.Items.{Item, left, IsWithinLog};

    ghost Value = { List Item };

    ghost view = { left };

    ghost invariant = { IsWithinLog };
}

impl<'a> Records<'a> {
    ghost use Rattle.records.specs.Items.{items_of, IsWritable, BeginAfter};

    /// All records of the log.
    #[tactic(auto, using(crate::proofs::Items::few_items, crate::proofs::Items::writable_items, crate::proofs::Items::begin_after))]
    pub fn new(log: &'a [u8]) -> Self
        ensures items { result ≡ items_of (log_of log.now) }
        ensures few { length result ≤ length log.now }
        ensures writable { All IsWritable result }
        ensures offsets { BeginAfter (log_of log.now) result }
        ensures splits { LogLaws log.now }
    {
        Records {
            rest: log,
            index: 0,
            offset: 0,
        }
    }
}

impl<'a> Iterator for Records<'a> {
    ghost use Rattle.std.specs.Iterator.{YieldsFirstBy, item_count};
    ghost use Rattle.records.specs.Items.{item_of};

    type Item = Result<(usize, Record<'a>), LogFault>;

    ghost next_gives = { YieldsFirstBy item_of (λ items. items) };

    ghost remaining = { item_count (λ items. items) };

    #[tactic(auto, using(crate::proofs::Logging::log_over, crate::proofs::Items::items_read))]
    fn next(&mut self) -> Option<Self::Item> {
        if self.rest.is_empty() {
            return None;
        }
        match read(self.rest) {
            Ok((record, length)) => {
                let offset = self.offset;
                self.rest = &self.rest[length..];
                self.index += 1;
                self.offset += length;
                Some(Ok((offset, record)))
            }
            Err(fault) => {
                let offset = self.offset + fault.place();
                self.rest = &[];
                Some(Err(LogFault {
                    fault,
                    index: self.index,
                    offset,
                }))
            }
        }
    }
}

impl FusedIterator for Records<'_> {}
