//! What becomes of reading a log.
ghost use Rattle.std.specs.Prelude.{◌≡◌};
ghost use Rattle.console.specs.Readings.{checked};

use keys::refusal::Refusal;
use records::log::Records;

/// How many records there are before the log's end, or before the record that ended the reading; the log's length, or
/// where the reading ended; and 0, or the number of what ended it.
#[repr(C)]
#[derive(Clone, Copy, Debug, PartialEq, Eq, Hash)]
pub struct Reading {
    pub records: u64,
    pub offset: u64,
    pub fault: u32,
}

/// Reads a log to its end, or to the reader's fault.
#[tactic(auto, using(crate::proofs::Readings::all_read))]
fn read_through(log: &[u8]) -> Reading
    ensures { result ≡ checked log.now }
{
    let mut records = 0;
    for item in Records::new(log) {
        if let Err(fault) = item {
            return Reading {
                records: fault.index as u64,
                offset: fault.offset as u64,
                fault: u32::from(Refusal::from(fault.fault).number()),
            };
        }
        records += 1;
    }
    Reading {
        records,
        offset: log.len() as u64,
        fault: 0,
    }
}

/// Reads a log, and answers the number of what ended the reading, or 0.
pub fn check(log: &[u8], reading: &mut Reading) -> u32
    ensures reading { reading.new ≡ checked log.now }
    ensures answer { result ≡ (checked log.now).fault }
{
    *reading = read_through(log);
    reading.fault
}
