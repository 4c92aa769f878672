//! The reader: the record at the start of the input, or the first fault.
ghost use Rattle.std.specs.Prelude.{◌≡◌, ◌≤◌, length, slice_index};
ghost use Rattle.records.specs.Values.{valued};
ghost use Rattle.records.specs.Reading.{fields_of, reading};
ghost use Rattle.records.specs.Laws.{ReadLaws};

use crate::fault::ReadFault;
use crate::fields::Fields;
use crate::map::Bit;
use crate::record::Record;

/// The fields that the map names, after the map byte, in bit order.
fn read_fields(input: &[u8]) -> Result<(Record<'_>, usize), ReadFault>
    requires { 1 ≤ length input.now }
    ensures { valued result ≡ fields_of (slice_index input.now 0) input.now }
{
    let mut fields = Fields { input, at: 1 };
    let record = Record {
        time: fields.number(Bit::Time, 0..=86_399)?,
        kind: fields.number(Bit::Kind, 0..=63)?,
        console: fields.number(Bit::Console, 1..=250)?,
        source: fields.number(Bit::Source, 0..=u32::MAX)?,
        flight: fields.word(Bit::Flight)?,
    };
    Ok((record, fields.at))
}

/// The reader's answer; `read` adds the laws.
fn read_checked(input: &[u8]) -> Result<(Record<'_>, usize), ReadFault>
    ensures { valued result ≡ reading input.now }
{
    match input {
        [] => Err(ReadFault::CutOff(0)),
        [1..=31, ..] => read_fields(input),
        [_, ..] => Err(ReadFault::Map(0)),
    }
}

/// Reads the record at the start of the input: the record and its length, or the first fault.
pub fn read(input: &[u8]) -> Result<(Record<'_>, usize), ReadFault>
    ensures answer { valued result ≡ reading input.now }
    ensures laws { ReadLaws input.now (valued result) }
{
    read_checked(input)
}
