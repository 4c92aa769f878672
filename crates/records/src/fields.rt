//! The fields of a record, read one after another.
ghost use Rattle.std.specs.Prelude.{◌≡◌, ◌≤◌, false, length, slice_index};
ghost use Rattle.std.specs.Range.{range_inclusive_start, range_inclusive_end, range_inclusive_exhausted};
ghost use Rattle.records.specs.Fields.{number_at, word_at};
ghost use Rattle.records.specs.Reading.{bit, weight_of};
ghost use Rattle.records.specs.Values.{placed, word_read};

use crate::fault::ReadFault;
use crate::map::Bit;
use crate::number::Number;
use keys::word::bytes::first_wrong;
use std::ops::RangeInclusive;

/// The input, which begins with the map byte, and the place of the next field.
#[derive(Drop)]
pub(crate) struct Fields<'a> {
    pub(crate) input: &'a [u8],
    pub(crate) at: usize,
    ghost after_map: { 1 ≤ at },
    ghost within: { at ≤ length input.now },
}

impl<'a> Fields<'a> {
    /// Whether the map has the bit.
    fn has(&self, field: Bit) -> bool
        ensures { result ≡ bit (slice_index self.now.input.now 0) (weight_of field) }
    {
        (self.input[0] >> field as u32) & 1 == 1
    }

    /// The next field, a number in the range, if the map has its bit.
    pub(crate) fn number<N: Number>(
        &mut self,
        field: Bit,
        range: RangeInclusive<N>,
    ) -> Result<Option<N>, ReadFault>
        requires { range_inclusive_exhausted range ≡ false }
        ensures answer { placed result self.new.at ≡ number_at N.WIDTH N.value_at N.at_most (bit (slice_index self.old.input.now 0) (weight_of field)) (range_inclusive_start range) (range_inclusive_end range) self.old.input.now self.old.at }
        ensures input { self.new.input ≡ self.old.input }
    {
        if !self.has(field) {
            return Ok(None);
        }
        if self.input.len() - self.at < N::WIDTH {
            return Err(ReadFault::CutOff(self.input.len()));
        }
        let value = N::read(self.input, self.at);
        if !range.contains(&value) {
            return Err(ReadFault::Field(self.at));
        }
        self.at += N::WIDTH;
        Ok(Some(value))
    }

    /// The next field, a flight word, if the map has its bit: a length byte, then as many bytes.
    pub(crate) fn word(&mut self, field: Bit) -> Result<Option<&'a [u8]>, ReadFault>
        ensures answer { placed (word_read result) self.new.at ≡ word_at (bit (slice_index self.old.input.now 0) (weight_of field)) self.old.input.now self.old.at }
        ensures input { self.new.input ≡ self.old.input }
    {
        let Some(length) = self.number::<u8>(field, 1..=8)? else {
            return Ok(None);
        };
        let length = usize::from(length);
        if self.input.len() - self.at < length {
            return Err(ReadFault::CutOff(self.input.len()));
        }
        let word = &self.input[self.at..self.at + length];
        if let Some(wrong) = first_wrong(word) {
            return Err(ReadFault::Field(self.at + wrong));
        }
        self.at += length;
        Ok(Some(word))
    }
}
