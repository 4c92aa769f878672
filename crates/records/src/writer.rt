//! The writer: a record at the start of the output, or a refusal that leaves the output as it was.
ghost use Rattle.std.specs.Prelude.{◌≡◌, ◌+◌, ◌≤◌, true, false, ◌++◌, length, drop};
ghost use Rattle.std.specs.Range.{range_inclusive_start, range_inclusive_end, range_inclusive_exhausted};
ghost use Rattle.records.specs.Values.{bytes_of, value_of};
ghost use Rattle.records.specs.Writing.{map_of, between, word_fits, in_range, encode_word, encode, writing, output_after};
ghost use Rattle.records.specs.Pasting.{pasted};
ghost use Rattle.records.specs.Laws.{WriteLaws};

use crate::map::Bit;
use crate::number::Number;
use crate::record::Record;
use keys::refusal::Refusal;
use keys::word::bytes::is_word;
use std::ops::RangeInclusive;

/// Whether a number that is present lies in the range.
fn within<N: Number>(field: Option<N>, range: RangeInclusive<N>) -> bool
    requires { range_inclusive_exhausted range ≡ false }
    ensures { result ≡ between N.at_most (range_inclusive_start range) (range_inclusive_end range) field }
{
    field.is_none_or(|number| range.contains(&number))
}

/// Whether every field is in its range.
fn in_range(given: &Record<'_>) -> bool
    ensures { result ≡ in_range (value_of given.now) }
{
    within(given.time, 0..=86_399)
        && within(given.kind, 0..=63)
        && within(given.console, 1..=250)
        && within(given.source, 0..=u32::MAX)
        && given.flight.is_none_or(is_word)
}

/// The map byte of a record.
fn map_of(given: &Record<'_>) -> u8
    ensures { result ≡ map_of (value_of given.now) }
{
    let time = u8::from(given.time.is_some()) << Bit::Time as u32;
    let kind = u8::from(given.kind.is_some()) << Bit::Kind as u32;
    let console = u8::from(given.console.is_some()) << Bit::Console as u32;
    let source = u8::from(given.source.is_some()) << Bit::Source as u32;
    let flight = u8::from(given.flight.is_some()) << Bit::Flight as u32;
    time + kind + console + source + flight
}

/// How many bytes a number has, if it is present.
fn number_length<N: Number>(field: Option<N>) -> usize
    ensures value { result ≡ length (N.encode field) }
    ensures small { result ≤ N.WIDTH }
{
    match field {
        Some(_) => N::WIDTH,
        None => 0,
    }
}

/// How many bytes a flight word has, if it is present: its length, then its bytes.
fn word_length(field: Option<&[u8]>) -> usize
    requires { word_fits (bytes_of field) ≡ true }
    ensures value { result ≡ length (encode_word (bytes_of field.entry)) }
    ensures small { result ≤ 9 }
{
    match field {
        Some(word) => 1 + word.len(),
        None => 0,
    }
}

/// The length of a record whose flight word, if there is one, is right.
fn length_of(given: &Record<'_>) -> usize
    requires { word_fits (bytes_of given.now.flight) ≡ true }
    ensures { result ≡ length (encode (value_of given.now)) }
{
    1 + number_length(given.time)
        + number_length(given.kind)
        + number_length(given.console)
        + number_length(given.source)
        + word_length(given.flight)
}

/// Writes a number at this place, if it is present, and answers the place after it.
#[tactic(auto, using(crate::proofs::Paste::unmoved))]
fn put_number<N: Number>(field: Option<N>, out: &mut [u8], at: usize) -> usize
    requires { at + length (N.encode field) ≤ length out.old }
    ensures place { result ≡ at + length (N.encode field) }
    ensures written { out.new ≡ pasted out.old at (N.encode field) }
{
    let Some(number) = field else {
        return at;
    };
    number.put(out, at);
    at + N::WIDTH
}

/// Writes a flight word at this place, if it is present: its length, then its bytes.
#[tactic(auto, using(crate::proofs::Paste::word_pasted, crate::proofs::Paste::unmoved))]
fn put_word(field: Option<&[u8]>, out: &mut [u8], at: usize)
    requires fits { word_fits (bytes_of field) ≡ true }
    requires room { at + length (encode_word (bytes_of field)) ≤ length out.old }
    ensures { out.new ≡ pasted out.old at (encode_word (bytes_of field.entry)) }
{
    if let Some(word) = field {
        out[at] = word.len() as u8;
        out[at + 1..at + 1 + word.len()].copy_from_slice(word);
    }
}

/// Writes the map byte and the fields at the start of the output, which has room for them.
fn put_record(given: &Record<'_>, out: &mut [u8])
    requires fits { word_fits (bytes_of given.now.flight) ≡ true }
    requires room { length (encode (value_of given.now)) ≤ length out.old }
    ensures { out.new ≡ encode (value_of given.now) ++ drop (length (encode (value_of given.now))) out.old }
{
    let at = put_number(Some(map_of(given)), out, 0);
    let at = put_number(given.time, out, at);
    let at = put_number(given.kind, out, at);
    let at = put_number(given.console, out, at);
    let at = put_number(given.source, out, at);
    put_word(given.flight, out, at);
}

/// The writer's answer and the output; `write` adds the laws.
fn write_checked(given: &Record<'_>, out: &mut [u8]) -> Result<usize, Refusal>
    ensures answer { result ≡ writing (value_of given.now) (length out.old) }
    ensures written { out.new ≡ output_after (value_of given.now) out.old result }
{
    if map_of(given) == 0 {
        return Err(Refusal::Map);
    }
    if !in_range(given) {
        return Err(Refusal::Field);
    }
    let length = length_of(given);
    if out.len() < length {
        return Err(Refusal::NoRoom);
    }
    put_record(given, out);
    Ok(length)
}

/// Writes the record at the start of the output and answers its length; refuses with 3 if no field is present, then
/// with 5 if a field is out of range, then with 15 if the output is too short.
pub fn write(given: &Record<'_>, out: &mut [u8]) -> Result<usize, Refusal>
    ensures answer { result ≡ writing (value_of given.now) (length out.old) }
    ensures written { out.new ≡ output_after (value_of given.now) out.old result }
    ensures laws { WriteLaws (value_of given.now) result }
{
    write_checked(given, out)
}
