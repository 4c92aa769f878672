//! The lines of a log's text.
ghost use Rattle.std.specs.Prelude.{◌≡◌, true, Some, ◌++◌, string_bytes, OnOk};
ghost use Rattle.std.specs.Net.Addr.{ipv4_octets};
ghost use Rattle.std.specs.Net.Text.{ipv4_text};
ghost use Rattle.keys.specs.Words.{is_word};
ghost use Rattle.records.specs.Values.{bytes_of, value_of};
ghost use Rattle.records.specs.Writing.{word_fits};
ghost use Rattle.records.specs.Items.{fault_of};
ghost use Rattle.records.specs.Logs.{log_of};
ghost use Rattle.dump.specs.Lines.{dotted, flight_part, field_output, line_of, last_line, text_of};

use keys::refusal::Refusal;
use records::log::{LogFault, Records};
use records::record::Record;
use std::alloc::AllocError;
use std::net::Ipv4Addr;
use std::{fmt, str};

/// A field with its name; nothing is printed of a field that is missing.
#[derive(Clone, Copy)]
struct Field<'a, T>(&'a str, Option<T>);

impl<T: fmt::Display> fmt::Display for Field<'_, T> {
    ghost output = { λ field. field_output T.output field.0.now field.1 };

    fn fmt<W: fmt::Write>(&self, f: &mut fmt::Formatter<W>) -> fmt::Result {
        let name = self.0;
        match &self.1 {
            Some(value) => write!(f, " {name} {value}"),
            None => Ok(()),
        }
    }
}

/// The address of these bits, which prints itself as its four bytes.
#[tactic(auto, using(crate::proofs::Texts::ipv4_dotted))]
fn address(bits: u32) -> Ipv4Addr
    ensures { ipv4_text (ipv4_octets result) ≡ dotted bits }
{
    // `map(Ipv4Addr::from)` would not do: of a number in an `Option` it is not known that it fits in 32 bits
    Ipv4Addr::from(bits)
}

/// The characters of a flight word: each of its bytes is one.
#[tactic(auto, using(crate::proofs::Texts::word_utf8))]
fn characters(word: &[u8]) -> &str
    requires { is_word word.now ≡ true }
    ensures { result.now ≡ word.now }
{
    str::from_utf8(word).unwrap()
}

/// A flight word in quotes, with its name; nothing is printed of a word that is missing.
#[derive(Clone, Copy)]
struct Flight<'a>(Option<&'a str>);

impl fmt::Display for Flight<'_> {
    ghost output = { λ flight. Some (flight_part (bytes_of flight.0)) };

    fn fmt<W: fmt::Write>(&self, f: &mut fmt::Formatter<W>) -> fmt::Result {
        let Some(word) = self.0 else {
            return Ok(());
        };
        // no `Field`, whose smaller pieces would let some logs' texts take nearly twice the memory
        write!(f, " flight \"{word}\"")
    }
}

/// The line of the record of this index.
#[derive(Clone, Copy)]
struct RecordLine<'a> {
    index: usize,
    given: Record<'a>,
    ghost fits: { word_fits (bytes_of given.flight) ≡ true },
}

impl fmt::Display for RecordLine<'_> {
    ghost output = { λ line. Some (line_of line.index (value_of line.given)) };

    fn fmt<W: fmt::Write>(&self, f: &mut fmt::Formatter<W>) -> fmt::Result {
        let index = self.index;
        let given = self.given;
        let time = Field("time", given.time);
        let kind = Field("kind", given.kind);
        let console = Field("console", given.console);
        let source = Field("source", given.source.map(address));
        let flight = Flight(given.flight.map(characters));
        writeln!(f, "{index}{time}{kind}{console}{source}{flight}")
    }
}

/// The last line of a log that has a fault.
#[derive(Clone, Copy)]
struct FaultLine(LogFault);

impl fmt::Display for FaultLine {
    ghost output = { λ line. Some (last_line 0 (Some (fault_of line.0))) };

    fn fmt<W: fmt::Write>(&self, f: &mut fmt::Formatter<W>) -> fmt::Result {
        let number = Refusal::from(self.0.fault).number();
        let index = self.0.index;
        let offset = self.0.offset;
        writeln!(f, "fault 1 {number} {index} {offset}")
    }
}

/// Adds all lines of a log.
#[tactic(auto, using(crate::proofs::Walking::begun))]
pub(crate) fn push_log(text: &mut String, log: &[u8]) -> Result<(), AllocError>
    ensures { OnOk result (string_bytes text.new ≡ string_bytes text.old ++ text_of (log_of log.now)) }
{
    // counted here, since the last line prints the number, which `enumerate` does not leave
    let mut count = 0;
    for item in Records::new(log) {
        match item {
            Ok((_, given)) => {
                let line = RecordLine {
                    index: count,
                    given,
                };
                write!(text, "{line}")?;
                count += 1;
            }
            Err(fault) => {
                let line = FaultLine(fault);
                return write!(text, "{line}");
            }
        }
    }
    writeln!(text, "records {count}")
}
