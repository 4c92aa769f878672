//! Reads a table of inputs in hexadecimal, one to a line, and prints what the reader answers of each: `fault`, number
//! and place; or the record's length and its bytes as the writer gives them back, then what the writer answers of an
//! output one byte shorter.
#![tactic(auto)]

ghost use Rattle.std.specs.Prelude.{◌<◌};

use keys::refusal::Refusal;
use records::reader::read;
use records::record::Record;
use records::writer::write;
use std::alloc::{AllocError, Global};
use std::io::{BufRead, BufReader};

/// The value of an upper-case hexadecimal digit. Any other byte counts as 0, so this answers no Option; and the
/// library's readings take lower case too.
fn digit(byte: u8) -> u8
    ensures { result < 16 }
{
    match byte {
        b'0'..=b'9' => byte - b'0',
        b'A'..=b'F' => byte - b'A' + 10,
        _ => 0,
    }
}

/// The bytes that a line of hexadecimal digits stands for; an odd last digit stands for nothing.
fn bytes_of(heap: Global, line: &str) -> Result<Vec<u8>, AllocError> {
    line.as_bytes()
        .chunks_exact(2)
        .map(|pair| 16 * digit(pair[0]) + digit(pair[1]))
        .collect(heap)
}

/// What the writer answers of an output of `room` bytes: the length or the refusal, then the output's bytes.
fn again(heap: Global, given: &Record<'_>, room: usize) -> Result<String, AllocError> {
    let mut out = vec![in heap; 0xAAu8; room]?;
    let mut text = match write(given, out.as_mut_slice()) {
        Ok(n) => format!(in heap; "wrote {n} "),
        Err(refusal) => format!(in heap; "refused {} ", refusal.number()),
    }?;
    for byte in out.iter() {
        write!(text, "{byte:02X}")?;
    }
    Ok(text)
}

fn answer(heap: Global, line: &str) -> Result<String, AllocError> {
    let bytes = bytes_of(heap, line)?;
    match read(bytes.as_slice()) {
        Ok((given, n)) => {
            let whole = again(heap, &given, n)?;
            let short = again(heap, &given, n.saturating_sub(1))?;
            format!(in heap; "{n} {whole} {short}")
        }
        Err(fault) => {
            let number = Refusal::from(fault).number();
            let place = fault.place();
            format!(in heap; "fault {number} {place}")
        }
    }
}

fn main(rt: HostRuntime) -> anyhow::Result<()> {
    let heap = rt.alloc();
    for line in BufReader::new(heap, rt.stdin())?.lines(heap) {
        rt.println(answer(heap, line?.as_str())?)?;
    }
    Ok(())
}
