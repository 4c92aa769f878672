//! A key made, and its parts read again.
use keys::event::EventKind;
use keys::prefix::Prefix;
use keys::refusal::Refusal;
use keys::word::FlightWord;
use keys::word::bytes::{first_wrong, is_word};
use std::alloc::{AllocError, Global};

/// The bytes that hexadecimal digits stand for, if they stand for any; a lone `-` stands for no bytes.
pub(crate) fn bytes_of(heap: Global, digits: &str) -> Option<Vec<u8>> {
    match digits {
        "-" => Some(Vec::new(heap)),
        _ => hex::decode(heap, digits).ok(),
    }
}

/// The text of a refusal.
fn refused(heap: Global, refusal: Refusal) -> Result<String, AllocError> {
    let number = refusal.number();
    format!(in heap; "refused {number}")
}

fn kind_text(heap: Global, number: u8) -> Result<String, AllocError> {
    match EventKind::try_from(number) {
        Ok(kind) => format!(in heap; "kind {}", kind.number()),
        Err(refusal) => refused(heap, refusal),
    }
}

/// The parts of a prefix, made by either call.
fn prefix_text(heap: Global, made: Result<Prefix, Refusal>) -> Result<String, AllocError> {
    match made {
        Ok(prefix) => format!(in heap; "prefix {} {}", prefix.address(), prefix.bits()),
        Err(refusal) => refused(heap, refusal),
    }
}

/// A flight word made of bytes, whether they make one, and where the first wrong one is.
fn word_text(heap: Global, bytes: &[u8]) -> Result<String, AllocError> {
    let mut text = match FlightWord::try_from(bytes) {
        Ok(word) => {
            let mut text = "word ".to_string(heap)?;
            for byte in word.bytes() {
                write!(text, "{byte:02X}")?;
            }
            text
        }
        Err(refusal) => refused(heap, refusal)?,
    };
    let (whole, wrong) = (is_word(bytes), first_wrong(bytes));
    write!(text, " {whole} {wrong:?}")?;
    Ok(text)
}

/// What is answered of a line that makes a key, if it is one.
pub(crate) fn made(heap: Global, words: &[&str]) -> Result<Option<String>, AllocError> {
    let text = match *words {
        ["kind", number] => match number.parse() {
            Ok(number) => kind_text(heap, number)?,
            Err(_) => return Ok(None),
        },
        ["prefix", address, bits] => match (address.parse(), bits.parse()) {
            (Ok(address), Ok(bits)) => prefix_text(heap, Prefix::make(address, bits))?,
            _ => return Ok(None),
        },
        ["containing", address, bits] => match (address.parse(), bits.parse()) {
            (Ok(address), Ok(bits)) => prefix_text(heap, Prefix::containing(address, bits))?,
            _ => return Ok(None),
        },
        ["word", digits] => match bytes_of(heap, digits) {
            Some(bytes) => word_text(heap, &bytes)?,
            None => return Ok(None),
        },
        _ => return Ok(None),
    };
    Ok(Some(text))
}
