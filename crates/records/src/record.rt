//! A record: time, event kind, console, source address and flight word, each of which may be missing. A flight word
//! that was read is a part of the input.

#[derive(Clone, Copy, Debug, PartialEq, Eq, Hash)]
pub struct Record<'a> {
    pub time: Option<u32>,
    pub kind: Option<u8>,
    pub console: Option<u8>,
    pub source: Option<u32>,
    pub flight: Option<&'a [u8]>,
}
