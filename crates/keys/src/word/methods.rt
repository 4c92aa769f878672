//! Flight words made and read.
ghost use Rattle.std.specs.Prelude.{◌≡◌, true, Some};
ghost use Rattle.keys.specs.Words.{is_word};
ghost use Rattle.keys.specs.Values.{asked, word_of, bytes_of};

use crate::refusal::Refusal;
use crate::word::FlightWord;
use crate::word::bytes::is_word;

/// The word of these bytes; refused with 1 unless they are 1 to 8, each 0x20 to 0x5F.
impl TryFrom<&[u8]> for FlightWord {
    type Error = Refusal;

    ghost try_from_gives = { λ word r. r ≡ asked (word_of word.now) };

    fn try_from(word: &[u8]) -> Result<Self, Refusal> {
        if !is_word(word) {
            return Err(Refusal::OutOfRange);
        }
        Ok(FlightWord::stored(word))
    }
}

impl FlightWord {
    /// The word of bytes that make one.
    fn stored(word: &[u8]) -> Self
        requires { is_word word.now ≡ true }
        ensures { Some result ≡ word_of word.now }
    {
        let mut bytes = [0; 8];
        bytes[..word.len()].copy_from_slice(word);
        FlightWord {
            bytes,
            len: word.len() as u8,
        }
    }

    pub fn bytes(&self) -> &[u8]
        ensures { result.now ≡ bytes_of self.now }
    {
        &self.bytes[..usize::from(self.len)]
    }
}
