//! Which bytes make a flight word. The record's reader and writer ask the same.
ghost use Rattle.std.specs.Prelude.{◌≡◌, length, unwrap_or};
ghost use Rattle.keys.specs.Words.{word_byte, wrong_place, first_wrong, is_word, FirstWrong};

fn is_word_byte(byte: u8) -> bool
    ensures { result ≡ word_byte byte }
{
    (0x20..=0x5F).contains(&byte)
}

/// The place of the first byte that no flight word has, if there is one. `value` gives it by the definition
/// `first_wrong`, and `first` says what that is.
#[tactic(auto, using(crate::proofs::Lexical::wrong_value, crate::proofs::Lexical::first_is))]
pub fn first_wrong(bytes: &[u8]) -> Option<usize>
    ensures place { result ≡ wrong_place bytes.now }
    ensures value { unwrap_or (wrong_place bytes.now) (length bytes.now) ≡ first_wrong bytes.now }
    ensures first { FirstWrong bytes.now (first_wrong bytes.now) }
{
    bytes.iter().position(|b| !is_word_byte(*b))
}

/// Whether these bytes are a flight word.
pub fn is_word(bytes: &[u8]) -> bool
    ensures { result ≡ is_word bytes.now }
{
    // a place is compared, since `is_none` takes half as long again
    (1..=8).contains(&bytes.len()) && first_wrong(bytes).unwrap_or(bytes.len()) == bytes.len()
}
