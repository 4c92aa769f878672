//! The lines of a page's text.
ghost use Rattle.std.specs.Prelude.{◌≡◌, Some};
ghost use Rattle.keys.specs.Values.{bytes_of};
ghost use Rattle.page_text.specs.Text.{line_text, head_text, fault_text};

use feeding::fault::FeedFault;
use keys::word::FlightWord;
use pages::line::Line;
use std::{fmt, str};
use summaries::answers::Facts;

/// The word as text; all its bytes are characters.
fn characters(word: &FlightWord) -> &str
    ensures { result.now ≡ bytes_of word.now }
{
    str::from_utf8(word.bytes()).unwrap()
}

/// The first line.
#[derive(Clone, Copy)]
pub(crate) struct Head(pub(crate) Facts);

impl fmt::Display for Head {
    ghost output = { λ head. Some (head_text head.0) };

    fn fmt<W: fmt::Write>(&self, f: &mut fmt::Formatter<W>) -> fmt::Result {
        let Facts { k, n, l } = self.0;
        writeln!(f, "{k} {n} {l}")
    }
}

/// A line of the page.
#[derive(Clone, Copy)]
pub(crate) struct PageLine(pub(crate) Line<FlightWord>);

impl fmt::Display for PageLine {
    ghost output = { λ line. Some (line_text line.0) };

    fn fmt<W: fmt::Write>(&self, f: &mut fmt::Formatter<W>) -> fmt::Result {
        let word = characters(&self.0.key);
        let count = self.0.count;
        let upper = self.0.upper;
        writeln!(f, "{word} {count} {upper}")
    }
}

/// What is printed of a log that was not read to its end.
#[derive(Clone, Copy)]
pub(crate) struct FaultLine(pub(crate) FeedFault);

impl fmt::Display for FaultLine {
    ghost output = { λ line. Some (fault_text line.0) };

    fn fmt<W: fmt::Write>(&self, f: &mut fmt::Formatter<W>) -> fmt::Result {
        let layer = self.0.layer();
        let number = self.0.number();
        let index = self.0.index;
        let offset = self.0.offset;
        writeln!(f, "fault {layer} {number} {index} {offset}")
    }
}
