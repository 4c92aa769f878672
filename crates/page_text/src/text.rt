//! The text of a log that is read: its summary, or its fault.
ghost use Rattle.std.specs.Prelude.{◌≡◌, ◌++◌, flat_map, string_bytes, OnOk};
ghost use Rattle.records.specs.Logs.{log_of};
ghost use Rattle.sketch.specs.Sketches.{content_of};
ghost use Rattle.page_text.specs.Text.{line_text, lines_of, summary_text, text_plan, fed_content, fed_text_answer, text_of};

use crate::lines::{FaultLine, Head, PageLine};
use feeding::fault::FeedFault;
use feeding::feed::{Fed, feed};
use keys::word::FlightWord;
use lenses::flight::FlightLens;
use pages::line::Line;
use pages::page::page;
use sketch::sketch::Sketch;
use std::alloc::AllocError;
use summaries::summary::Summary;
use tree::cell::Cell;

/// How many keys the sketch holds.
const KEYS: usize = 8;

/// Some line, to fill an output before a page is written to it.
fn some_line() -> Line<FlightWord> {
    let Ok(key) = FlightWord::try_from(" ".as_bytes()) else {
        unreachable!()
    };
    Line {
        key,
        count: 0,
        upper: 0,
    }
}

/// The page at the limit l + 1, written to the output. It is not refused: the limit is above l, and the output has an
/// entry for each key.
#[tactic(auto, using(crate::proofs::Pages::lowerings, crate::proofs::Pages::page_at_start))]
fn written_page<'a>(
    sketch: &Sketch<'_, FlightWord>,
    output: &'a mut [Line<FlightWord>; KEYS],
) -> &'a [Line<FlightWord>]
    requires { (content_of sketch.now).k ≡ KEYS }
    ensures { result.now ≡ lines_of (content_of sketch.now) }
{
    let facts = sketch.facts();
    let Ok(length) = page(sketch, facts.l + 1, output) else {
        unreachable!()
    };
    &output[..length]
}

/// Adds the lines of a page.
fn push_lines(text: &mut String, lines: &[Line<FlightWord>]) -> Result<(), AllocError>
    ensures { OnOk result (string_bytes text.new ≡ string_bytes text.old ++ flat_map line_text lines.now) }
{
    for line in lines {
        let line = PageLine(*line);
        write!(text, "{line}")?;
    }
    Ok(())
}

/// Adds the first line and the lines of the page.
fn push_summary(text: &mut String, sketch: &Sketch<'_, FlightWord>) -> Result<(), AllocError>
    requires { (content_of sketch.now).k ≡ KEYS }
    ensures { OnOk result (string_bytes text.new ≡ string_bytes text.old ++ summary_text (content_of sketch.now)) }
{
    let head = Head(sketch.facts());
    write!(text, "{head}")?;
    let mut output = [some_line(); KEYS];
    push_lines(text, written_page(sketch, &mut output))
}

/// Feeds the flight words of a log to a fresh sketch.
#[tactic(auto, using(crate::proofs::Fed::content_fed, crate::proofs::Fed::answer_fed, crate::proofs::Fed::eight_after))]
fn feed_fresh(sketch: &mut Sketch<'_, FlightWord>, log: &[u8]) -> Result<Fed, FeedFault>
    requires { content_of sketch.old ≡ text_plan.fresh }
    ensures content { content_of sketch.new ≡ fed_content (log_of log.now).records }
    ensures answer { result ≡ fed_text_answer (log_of log.now) }
    ensures eight { (content_of sketch.new).k ≡ KEYS }
{
    feed(sketch, &FlightLens, log)
}

/// Adds the text of a log.
pub(crate) fn push_log(text: &mut String, log: &[u8]) -> Result<(), AllocError>
    ensures { OnOk result (string_bytes text.new ≡ string_bytes text.old ++ text_of (log_of log.now)) }
{
    let mut keys = [Cell::Blank; KEYS];
    let mut ranks = [Cell::Blank; KEYS];
    let Ok(mut sketch) = Sketch::make(KEYS as u32, &mut keys, &mut ranks) else {
        unreachable!()
    };
    match feed_fresh(&mut sketch, log) {
        Ok(_) => push_summary(text, &sketch),
        Err(fault) => {
            let line = FaultLine(fault);
            write!(text, "{line}")
        }
    }
}
