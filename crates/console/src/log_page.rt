//! The page of a log.
ghost use Rattle.std.specs.Prelude.{◌≡◌, length};
ghost use Rattle.console.specs.Asked.{asked, log_read, page_answered, log_page_lines, page_numbers, LogPageLaw};

use crate::fed::feed_sketch;
use crate::lens::Lenses;
use crate::page::{Line, PageNumbers, write_page};
use crate::part::Part;
use crate::reading::Reading;
use keys::pair::Pair;
use pages::line;
use sketch::making::MOST_KEYS;
use sketch::sketch::Sketch;
use tree::cell::Cell;

/// The most keys of a sketch, and lines of a page.
pub(crate) const MOST: usize = MOST_KEYS as usize;

/// What memory for lines is filled with.
const NO_LINE: line::Line<Pair<Part, Part>> = line::Line {
    key: Pair {
        first: Part::NONE,
        second: Part::NONE,
    },
    count: 0,
    upper: 0,
};

/// Writes the page of a log at a limit to the start of the lines: by a sketch of k keys of what the lenses of these
/// numbers give of its records, up to what ends the reading.
#[tactic(auto, using(crate::proofs::PageLaws::log_page_law))]
pub fn page_of_log(
    log: &[u8],
    first: u32,
    second: u32,
    k: u32,
    limit: u32,
    lines: &mut [Line],
    reading: &mut Reading,
    numbers: &mut PageNumbers,
) -> u32
    ensures answer { result ≡ page_answered k log.now (asked first second k) limit (length lines.old) }
    ensures lines { lines.new ≡ log_page_lines k log.now (asked first second k) limit lines.old }
    ensures reading { reading.new ≡ log_read k log.now (asked first second k) reading.old }
    ensures numbers { numbers.new ≡ page_numbers k log.now (asked first second k) limit (length lines.old) numbers.old }
    ensures law { LogPageLaw k log.now (asked first second k) limit }
{
    let Some(lenses) = Lenses::asked(first, second, k) else {
        return 1;
    };
    let mut keys = [Cell::Blank; MOST];
    let mut ranks = [Cell::Blank; MOST];
    let Ok(mut sketch) = Sketch::make(k, &mut keys, &mut ranks) else {
        unreachable!()
    };
    *reading = feed_sketch(k, &mut sketch, &lenses, log);
    write_page(&sketch, limit, &mut [NO_LINE; MOST], lines, numbers)
}
