//! The page of a list of numbers.
ghost use Rattle.std.specs.Prelude.{◌≡◌, length, nat_lt};
ghost use Rattle.model.specs.Sketches.{sketch};
ghost use Rattle.sketch.specs.Sketches.{content_of};
ghost use Rattle.console.specs.Numbers.{taken_all, numbers_content, number_page_answered, number_page_lines, number_page_numbers, NumberPageLaw};

use crate::log_page::MOST;
use crate::page::{Line, PageNumbers, write_page};
use pages::line;
use sketch::making::MOST_KEYS;
use sketch::sketch::Sketch;
use summaries::summary::Summary;
use tree::cell::Cell;

/// What memory for lines is filled with.
const NO_LINE: line::Line<u32> = line::Line {
    key: 0,
    count: 0,
    upper: 0,
};

/// Takes the keys in order, those that the summary admits and has room for.
#[tactic(auto, using(crate::proofs::Numbers::all_taken))]
fn take_all<S: Summary>(summary: &mut S, keys: &[S::Key])
    ensures plan { S.plan summary.new ≡ S.plan summary.old }
    ensures content { S.content summary.new ≡ taken_all (S.plan summary.old) (S.content summary.old) keys.now }
{
    for key in keys {
        let _ = summary.take(*key);
    }
}

/// Takes the numbers into a sketch of k numbers that has taken none.
fn take_numbers(k: u32, made: &mut Sketch<'_, u32>, entries: &[u32])
    requires { content_of made.old ≡ (sketch nat_lt k).fresh }
    ensures k { (content_of made.new).k ≡ k }
    ensures content { content_of made.new ≡ numbers_content entries.now k }
{
    take_all(made, entries);
}

/// Writes the page of a list of numbers at a limit to the start of the lines: by a sketch of k keys that takes them.
#[tactic(auto, using(crate::proofs::PageLaws::number_page_law))]
pub fn page_of_numbers(
    entries: &[u32],
    k: u32,
    limit: u32,
    lines: &mut [Line],
    numbers: &mut PageNumbers,
) -> u32
    ensures answer { result ≡ number_page_answered entries.now k limit (length lines.old) }
    ensures lines { lines.new ≡ number_page_lines entries.now k limit lines.old }
    ensures numbers { numbers.new ≡ number_page_numbers entries.now k limit (length lines.old) numbers.old }
    ensures law { NumberPageLaw entries.now k limit }
{
    if !(2..=MOST_KEYS).contains(&k) {
        return 1;
    }
    let mut keys = [Cell::Blank; MOST];
    let mut ranks = [Cell::Blank; MOST];
    let Ok(mut sketch) = Sketch::make(k, &mut keys, &mut ranks) else {
        unreachable!()
    };
    take_numbers(k, &mut sketch, entries);
    write_page(&sketch, limit, &mut [NO_LINE; MOST], lines, numbers)
}
