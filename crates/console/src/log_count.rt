//! The count of a key in a log.
ghost use Rattle.std.specs.Prelude.{◌≡◌};
ghost use Rattle.console.specs.Counts.{counted, key_asked, count_answered, count_read, count_numbers, CountLaw};

use crate::fed::feed_sketch;
use crate::lens::Lenses;
use crate::log_page::MOST;
use crate::part::Part;
use crate::reading::Reading;
use keys::pair::Pair;
use sketch::sketch::Sketch;
use summaries::summary::Summary;
use tree::cell::Cell;

/// The count of a key, beside the sketch's numbers: of its entries there are at least `count` and at most `upper`, which
/// is the count plus l.
#[repr(C)]
#[derive(Clone, Copy, Debug, PartialEq, Eq, Hash)]
pub struct CountNumbers {
    pub n: u32,
    pub l: u32,
    pub count: u32,
    pub upper: u32,
}

/// The count of a key of a summary; 0 if it is not held.
fn count_of<S: Summary>(summary: &S, key: &S::Key) -> CountNumbers
    ensures { result ≡ counted S.Key.Kind.less (S.content summary.now) key.now }
{
    let facts = summary.facts();
    let count = summary.count(key).unwrap_or(0);
    CountNumbers {
        n: facts.n,
        l: facts.l,
        count,
        upper: count + facts.l,
    }
}

/// What is asked for: lenses, and the key of the bytes of its parts.
fn asked_key(
    first: u32,
    second: u32,
    k: u32,
    first_part: &[u8],
    second_part: &[u8],
) -> Option<(Lenses, Pair<Part, Part>)>
    ensures { result ≡ key_asked first second k first_part.now second_part.now }
{
    let lenses = Lenses::asked(first, second, k)?;
    let key = lenses.key_from(first_part, second_part)?;
    Some((lenses, key))
}

/// The count of a key in a log: by a sketch of k keys of what the lenses of these numbers give of its records, up to what
/// ends the reading. The key is given by the bytes of its parts.
#[tactic(auto, using(crate::proofs::PageLaws::count_law))]
pub fn count_in_log(
    log: &[u8],
    first: u32,
    second: u32,
    k: u32,
    first_part: &[u8],
    second_part: &[u8],
    reading: &mut Reading,
    count: &mut CountNumbers,
) -> u32
    ensures answer { result ≡ count_answered (key_asked first second k first_part.now second_part.now) }
    ensures reading { reading.new ≡ count_read k log.now (key_asked first second k first_part.now second_part.now) reading.old }
    ensures count { count.new ≡ count_numbers k log.now (key_asked first second k first_part.now second_part.now) count.old }
    ensures law { CountLaw k log.now (key_asked first second k first_part.now second_part.now) }
{
    let Some((lenses, key)) = asked_key(first, second, k, first_part, second_part) else {
        return 1;
    };
    let mut keys = [Cell::Blank; MOST];
    let mut ranks = [Cell::Blank; MOST];
    let Ok(mut sketch) = Sketch::make(k, &mut keys, &mut ranks) else {
        unreachable!()
    };
    *reading = feed_sketch(k, &mut sketch, &lenses, log);
    *count = count_of(&sketch, &key);
    0
}
