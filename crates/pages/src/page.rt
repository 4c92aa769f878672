//! The page of a summary at a limit.
ghost use Rattle.std.specs.Prelude.{◌≡◌, length, take, IfOk};
ghost use Rattle.pages.specs.Pages.{page_answer, page_output, KeepsPageLaw};

use crate::line::Line;
use keys::held::Held;
use keys::refusal::Refusal;
use summaries::summary::Summary;

/// Writes the page at a limit to the start of the output, in key order, and answers how many lines it has. Refused with
/// 8 if the limit is l or less, since a key that is not held could then have reached it; then with 9 if the output has
/// fewer than k entries. The rest of the output stays; after a refusal all of it.
#[tactic(auto, using(crate::proofs::Truth::writing))]
pub fn page<S: Summary>(
    summary: &S,
    limit: u32,
    output: &mut [Line<S::Key>],
) -> Result<usize, Refusal>
    ensures answer { result
        ≡ page_answer (S.content summary.now) limit (length output.old) }
    ensures output { output.new
        ≡ page_output (S.content summary.now) limit output.old }
    ensures law { IfOk result (λ n. KeepsPageLaw S.Key.Kind.less (S.plan summary.now)
        (S.content summary.now) limit (take n output.new)) }
{
    let facts = summary.facts();
    if limit <= facts.l {
        return Err(Refusal::LowLimit);
    }
    if output.len() < facts.k as usize {
        return Err(Refusal::ShortOutput);
    }
    let mut written = 0;
    for j in 0..facts.k {
        let Some((Held::Real(key), count)) = summary.place(j as usize) else {
            continue;
        };
        let upper = count + facts.l;
        if upper >= limit {
            output[written] = Line { key, count, upper };
            written += 1;
        }
    }
    Ok(written)
}
