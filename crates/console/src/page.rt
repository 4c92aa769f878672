//! The page of a log, and of a list of numbers.
ghost use Rattle.std.specs.Prelude.{◌≡◌, ◌≤◌, IfOk, [], length, drop, map, ◌++◌};
ghost use Rattle.keys.specs.declared.pair.Pair.{Pair};
ghost use Rattle.console.specs.declared.part.Part.{Part};
ghost use Rattle.console.specs.Parts.{part_of, number_bytes};
ghost use Rattle.pages.specs.Pages.{page_answer};
ghost use Rattle.console.specs.Pages.{shown_line, page_number, lines_after, numbers_of};

use crate::part::{Part, part_of};
use keys::kind::Kind;
use keys::pair::Pair;
use keys::refusal::Refusal;
use pages::line;
use pages::page::page;
use summaries::summary::Summary;

/// A line of a page: of the key's entries there are at least `count` and at most `upper`.
#[repr(C)]
#[derive(Clone, Copy, Debug, PartialEq, Eq, Hash)]
pub struct Line {
    pub first: Part,
    pub second: Part,
    pub count: u32,
    pub upper: u32,
}

/// How many keys were taken; how far a count can be below the number of its key's entries; how many lines there are.
#[repr(C)]
#[derive(Clone, Copy, Debug, PartialEq, Eq, Hash)]
pub struct PageNumbers {
    pub n: u32,
    pub l: u32,
    pub lines: u32,
}

/// A kind of key that a line shows, by two parts.
pub(crate) trait Shown: Kind {
    ghost as_parts: { Self → Pair Part Part };

    fn parts(&self) -> Pair<Part, Part>
        ensures { result ≡ as_parts self.now };
}

impl Shown for Pair<Part, Part> {
    ghost as_parts = { λ k. k };

    fn parts(&self) -> Pair<Part, Part> {
        *self
    }
}

impl Shown for u32 {
    ghost as_parts = { λ n. record { first = part_of (number_bytes n); second = part_of [] } };

    fn parts(&self) -> Pair<Part, Part> {
        Pair {
            first: part_of(&self.to_be_bytes()),
            second: part_of(&[]),
        }
    }
}

/// A line as it is shown.
fn shown_line<K: Shown>(line: &line::Line<K>) -> Line
    ensures { result ≡ shown_line K.as_parts line.now }
{
    let Pair { first, second } = line.key.parts();
    Line {
        first,
        second,
        count: line.count,
        upper: line.upper,
    }
}

/// Writes lines to the start of the output.
#[tactic(auto, using(crate::proofs::Copying::none_copied, crate::proofs::Copying::one_copied, crate::proofs::Copying::all_copied))]
fn write_lines<K: Shown>(found: &[line::Line<K>], lines: &mut [Line])
    requires { length found.now ≤ length lines.old }
    ensures { lines.new ≡ map (shown_line K.as_parts) found.now ++ drop (length found.now) lines.old }
{
    for (i, line) in found.iter().enumerate() {
        lines[i] = shown_line(line);
    }
}

/// Writes the page of a summary to the start of the lines, by way of memory that has room for k lines.
#[tactic(auto, using(crate::proofs::Pages::same_page))]
fn copy_page<K: Shown, S: Summary<Key = K>>(
    summary: &S,
    limit: u32,
    found: &mut [line::Line<K>],
    lines: &mut [Line],
) -> Result<usize, Refusal>
    requires room { (S.content summary.now).k ≤ length found.old }
    requires few { length found.old ≤ 1024 }
    ensures answer { result ≡ page_answer (S.content summary.now) limit (length lines.old) }
    ensures lines { lines.new ≡ lines_after K.as_parts (S.content summary.now) limit lines.old }
    ensures few { IfOk result (λ n. n ≤ 1024) }
{
    let room = lines.len().min(found.len());
    let written = page(summary, limit, &mut found[..room])?;
    write_lines(&found[..written], lines);
    Ok(written)
}

/// The same, with the page's numbers. Answers 0, or the number of the refusal.
pub(crate) fn write_page<K: Shown, S: Summary<Key = K>>(
    summary: &S,
    limit: u32,
    found: &mut [line::Line<K>],
    lines: &mut [Line],
    numbers: &mut PageNumbers,
) -> u32
    requires room { (S.content summary.now).k ≤ length found.old }
    requires few { length found.old ≤ 1024 }
    ensures answer { result ≡ page_number (S.content summary.now) limit (length lines.old) }
    ensures lines { lines.new ≡ lines_after K.as_parts (S.content summary.now) limit lines.old }
    ensures numbers { numbers.new ≡ numbers_of (S.content summary.now) limit (length lines.old) }
{
    let facts = summary.facts();
    let written = copy_page(summary, limit, found, lines);
    *numbers = PageNumbers {
        n: facts.n,
        l: facts.l,
        lines: written.unwrap_or(0) as u32,
    };
    match written {
        Ok(_) => 0,
        Err(refusal) => u32::from(refusal.number()),
    }
}
