//! A release, and what it answers and leaves.
use keys::event::EventKind;
use keys::kind::Kind;
use keys::refusal::Refusal;
use keys::word::FlightWord;
use release::book::Book;
use release::entry::Entry;
use release::release::release;
use std::alloc::{AllocError, Global};
use summaries::summary::Summary;

/// What a release is given beside the summary: its noise, its threshold, and how many entries its output has room for.
#[derive(Drop)]
pub(crate) struct Noise {
    pub(crate) shared: i32,
    pub(crate) draws: Vec<i32>,
    pub(crate) threshold: u32,
    pub(crate) room: usize,
}

/// What a release came to: its answer, and how many permits of its book are out and spent then.
struct Outcome {
    answer: Result<usize, Refusal>,
    out: u32,
    spent: u32,
}

/// A kind of key that can be printed.
pub(crate) trait Shown: Kind {
    /// Adds the key's text.
    fn push_to(&self, text: &mut String) -> Result<(), AllocError>;
}

impl Shown for EventKind {
    fn push_to(&self, text: &mut String) -> Result<(), AllocError> {
        let number = self.number();
        write!(text, "{number}")
    }
}

impl Shown for FlightWord {
    fn push_to(&self, text: &mut String) -> Result<(), AllocError> {
        for byte in self.bytes() {
            let letter = char::from(*byte);
            write!(text, "{letter}")?;
        }
        Ok(())
    }
}

/// Releases a list by the permit of a book that is made for it.
fn released<S: Summary>(
    summary: &S,
    noise: &Noise,
    draws: &mut [i32],
    output: &mut [Entry<S::Key>],
) -> Result<Outcome, Refusal> {
    let mut book = Book::make(7, 1)?;
    let permit = book.issue()?;
    match release(
        summary,
        &mut book,
        permit,
        noise.shared,
        draws,
        noise.threshold,
        output,
    ) {
        Ok(entries) => Ok(Outcome {
            answer: Ok(entries),
            out: book.out(),
            spent: book.spent(),
        }),
        Err(refused) => {
            let (out, spent) = (book.out(), book.spent());
            let _ = book.hand_back(refused.permit);
            Ok(Outcome {
                answer: Err(refused.refusal),
                out,
                spent,
            })
        }
    }
}

/// Adds an entry of the output, or a point for one that was not written.
fn push_entry<K: Shown>(
    text: &mut String,
    entry: &Entry<K>,
    unwritten: &Entry<K>,
) -> Result<(), AllocError> {
    if entry == unwritten {
        return write!(text, " .");
    }
    write!(text, " ")?;
    entry.key.push_to(text)?;
    write!(text, ":{}", entry.value)
}

/// What a release answers and leaves.
pub(crate) fn report<S: Summary>(
    heap: Global,
    summary: &S,
    unwritten: Entry<S::Key>,
    noise: &Noise,
) -> Result<String, AllocError>
where
    S::Key: Shown,
{
    let mut draws = noise.draws.clone()?;
    let mut output = vec![in heap; unwritten; noise.room]?;
    let mut text = match released(summary, noise, &mut draws, &mut output) {
        Ok(Outcome { answer, out, spent }) => match answer {
            Ok(entries) => format!(in heap; "list of {entries}, {out} out, {spent} spent, output"),
            Err(refusal) => {
                format!(in heap;
                    "refused {}, {out} out, {spent} spent, output",
                    refusal.number()
                )
            }
        },
        Err(refusal) => format!(in heap; "no permit {}", refusal.number()),
    }?;
    for entry in &output {
        push_entry(&mut text, entry, &unwritten)?;
    }
    write!(text, ", draws {draws:?}")?;
    Ok(text)
}
