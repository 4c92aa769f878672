//! A book, its permits, and the lists that are released by them.
ghost use Rattle.std.specs.Prelude.{◌≡◌, ◌+◌, true};
ghost use Rattle.release.specs.Books.{knows, one_back};

use crate::shown::Shown;
use crate::sketches::KEYS;
use crate::steps::{Done, Step, show_steps};
use keys::refusal::Refusal;
use keys::word::FlightWord;
use release::book::{Book, Refused};
use release::entry::Entry;
use release::permit::Permit;
use release::release::release;
use sketch::sketch::Sketch;
use std::io;
use summaries::summary::Summary;

/// The limit of the book.
const LIMIT: u32 = 2;

/// How many entries the output has, more than the list can have.
const ENTRIES: usize = 6;

/// The shared draw and the threshold of a release.
#[derive(Clone, Copy)]
pub struct Terms {
    pub shared: i32,
    pub threshold: u32,
}

/// What a book says of itself.
#[derive(Clone, Copy, PartialEq, Eq)]
pub struct BookFacts {
    pub number: u32,
    pub limit: u32,
    pub out: u32,
    pub spent: u32,
}

impl BookFacts {
    pub fn of(book: &Book) -> BookFacts {
        BookFacts {
            number: book.number(),
            limit: book.limit(),
            out: book.out(),
            spent: book.spent(),
        }
    }
}

/// A line for each book, with its place.
pub fn show_books(rt: &impl Print, books: &[BookFacts]) -> io::Result<()> {
    for (i, book) in books.iter().enumerate() {
        let BookFacts {
            number,
            limit,
            out,
            spent,
        } = book;
        println!(rt; "book {i}: number {number}, limit {limit}, {out} out, {spent} spent")?;
    }
    Ok(())
}

/// Hands a permit back to its book.
pub(crate) fn give_back(book: &mut Book, permit: Permit)
    requires { knows book.old permit ≡ true }
    ensures { book.new ≡ one_back book.old }
{
    let _ = book.hand_back(permit);
}

/// Releases a list by a permit of the book, or hands the permit back where the release is refused.
pub(crate) fn release_by<S: Summary>(
    summary: &S,
    book: &mut Book,
    permit: Permit,
    terms: Terms,
    draws: &mut [i32],
    output: &mut [Entry<S::Key>],
) -> Result<usize, Refusal>
    requires { knows book.old permit ≡ true }
    ensures { book.new.out + 1 ≡ book.old.out }
{
    match release(
        summary,
        book,
        permit,
        terms.shared,
        draws,
        terms.threshold,
        output,
    ) {
        Ok(entries) => Ok(entries),
        Err(Refused { refusal, permit }) => {
            give_back(book, permit);
            Err(refusal)
        }
    }
}

/// Releases a list by a permit that is issued for it. A permit whose release is refused is handed back.
pub(crate) fn release_new<S: Summary>(
    summary: &S,
    book: &mut Book,
    terms: Terms,
    draws: &mut [i32],
    output: &mut [Entry<S::Key>],
) -> Result<usize, Refusal>
    requires { book.old.out ≡ 0 }
    ensures { book.new.out ≡ 0 }
{
    let permit = book.issue()?;
    release_by(summary, book, permit, terms, draws, output)
}

/// Issues both permits of a book, asks for a third, and hands both back.
fn issue_both(book: &mut Book) -> [Step; 5]
    requires limit { book.old.limit ≡ LIMIT }
    requires none_out { book.old.out ≡ 0 }
    requires none_spent { book.old.spent ≡ 0 }
    ensures { book.new ≡ book.old }
{
    let Ok(first) = book.issue() else {
        unreachable!()
    };
    let one = Step::new(Done::Issued, book);
    let Ok(second) = book.issue() else {
        unreachable!()
    };
    let two = Step::new(Done::Issued, book);
    let Err(refusal) = book.issue() else {
        unreachable!()
    };
    let three = Step::new(Done::NotIssued(refusal), book);
    let _ = book.hand_back(second);
    let four = Step::new(Done::HandedBack, book);
    let _ = book.hand_back(first);
    [one, two, three, four, Step::new(Done::HandedBack, book)]
}

/// Issues a permit and releases a list by it; or tells that none was issued.
fn release_one<S: Summary>(
    summary: &S,
    book: &mut Book,
    terms: Terms,
    draws: &mut [i32],
    output: &mut [Entry<S::Key>],
) -> Result<[Step; 2], Step>
    requires { book.old.out ≡ 0 }
    ensures { book.new.out ≡ 0 }
{
    let permit = match book.issue() {
        Ok(permit) => permit,
        Err(refusal) => return Err(Step::new(Done::NotIssued(refusal), book)),
    };
    let issued = Step::new(Done::Issued, book);
    let done = match release_by(summary, book, permit, terms, draws, output) {
        Ok(entries) => Done::Released(entries),
        Err(refusal) => Done::NotReleased(refusal),
    };
    Ok([issued, Step::new(done, book)])
}

/// Some entry, to fill an output before a list is written to it.
pub fn some_entry() -> Entry<FlightWord> {
    let Ok(key) = FlightWord::try_from("-".as_bytes()) else {
        unreachable!()
    };
    Entry { key, value: 0 }
}

fn show_entry<K: Shown>(rt: &(impl Print + AllocGlobal), entry: &Entry<K>) -> io::Result<()> {
    let text = entry.key.shown(rt.alloc())?;
    println!(rt; "entry: {text} with the value {}", entry.value)
}

/// The entries that are not as they were, each with its place in the memory for lists.
pub fn show_written<K: Shown>(
    rt: &(impl Print + AllocGlobal),
    entries: &[Entry<K>],
    before: &[Entry<K>],
) -> io::Result<()> {
    for (i, (entry, old)) in entries.iter().zip(before).enumerate() {
        if entry != old {
            print!(rt; "at {i}, ")?;
            show_entry(rt, entry)?;
        }
    }
    Ok(())
}

/// The list at the start of the output, and whether the rest is as it was.
fn show_list(
    rt: &(impl Print + AllocGlobal),
    output: &[Entry<FlightWord>],
    entries: usize,
) -> io::Result<()> {
    for entry in output.iter().take(entries) {
        show_entry(rt, entry)?;
    }
    let unwritten = some_entry();
    let stayed = output
        .iter()
        .skip(entries)
        .filter(|entry| **entry == unwritten)
        .count();
    println!(rt;
        "output: {entries} of {} entries written, {stayed} as they were",
        output.len()
    )
}

/// Releases a list by a new permit, and shows what became of permit, output and draws.
fn show_release(
    rt: &(impl Print + AllocGlobal),
    sketch: &Sketch<'_, FlightWord>,
    book: &mut Book,
    terms: Terms,
    draws: &mut [i32; KEYS],
) -> io::Result<()>
    requires { book.old.out ≡ 0 }
    ensures { book.new.out ≡ 0 }
{
    let Terms { shared, threshold } = terms;
    println!(rt; "draws: {draws:?}, shared draw {shared}, threshold {threshold}")?;
    let mut output = [some_entry(); ENTRIES];
    match release_one(sketch, book, terms, draws, &mut output) {
        Ok(steps) => {
            show_steps(rt, &steps)?;
            show_list(rt, &output, steps[1].entries())?;
            println!(rt; "draws afterwards: {draws:?}")
        }
        Err(step) => show_steps(rt, &[step]),
    }
}

/// Two releases use the book up, and a third is issued no permit.
fn show_releases(
    rt: &(impl Print + AllocGlobal),
    sketch: &Sketch<'_, FlightWord>,
    book: &mut Book,
) -> io::Result<()>
    requires { book.old.out ≡ 0 }
    ensures { book.new.out ≡ 0 }
{
    let first = Terms {
        shared: -1,
        threshold: 4,
    };
    show_release(rt, sketch, book, first, &mut [3, 0, 2, -2])?;
    println!(rt; "the permit was moved into its release, so a second list wants a second permit")?;
    let second = Terms {
        shared: 1,
        threshold: 6,
    };
    show_release(rt, sketch, book, second, &mut [0, 1, -3, 4])?;
    show_release(rt, sketch, book, second, &mut [0, 1, -3, 4])
}

/// A book from its first permit to the last.
pub fn show_book(
    rt: &(impl Print + AllocGlobal),
    sketch: &Sketch<'_, FlightWord>,
) -> io::Result<()> {
    let Ok(mut book) = Book::make(7, LIMIT) else {
        unreachable!()
    };
    println!(rt;
        "make: book {} with a limit of {}",
        book.number(),
        book.limit()
    )?;
    show_steps(rt, &issue_both(&mut book))?;
    show_releases(rt, sketch, &mut book)
}
